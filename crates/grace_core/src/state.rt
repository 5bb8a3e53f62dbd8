//! The state of the machine.

ghost use Rattle.std.specs.Prelude.{◌≡◌, ◌*◌, ◌%◌, ◌^◌, ◌<◌, ◌≤◌, length, slice_index, slice_set, replicate, IfOk};
ghost use Rattle.grace_core.specs.Good.{IsGood};
ghost use Rattle.grace_core.specs.Machine as machine;
ghost use Rattle.grace_core.specs.Machine.{started};

use crate::view::{At, HookView, HookViewList};
use acct_base::{ChargeList, SnapshotList, WordList};
use std::alloc::{AllocError, Global};
use std::marker::Model;

/// The words of both sides.
#[derive(Debug, Drop)]
pub struct Words {
    items: Vec<u64>,
}

impl Words {
    /// Words that are all 0.
    fn zeros(alloc: Global, n: usize) -> Result<Self, AllocError>
        ensures { IfOk result (λ words. words ≡ replicate n 0) }
    {
        Ok(Words {
            items: vec![in alloc; 0; n]?,
        })
    }

    /// How many words there are.
    pub fn len(&self) -> usize
        ensures { result ≡ length self.now }
    {
        self.items.len()
    }

    /// The word at a place.
    pub fn get(&self, place: usize) -> u64
        requires { place < length self.now }
        ensures { result ≡ slice_index self.now place }
    {
        self.items[place]
    }

    /// Writes the word at a place.
    pub(crate) fn set(&mut self, place: usize, word: u64)
        requires { place < length self.old }
        ensures { self.new ≡ slice_set self.old place word }
    {
        self.items[place] = word;
    }
}

/// Where a word stands: that of a row and a column, on the side of a phase.
pub(crate) fn word_of(rows: u32, phase: u32, row: u32, column: u32) -> usize
    requires rows { rows ≤ 5000 }
    requires row { row < rows }
    requires column { column < 6 }
    ensures value { result ≡ machine.word_of rows phase row column }
    ensures within { result < 12 * rows }
{
    (side_start(rows, phase) as usize + row as usize) * 6 + column as usize
}

/// Where the k-th word of the side of a phase stands.
pub(crate) fn word_at(rows: u32, phase: u32, k: u32) -> usize
    requires rows { rows ≤ 5000 }
    requires within { k < 6 * rows }
    ensures value { result ≡ machine.word_at rows phase k }
    ensures within { result < 12 * rows }
{
    side_start(rows, phase) as usize * 6 + k as usize
}

/// The number of rows before the side of a phase.
fn side_start(rows: u32, phase: u32) -> u32
    ensures value { result ≡ phase % 2 * rows }
    ensures within { result ≤ rows }
{
    if phase % 2 == 0 { 0 } else { rows }
}

/// What a word holds after a claim: a free word takes the key.
pub(crate) fn claimed(key: u64, found: u64) -> u64
    ensures { result ≡ machine.claimed key found }
{
    if found == 0 { key } else { found }
}

impl Model for Words {
    ghost use Rattle.std.specs.Prelude.{List, ℕ};

    ghost Value = { List ℕ };

    ghost view = { λ s. s.items.items };
}

/// Where the collector stands.
#[derive(Debug, Drop)]
pub enum CollectAt {
    /// It collects nothing.
    Resting,
    /// It waits for the hooks that are inside the old phase, which was entered so often.
    Waiting { entered: u64 },
    /// It takes the old side's words, and has some of them.
    Draining { next: u32, taken: WordList },
}

/// The collector: the phase that is live, and where it stands. While it waits or drains, the phase before that is
/// the old one.
#[derive(Debug, Drop)]
pub struct CollectView {
    pub phase: u32,
    pub at: CollectAt,
}

/// The state of the two maps and of all that use them.
#[derive(Debug, Drop)]
pub struct State {
    /// Rows of each side.
    pub rows: u32,
    /// Calls that all hooks together may make.
    pub budget: u64,
    /// The phase that is live, above the number of its entries.
    pub choice: u64,
    /// How often each side was left.
    pub exits: (u64, u64),
    /// The words of both sides, six to a row.
    pub words: Words,
    pub hooks: HookViewList,
    pub collector: CollectView,
    /// What each phase counted that was drained.
    pub snapshots: SnapshotList,
}

/// The first state: one hook has all calls, nothing is counted, and the collector rests at phase 0.
pub fn start(alloc: Global, rows: u32, calls: u64) -> Result<State, AllocError>
    requires some_rows { 1 ≤ rows }
    requires few_rows { rows ≤ 5000 }
    requires some_calls { 1 ≤ calls }
    requires few_calls { calls ≤ 2 ^ 28 }
    ensures state { IfOk result (λ state. state ≡ started rows calls) }
    ensures good { IfOk result IsGood }
{
    let words = Words::zeros(alloc, 12 * rows as usize)?;
    let mut hooks = HookViewList::new(alloc);
    hooks.push(HookView {
        left: calls,
        made: 0,
        phase: 0,
        at: At::Outside,
        list: ChargeList::new(alloc),
    })?;
    Ok(State {
        rows,
        budget: calls,
        choice: 0,
        exits: (0, 0),
        words,
        hooks,
        collector: CollectView {
            phase: 0,
            at: CollectAt::Resting,
        },
        snapshots: SnapshotList::new(alloc),
    })
}
