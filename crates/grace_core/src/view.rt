//! What is seen of a hook's seat.

ghost use Rattle.std.specs.Prelude.{◌≡◌, ◌+◌, ◌^◌, ◌<◌, ◌≤◌, [], ◌∷◌, ◌++◌, ◌==◌, ◌||◌, length, option_copied, slice_get, slice_index_or, slice_set, IfOk, OnOk, OnErr};
ghost use Rattle.grace_core.specs.declared.view.HookView as views;
ghost use Rattle.grace_core.specs.Machine.{entered, moved, recorded, next_turn, first_found, second_found, split_left};
ghost use Rattle.row_probe.specs.Keys.{pack1, pack2};
ghost use Rattle.row_probe.specs.Places.{place_of};

use crate::job::{is_valid_job, same_job};
use acct_base::{Charge, ChargeList, Job};
use std::alloc::{AllocError, Global};
use std::marker::Model;

/// Where a hook stands.
#[derive(Clone, Copy, Debug, PartialEq, Eq)]
pub enum At {
    /// It is in no call.
    Outside,
    /// It is in a call that counts in a phase, and has made some charges.
    Inside {
        phase: u32,
        charges: u8,
    },
    /// It is to claim the first key of the place of a turn.
    First {
        phase: u32,
        charges: u8,
        job: Job,
        turn: u32,
    },
    /// It has the first key there, and is to claim the second.
    Second {
        phase: u32,
        charges: u8,
        job: Job,
        turn: u32,
    },
    /// It has the row, and adds its packets, and then its bytes.
    Adding {
        phase: u32,
        charges: u8,
        job: Job,
        row: u32,
        packets_done: bool,
    },
    /// It was joined into another.
    Gone,
}

/// A job that is to claim the place of a turn, in a call that counts in a phase and made some charges.
#[derive(Clone, Copy, Debug)]
pub struct Turn {
    pub phase: u32,
    pub charges: u8,
    pub job: Job,
    pub turn: u32,
}

impl At {
    ghost use Rattle.grace_core.specs.Turns as turns;

    /// The turn at which a hook that stands here claims a first key for a job.
    pub(crate) fn first_turn(self, job: &Job) -> Option<Turn>
        ensures { result ≡ turns.first_turn job.now self }
    {
        match self {
            At::Inside { phase, charges } => {
                if charges < 2 && is_valid_job(job) {
                    Some(Turn {
                        phase,
                        charges,
                        job: *job,
                        turn: 0,
                    })
                } else {
                    None
                }
            }
            At::First {
                phase,
                charges,
                job: own,
                turn,
            } => {
                if same_job(&own, job) {
                    Some(Turn {
                        phase,
                        charges,
                        job: own,
                        turn,
                    })
                } else {
                    None
                }
            }
            _ => None,
        }
    }

    /// The turn at which it claims a second key.
    pub(crate) fn second_turn(self) -> Option<Turn>
        ensures { result ≡ turns.second_turn self }
    {
        match self {
            At::Second {
                phase,
                charges,
                job,
                turn,
            } => Some(Turn {
                phase,
                charges,
                job,
                turn,
            }),
            _ => None,
        }
    }
}

/// A hook: the calls that it may still make and those that it made, the last phase that it knows, where it
/// stands, and what it charged.
#[derive(Debug, Drop)]
pub struct HookView {
    pub left: u64,
    pub made: u64,
    pub phase: u32,
    pub at: At,
    pub list: ChargeList,
}

impl HookView {
    /// A call begins, in a phase.
    fn enter(&mut self, phase: u32)
        requires some { 0 < self.old.left }
        requires fits { self.old.made < 2 ^ 28 }
        ensures { self.new ≡ entered phase self.old }
    {
        self.left -= 1;
        self.made += 1;
        self.phase = phase;
        self.at = At::Inside { phase, charges: 0 };
    }

    /// The hook stands elsewhere.
    fn stand(&mut self, at: At)
        ensures { self.new ≡ moved self.old at }
    {
        self.at = at;
    }

    /// A job is done.
    fn record(&mut self, phase: u32, charges: u8, job: Job, landed: bool) -> Result<(), AllocError>
        requires { charges < 2 }
        ensures ok { OnOk result (self.new ≡ recorded self.old phase charges job landed) }
        ensures err { OnErr result (self.new ≡ self.old) }
    {
        self.list.push(Charge { phase, job, landed })?;
        self.at = At::Inside {
            phase,
            charges: charges + 1,
        };
        Ok(())
    }

    /// The place of a turn is another label's: on to the next turn, or after the last one the job is done.
    fn pass_turn(&mut self, rows: u32, at: Turn) -> Result<(), AllocError>
        requires few { at.charges < 2 }
        requires turn { at.turn < rows }
        ensures ok { OnOk result (self.new ≡ next_turn rows self.old at.phase at.charges at.job at.turn) }
        ensures err { OnErr result (self.new ≡ self.old) }
    {
        if at.turn + 1 == rows {
            return self.record(at.phase, at.charges, at.job, false);
        }
        self.at = At::First {
            phase: at.phase,
            charges: at.charges,
            job: at.job,
            turn: at.turn + 1,
        };
        Ok(())
    }

    /// A first key was found at the place of a turn.
    fn find_first(&mut self, rows: u32, at: Turn, key: u64, found: u64) -> Result<(), AllocError>
        requires few { at.charges < 2 }
        requires turn { at.turn < rows }
        requires key { key ≡ pack1 at.job.label }
        ensures ok { OnOk result (self.new ≡
            first_found rows self.old at.phase at.charges at.job at.turn found) }
        ensures err { OnErr result (self.new ≡ self.old) }
    {
        if !is_open(found, key) {
            return self.pass_turn(rows, at);
        }
        self.at = At::Second {
            phase: at.phase,
            charges: at.charges,
            job: at.job,
            turn: at.turn,
        };
        Ok(())
    }

    /// A second key was found at the place of a turn, which is the row.
    fn find_second(
        &mut self,
        rows: u32,
        at: Turn,
        key: u64,
        row: u32,
        found: u64,
    ) -> Result<(), AllocError>
        requires few { at.charges < 2 }
        requires turn { at.turn < rows }
        requires key { key ≡ pack2 at.job.label }
        requires row { row ≡ place_of at.job.label at.turn rows }
        ensures ok { OnOk result (self.new ≡
            second_found rows self.old at.phase at.charges at.job at.turn found) }
        ensures err { OnErr result (self.new ≡ self.old) }
    {
        if !is_open(found, key) {
            return self.pass_turn(rows, at);
        }
        self.at = At::Adding {
            phase: at.phase,
            charges: at.charges,
            job: at.job,
            row,
            packets_done: false,
        };
        Ok(())
    }
}

/// The charges of one list, and then those of another.
pub(crate) fn both(
    alloc: Global,
    first: &ChargeList,
    second: &ChargeList,
) -> Result<ChargeList, AllocError>
    ensures { IfOk result (λ list. list ≡ first.now ++ second.now) }
{
    let mut list = ChargeList::new(alloc);
    for charge in first.as_slice() {
        list.push(*charge)?;
    }
    for charge in second.as_slice() {
        list.push(*charge)?;
    }
    Ok(list)
}

/// Whether a word is free, or has the key already.
fn is_open(found: u64, key: u64) -> bool
    ensures { result ≡ (found == 0 || found == key) }
{
    found == 0 || found == key
}

/// The views of all hooks, by their numbers.
#[derive(Debug, Drop)]
pub struct HookViewList {
    items: Vec<HookView>,
}

impl HookViewList {
    /// A list without views.
    pub(crate) fn new(alloc: Global) -> Self
        ensures { result ≡ [] }
    {
        HookViewList {
            items: Vec::new(alloc),
        }
    }

    /// How many views there are.
    pub fn len(&self) -> usize
        ensures { result ≡ length self.now }
    {
        self.items.len()
    }

    /// The view with a number; None where the number is no view's.
    pub fn get(&self, hook: u32) -> Option<&HookView>
        ensures { option_copied result ≡ slice_get self.now hook }
    {
        self.items.get(hook as usize)
    }

    /// A call of a hook begins, in a phase.
    pub(crate) fn enter(&mut self, hook: u32, phase: u32)
        requires there { hook < length self.old }
        requires fits { (v : views.HookView) → v ≡ slice_index_or self.old hook v →
            (0 < v.left) × (v.made < 2 ^ 28) }
        ensures { (v : views.HookView) → v ≡ slice_index_or self.old hook v →
            self.new ≡ slice_set self.old hook (entered phase v) }
    {
        self.items[hook as usize].enter(phase);
    }

    /// A hook stands elsewhere.
    pub(crate) fn stand(&mut self, hook: u32, at: At)
        requires { hook < length self.old }
        ensures { (v : views.HookView) → v ≡ slice_index_or self.old hook v →
            self.new ≡ slice_set self.old hook (moved v at) }
    {
        self.items[hook as usize].stand(at);
    }

    /// A job of a hook is done.
    pub(crate) fn record(
        &mut self,
        hook: u32,
        phase: u32,
        charges: u8,
        job: Job,
        landed: bool,
    ) -> Result<(), AllocError>
        requires there { hook < length self.old }
        requires few { charges < 2 }
        ensures ok { (v : views.HookView) → v ≡ slice_index_or self.old hook v →
            OnOk result (self.new ≡ slice_set self.old hook (recorded v phase charges job landed)) }
        ensures err { OnErr result (self.new ≡ self.old) }
    {
        self.items[hook as usize].record(phase, charges, job, landed)
    }

    /// A hook found a first key at the place of a turn.
    pub(crate) fn find_first(
        &mut self,
        hook: u32,
        rows: u32,
        at: Turn,
        key: u64,
        found: u64,
    ) -> Result<(), AllocError>
        requires there { hook < length self.old }
        requires few { at.charges < 2 }
        requires turn { at.turn < rows }
        requires key { key ≡ pack1 at.job.label }
        ensures ok { (v : views.HookView) → v ≡ slice_index_or self.old hook v →
            OnOk result (self.new ≡ slice_set self.old hook
            (first_found rows v at.phase at.charges at.job at.turn found)) }
        ensures err { OnErr result (self.new ≡ self.old) }
    {
        self.items[hook as usize].find_first(rows, at, key, found)
    }

    /// A hook found a second key at the place of a turn, which is the row.
    pub(crate) fn find_second(
        &mut self,
        hook: u32,
        rows: u32,
        at: Turn,
        key: u64,
        row: u32,
        found: u64,
    ) -> Result<(), AllocError>
        requires there { hook < length self.old }
        requires few { at.charges < 2 }
        requires turn { at.turn < rows }
        requires key { key ≡ pack2 at.job.label }
        requires row { row ≡ place_of at.job.label at.turn rows }
        ensures ok { (v : views.HookView) → v ≡ slice_index_or self.old hook v →
            OnOk result (self.new ≡ slice_set self.old hook
            (second_found rows v at.phase at.charges at.job at.turn found)) }
        ensures err { OnErr result (self.new ≡ self.old) }
    {
        self.items[hook as usize].find_second(rows, at, key, row, found)
    }

    /// Some of a hook's calls are taken from it.
    pub(crate) fn cut(&mut self, hook: u32, n: u64)
        requires there { hook < length self.old }
        requires fits { (v : views.HookView) → v ≡ slice_index_or self.old hook v → n ≤ v.left }
        ensures { (v : views.HookView) → v ≡ slice_index_or self.old hook v →
            self.new ≡ slice_set self.old hook (split_left n v) }
    {
        self.items[hook as usize].left -= n;
    }

    /// Puts a view at the end.
    pub(crate) fn push(&mut self, view: HookView) -> Result<(), AllocError>
        ensures ok { OnOk result (self.new ≡ self.old ++ view ∷ []) }
        ensures err { OnErr result (self.new ≡ self.old) }
    {
        self.items.push(view)?;
        Ok(())
    }

    /// Puts a view in the place of another.
    pub(crate) fn set(&mut self, hook: u32, view: HookView)
        requires { hook < length self.old }
        ensures { self.new ≡ slice_set self.old hook view }
    {
        self.items[hook as usize] = view;
    }
}

impl Model for HookViewList {
    ghost use Rattle.std.specs.Prelude.{List};
    ghost use Rattle.grace_core.specs.declared.view.HookView.{HookView};

    ghost Value = { List HookView };

    ghost view = { λ s. s.items.items };
}
