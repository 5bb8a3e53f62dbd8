//! The phases that ended: what each counted, and what its collection took out.

ghost use Rattle.std.specs.Prelude.{◌≡◌, ◌==◌, ◌≤◌, ◌<◌, ◌++◌, ◌∷◌, [], length, OnOk, OnErr, IfOk, option_copied};
ghost use Rattle.acct_base.specs.Amounts.{HasRoom, amount_at};
ghost use Rattle.acct_base.specs.declared.label.Label.{Label as LabelView};
ghost use Rattle.shelf.specs.Phases.{snapshot_at, deletion_at, snapshot_rows, kept_rows, added_rows};

use crate::merge::{add_rows, rows_of};
use crate::sum::sum_with;
use acct_base::{Amount, Label, RowList, Snapshot, Tag, Uid};
use std::alloc::{AllocError, Global};
use std::collections::BTreeMap;
use std::marker::Model;

/// What a deletion took out of its phase: the rows of a uid, and of a tag where that is not 0.
#[derive(Debug, Drop)]
pub struct Deletion {
    pub phase: u32,
    pub uid: Uid,
    pub tag: Tag,
    /// The rows that were taken out, ascending by label.
    pub rows: RowList,
    /// For tag 0, what the uid's app had come to since the last such deletion.
    pub app: Option<Amount>,
}

/// The snapshots of the phases that ended, in order, each with the deletion that its collection made, and
/// room for more.
#[derive(Debug, Drop)]
pub struct Shelf {
    items: Vec<(Snapshot, Option<Deletion>)>,
}

impl Model for Shelf {
    ghost use Rattle.std.specs.Prelude.{◌-◌, ◌<◌, ◌^◌, min, vec_len, vec_capacity, length};
    ghost use Rattle.shelf.specs.Shelved.{Shelved};

    ghost Value = { Shelved };

    ghost view = { λ s. record {
      phases = s.items.items;
      spare = min (vec_capacity s.items - vec_len s.items) 4294967295;
    } };

    ghost invariant = { λ s. length s.items.items < 2 ^ 32 };
}

impl Shelf {
    /// A shelf without snapshots.
    pub fn new(alloc: Global) -> Self
        ensures { result.phases ≡ [] }
    {
        Shelf {
            items: Vec::new(alloc),
        }
    }

    /// Makes room for one more phase. The phases stay, also where memory is wanting.
    pub fn reserve(&mut self) -> Result<(), AllocError>
        ensures phases { self.new.phases ≡ self.old.phases }
        ensures room { OnOk result (1 ≤ self.new.spare) }
    {
        self.items.reserve(1)
    }

    /// Puts a snapshot with its deletion behind the others, in the room that was made for it.
    pub fn put(&mut self, snapshot: Snapshot, deletion: Option<Deletion>)
        requires room { 1 ≤ self.old.spare }
        requires few { length self.old.phases < 4294967295 }
        ensures { self.new.phases ≡ self.old.phases ++ (snapshot, deletion) ∷ [] }
    {
        let _ = self.items.push((snapshot, deletion));
    }

    /// How many phases ended.
    pub fn len(&self) -> u32
        ensures { result ≡ length self.now.phases }
    {
        self.items.len() as u32
    }

    /// Whether no phase ended.
    pub fn is_empty(&self) -> bool
        ensures { result ≡ (length self.now.phases == 0) }
    {
        self.items.is_empty()
    }

    /// For how many phases more there is room, as far as a `u32` counts.
    pub fn spare(&self) -> u32
        ensures { result ≡ self.now.spare }
    {
        let room = self.items.capacity() - self.items.len();
        room.min(MOST_SPARE) as u32
    }

    /// The snapshot of a phase; None where that phase did not end.
    pub fn snapshot(&self, phase: u32) -> Option<&Snapshot>
        ensures { option_copied result ≡ snapshot_at self.now.phases phase }
    {
        match self.items.get(phase as usize) {
            Some((snapshot, _)) => Some(snapshot),
            None => None,
        }
    }

    /// The deletion of a phase; None where its collection made none, or the phase did not end.
    pub fn deletion(&self, phase: u32) -> Option<&Deletion>
        ensures { option_copied result ≡ deletion_at self.now.phases phase }
    {
        match self.items.get(phase as usize) {
            Some((_, deletion)) => deletion.as_ref(),
            None => None,
        }
    }

    /// All phases that ended, in order: each snapshot with its deletion.
    pub fn phases(&self) -> &[(Snapshot, Option<Deletion>)]
        ensures { result.now ≡ self.now.phases }
    {
        self.items.as_slice()
    }

    /// What the snapshots hold for a label, in packets and bytes. What was deleted is left out. No sum may
    /// pass its word.
    pub fn sum(&self, label: &Label) -> Amount
        requires room { HasRoom (amount_at (snapshot_rows self.now.phases) label.now) }
        ensures { result ≡ amount_at (snapshot_rows self.now.phases) label.now }
    {
        let mut sum = Amount::zero();
        for (snapshot, _) in self.phases() {
            sum = sum_with(sum, snapshot.rows.as_slice(), label);
        }
        sum
    }

    /// The rows of the snapshots and the live rows, those of one label added, ascending by label. What was
    /// deleted is left out. No sum may pass its word.
    pub fn merged(&self, alloc: Global, live: &Snapshot) -> Result<RowList, AllocError>
        requires room { (label : LabelView) → HasRoom (amount_at (kept_rows self.now.phases live.now) label) }
        ensures { IfOk result (λ rows. rows ≡ added_rows (kept_rows self.now.phases live.now)) }
    {
        let mut sums = BTreeMap::new(alloc);
        for (snapshot, _) in self.phases() {
            add_rows(&mut sums, snapshot.rows.as_slice())?;
        }
        add_rows(&mut sums, live.rows.as_slice())?;
        rows_of(alloc, &sums)
    }
}

/// The most room that `spare` tells of.
const MOST_SPARE: usize = 4294967295;
