//! Room for a lane's receipts, taken before the lane runs.

ghost use Rattle.std.specs.Prelude.{◌≡◌, ◌≤◌, ◌<◌, ◌+◌, ◌∷◌, ◌++◌, [], length, IfOk, vec_capacity};
ghost use Rattle.shelf.specs.Kept.{IsThere, Grew};

use crate::counts::CallCounts;
use crate::kept::{Found, Kept, is_nothing, keep};
use crate::receipts::ReceiptList;
use crate::roomy::RoomyList;
use acct_base::LineReceipt;
use std::alloc::{AllocError, Global};
use std::marker::Model;

/// The receipts of a lane that takes no memory while it runs: those that it gave so far, and room for as many
/// as it may give. Contracts see the list of pairs, and for how many in all there is room.
#[derive(Debug, Drop)]
pub struct ReceiptRoom {
    kept: Vec<Kept>,
    found: Vec<Found>,
    counts: CallCounts,
    room: u32,
}

impl Model for ReceiptRoom {
    ghost use Rattle.std.specs.Prelude.{◌≡◌, ◌≤◌, length, map, All, vec_capacity};
    ghost use Rattle.shelf.specs.Counted.{counts_of};
    ghost use Rattle.shelf.specs.Kept.{kept_again, IsFoundIn};
    ghost use Rattle.shelf.specs.Room.{Room};

    ghost Value = { Room };

    ghost view = { λ r. record {
      receipts = map (kept_again r.found.items) r.kept.items;
      room = r.room;
    } };

    ghost invariant = { λ r. (All (IsFoundIn r.found.items) r.kept.items)
        × (length r.found.items ≤ length r.kept.items)
        × (r.room ≤ vec_capacity r.kept)
        × (r.room ≤ vec_capacity r.found)
        × (r.counts ≡ counts_of (map (kept_again r.found.items) r.kept.items)) };
}

impl ReceiptRoom {
    /// Room for `room` receipts, of which none is given yet. More than a `u32` counts are told as a want of
    /// memory.
    pub fn new(alloc: Global, room: usize) -> Result<ReceiptRoom, AllocError>
        ensures { IfOk result (λ r. r ≡ record { receipts = []; room = room }) }
    {
        let counted = u32::try_from(room).map_err(|_| AllocError)?;
        Ok(ReceiptRoom {
            kept: Vec::with_capacity(alloc, room)?,
            found: Vec::with_capacity(alloc, room)?,
            counts: CallCounts::none(),
            room: counted,
        })
    }

    /// Puts a receipt at the end, in the room that was taken for it.
    pub fn push(&mut self, item: (u64, LineReceipt))
        requires room { length self.old.receipts < self.old.room }
        ensures { self.new ≡ record {
          receipts = self.old.receipts ++ item ∷ [];
          room = self.old.room;
        } }
    {
        self.counts = self.counts.with(&item.1);
        let (kept, found) = keep(item.0, &item.1);
        let place = put_found(&mut self.found, found);
        let _ = self.kept.push(Kept {
            found: place,
            ..kept
        });
    }

    /// The receipts, as a list that may grow. It takes no memory.
    pub fn into_list(self) -> ReceiptList
        ensures { result ≡ self.receipts }
    {
        let ReceiptRoom {
            kept,
            found,
            counts,
            ..
        } = self;
        ReceiptList {
            kept: RoomyList::of(kept),
            found: RoomyList::of(found),
            counts,
        }
    }
}

// Puts what a receipt's reads found behind all that was found, in the room that there is, and gives the
// place; nothing needs none.
fn put_found(all: &mut Vec<Found>, found: Found) -> Option<u32>
    requires room { length all.old.items < vec_capacity all.old }
    requires few { length all.old.items < 4294967295 }
    ensures there { IsThere all.new.items result found }
    ensures grew { Grew all.old.items all.new.items }
    ensures at_most_one { length all.new.items ≤ length all.old.items + 1 }
    ensures capacity { vec_capacity all.old ≤ vec_capacity all.new }
{
    if is_nothing(&found) {
        return None;
    }
    let place = all.len() as u32;
    let _ = all.push(found);
    Some(place)
}
