//! A collection that is under way.

ghost use Rattle.std.specs.Prelude.{◌≡◌, ◌+◌, true, false, Option};
ghost use Rattle.grace_rows.specs.Moments.{AllHaveLeft};
ghost use Rattle.grace_rows.specs.Seats.{is_clear, standing_after};
ghost use Rattle.grace_rows.specs.Graces.{grace_of};
ghost use Rattle.grace_rows.specs.declared.collect_seat.Grace.TheVariants.{Clear};

use crate::collector::Collector;
use crate::dividing::shelve;
use acct_base::{Row, Tag, Uid};
use grace_rows::{Flipped, Grace, Paired};
use shelf::Shelf;
use std::marker::Model;
use total_rows::{TotalSeat, Totals};

/// A collection after its phase was ended, until the phase is drained. It is seen as the collector's seats and
/// the phases on the shelf, with the number of rows for which it has room.
#[derive(Drop)]
pub struct Collecting {
    pub(crate) flipped: Flipped,
    pub(crate) apps: TotalSeat,
    pub(crate) shelf: Shelf,
    pub(crate) taken: Vec<Row>,
    pub(crate) rows: u32,
}

impl Model for Collecting {
    ghost use Rattle.collector.specs.Collections.{CollectingState};

    ghost Value = { CollectingState };

    ghost use Rattle.collector.specs.Roomy.{IsRoomy};

    ghost view = { λ c. record { flipped = c.flipped; apps = c.apps; phases = c.shelf.phases; rows = c.rows } };

    ghost invariant = { IsRoomy };
}

impl Collecting {
    ghost use Rattle.collector.specs.Collectors.{IsLevel, HasSameSeats, gathered_by};
    ghost use Rattle.collector.specs.Collections.{IsOf, began_with, Finished};

    /// Looks how many calls are still inside the phase that ended, and answers `Clear` only where all have left
    /// it. It takes no memory and waits for nobody.
    pub fn poll(&mut self, paired: &Paired) -> Grace
        requires from { IsOf paired.now self.old }
        requires waits { is_clear self.old.flipped ≡ false }
        ensures rest { self.new ≡ record self.old { flipped = self.new.flipped } }
        ensures flipped { self.new.flipped ≡ record self.old.flipped {
          loads = self.old.flipped.loads + 1;
          exits = self.new.flipped.exits;
          collector = standing_after self.new.flipped;
        } }
        ensures grace { result ≡ grace_of self.new.flipped }
        ensures clear { result ≡ Clear → is_clear self.new.flipped ≡ true }
        ensures left { result ≡ Clear → AllHaveLeft paired.now self.new.flipped }
    {
        paired.poll(&mut self.flipped)
    }

    /// Drains the phase that ended, once nobody is inside it, and puts it on the shelf. Rows of the uid that is
    /// dropped, and of its tag where that is not 0, go to the phase's deletion, all others to its snapshot.
    ///
    /// Where the tag is 0, the uid's app total is read once: the deletion's `app` is this total less what the
    /// uid's deletions before recorded. It takes no memory and waits for nobody.
    pub fn finish(self, paired: &Paired, apps: &Totals, drop: Option<(Uid, Tag)>) -> Collector
        requires from { IsOf paired.now self × (self.apps.table ≡ apps.now.table) }
        requires clear { is_clear self.flipped ≡ true }
        requires level { IsLevel (gathered_by (began_with self)) }
        ensures finished { Finished drop (gathered_by (began_with self)) (gathered_by result) }
        ensures level { IsLevel (gathered_by result) }
        ensures seats { HasSameSeats (began_with self) result }
    {
        let Collecting {
            flipped,
            apps: mut seat_of_apps,
            mut shelf,
            taken,
            ..
        } = self;
        let (seat, whole) = paired.drain(flipped);
        let (snapshot, deletion) = shelve(
            apps,
            &mut seat_of_apps,
            shelf.phases(),
            whole,
            taken,
            drop,
        );
        shelf.put(snapshot, deletion);
        Collector {
            seat,
            apps: seat_of_apps,
            shelf,
        }
    }
}
