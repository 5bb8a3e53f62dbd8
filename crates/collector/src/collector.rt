//! The collector between two collections.

ghost use Rattle.std.specs.Prelude.{◌≡◌, ◌<◌, [], OnOk, IfOk, IfErr};
ghost use Rattle.std.specs.Borrow.{sem};

use crate::collecting::Collecting;
use crate::ready::Ready;
use grace_rows::{CollectSeat, Paired};
use shelf::Shelf;
use std::alloc::Global;
use std::marker::Model;
use total_rows::TotalSeat;

/// Why a collection was not made.
#[derive(Clone, Copy, Debug, PartialEq, Eq)]
pub enum CollectError {
    /// The phase is 1,024, the last that there can be.
    PhasesSpent { phase: u32 },
    /// There was no memory, and nothing was collected.
    Memory,
}

/// The one who collects: a seat at the maps, a seat at the totals of the apps, and a shelf for the phases that
/// ended. It is seen as the two seats and the phases on the shelf.
///
/// A collector is level where its shelf tells what its seats gave: the phase is the number of the phases on the
/// shelf, each snapshot that the seat gave stands there, whole or divided by a deletion, and no uid's deletions
/// recorded more of its app than the seat of the app totals knows.
#[derive(Drop)]
pub struct Collector {
    pub(crate) seat: CollectSeat,
    pub(crate) apps: TotalSeat,
    pub(crate) shelf: Shelf,
}

impl Model for Collector {
    ghost use Rattle.std.specs.Prelude.{◌≤◌, length};
    ghost use Rattle.collector.specs.Collectors.{CollectorState};

    ghost Value = { CollectorState };

    ghost view = { λ c. record { seat = c.seat; apps = c.apps; phases = c.shelf.phases } };

    ghost invariant = { λ c. length c.shelf.phases ≤ 1024 };
}

impl Collector {
    ghost use Rattle.collector.specs.Collectors.{IsLevel, gathered_by};
    ghost use Rattle.collector.specs.Collections.{IsCause, IsOf, began_with};
    ghost use Rattle.collector.specs.Lending.{LendsSeat, LendsApps};

    /// A collector that has collected nothing yet. It takes no memory.
    pub fn new(alloc: Global, collect: CollectSeat, apps: TotalSeat) -> Collector
        requires first { (collect.phase ≡ 0) × (collect.snapshots ≡ []) }
        ensures collector { result ≡ record { seat = collect; apps = apps; phases = [] } }
        ensures level { IsLevel (gathered_by result) }
    {
        Collector {
            seat: collect,
            apps,
            shelf: Shelf::new(alloc),
        }
    }

    /// The phase that is live.
    pub fn phase(&self) -> u32
        ensures { result ≡ self.now.seat.phase }
    {
        self.seat.phase()
    }

    /// The shelf with the phases that ended.
    pub fn shelf(&self) -> &Shelf
        ensures { result.now.phases ≡ self.now.phases }
    {
        &self.shelf
    }

    /// Lends the seat at the maps, which meets hooks.
    pub fn seat(&mut self) -> &mut CollectSeat
        ensures* writes_back { sem 𝓛 (LendsSeat self.entry result) }
        ensures value { result.now ≡ self.old.seat }
    {
        &mut self.seat
    }

    /// Lends the seat at the totals of the apps, which learns what hooks added.
    pub fn apps(&mut self) -> &mut TotalSeat
        ensures* writes_back { sem 𝓛 (LendsApps self.entry result) }
        ensures value { result.now ≡ self.old.apps }
    {
        &mut self.apps
    }

    /// The two seats and the shelf, for one who is done with collecting.
    pub fn into_parts(self) -> (CollectSeat, TotalSeat, Shelf)
        ensures seats { (result.0 ≡ self.seat) × (result.1 ≡ self.apps) }
        ensures shelf { result.2.phases ≡ self.phases }
    {
        (self.seat, self.apps, self.shelf)
    }

    /// Takes all memory of a collection, and then ends the live phase: hooks count in the next one from then on,
    /// and those that entered the old one may still be inside it.
    ///
    /// `PhasesSpent` comes exactly where the phase is 1,024, which is looked at before memory is tried. Where
    /// nothing begins, the collector comes back as it was.
    pub fn begin(
        self,
        alloc: Global,
        paired: &Paired,
    ) -> Result<Collecting, (Collector, CollectError)>
        requires from { self.seat.table ≡ paired.now.table }
        requires level { IsLevel (gathered_by self) }
        ensures begun { IfOk result (λ it. (began_with it ≡ self) × IsOf paired.now it) }
        ensures waits { IfOk result (λ it. it.flipped.loads ≡ 0) }
        ensures early { OnOk result (self.seat.phase < 1024) }
        ensures handed_back { IfErr result (λ e. e.0 ≡ self) }
        ensures cause { IfErr result (λ e. IsCause self.seat.phase e.1) }
    {
        let ready = Ready::prepare(self, alloc, paired)?;
        Ok(ready.flip(paired))
    }
}
