//! What a collection takes its memory for, before it begins.

ghost use Rattle.std.specs.Prelude.{◌≡◌, ◌≤◌, ◌<◌, [], length, vec_capacity, OnOk, IfOk, IfErr};

use crate::collecting::Collecting;
use crate::collector::{CollectError, Collector};
use acct_base::Row;
use grace_rows::{CollectSeat, Paired, SnapshotRoom};
use shelf::Shelf;
use std::alloc::{AllocError, Global};
use total_rows::TotalSeat;

/// The last phase. It cannot end.
const LAST_PHASE: u32 = 1024;

/// Room for a snapshot of so many rows, and for as many rows that a deletion takes out of it.
#[derive(Drop)]
pub(crate) struct Rooms {
    pub(crate) rows: u32,
    pub(crate) snapshot: SnapshotRoom,
    pub(crate) taken: Vec<Row>,
    ghost holds: { rows ≤ snapshot },
    ghost empty: { taken.items ≡ [] },
    ghost wide: { rows ≤ vec_capacity taken },
}

/// A collector with all memory of a collection, which may begin.
#[derive(Drop)]
pub(crate) struct Ready {
    pub(crate) seat: CollectSeat,
    pub(crate) apps: TotalSeat,
    pub(crate) shelf: Shelf,
    pub(crate) rooms: Rooms,
    ghost early: { seat.phase < 1024 },
    ghost short: { length shelf.phases < 1024 },
    ghost spare: { 1 ≤ shelf.spare },
}

impl Rooms {
    /// The rooms of a collection, and one on the shelf.
    fn take(alloc: Global, shelf: &mut Shelf, rows: u32) -> Result<Rooms, AllocError>
        ensures rows { IfOk result (λ r. r.rows ≡ rows) }
        ensures spare { OnOk result (1 ≤ shelf.new.spare) }
        ensures phases { shelf.new.phases ≡ shelf.old.phases }
    {
        let snapshot = SnapshotRoom::new(alloc, rows)?;
        let taken = Vec::with_capacity(alloc, rows as usize)?;
        shelf.reserve()?;
        Ok(Rooms {
            rows,
            snapshot,
            taken,
        })
    }
}

impl Ready {
    ghost use Rattle.collector.specs.Collectors.{IsLevel, gathered_by};
    ghost use Rattle.collector.specs.Collections.{IsCause, IsOf, began_with};
    ghost use Rattle.collector.specs.Readiness.{stands_ready};

    /// Takes all memory of a collection, unless the phase is the last one.
    pub(crate) fn prepare(
        collector: Collector,
        alloc: Global,
        paired: &Paired,
    ) -> Result<Ready, (Collector, CollectError)>
        requires level { IsLevel (gathered_by collector) }
        ensures ready { IfOk result (λ r. stands_ready r ≡ collector) }
        ensures rows { IfOk result (λ r. r.rooms.rows ≡ paired.now.rows) }
        ensures handed_back { IfErr result (λ e. e.0 ≡ collector) }
        ensures cause { IfErr result (λ e. IsCause collector.seat.phase e.1) }
    {
        let phase = collector.phase();
        if phase >= LAST_PHASE {
            return Err((collector, CollectError::PhasesSpent { phase }));
        }
        let Collector {
            seat,
            apps,
            mut shelf,
        } = collector;
        match Rooms::take(alloc, &mut shelf, paired.rows()) {
            Ok(rooms) => Ok(Ready {
                seat,
                apps,
                shelf,
                rooms,
            }),
            Err(AllocError) => Err((Collector { seat, apps, shelf }, CollectError::Memory)),
        }
    }

    /// The collector, whose collection is not to be.
    pub(crate) fn give_up(self) -> Collector
        ensures { result ≡ stands_ready self }
    {
        let Ready {
            seat,
            apps,
            shelf,
            ..
        } = self;
        Collector { seat, apps, shelf }
    }

    /// Ends the live phase.
    pub(crate) fn flip(self, paired: &Paired) -> Collecting
        requires from { self.seat.table ≡ paired.now.table }
        requires rows { self.rooms.rows ≡ paired.now.rows }
        ensures begun { (began_with result ≡ stands_ready self) × IsOf paired.now result }
        ensures waits { result.flipped.loads ≡ 0 }
        ensures early { result.flipped.phase < 1024 }
    {
        let Ready {
            seat,
            apps,
            shelf,
            rooms,
        } = self;
        let Rooms {
            rows,
            snapshot,
            taken,
        } = rooms;
        Collecting {
            flipped: paired.flip(seat, snapshot),
            apps,
            shelf,
            taken,
            rows,
        }
    }
}
