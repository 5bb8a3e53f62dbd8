//! The engine, and how it begins.

ghost use Rattle.std.specs.Prelude.{◌≡◌, ℕ, [], IfOk};
ghost use Rattle.acct_base.specs.Amounts.{zero_amount};
ghost use Rattle.acct_base.specs.Ranges.{AreSizes};
ghost use Rattle.total_rows.specs.Seats.{known};
ghost use Rattle.hook_engine.specs.Passes.{fresh};
ghost use Rattle.hook_engine.specs.Tables.{AreSeatsOf, knows, maps_of, apps_of};

use crate::pass::Pass;
use acct_base::Sizes;
use grace_rows::{CollectSeat, Paired};
use reg_words::{Regs, Writer};
use std::alloc::{AllocError, Global};
use std::marker::Model;
use total_rows::{TotalSeat, Totals};

/// The tables of the packet programs, which threads share. It is seen as its sizes, and its tables, by which it
/// knows its passes and the desk's seats.
#[derive(Drop)]
pub struct Engine {
    pub(crate) sizes: Sizes,
    pub(crate) regs: Regs,
    pub(crate) paired: Paired,
    pub(crate) apps: Totals,
    pub(crate) ifaces: Totals,
}

impl Model for Engine {
    ghost use Rattle.hook_engine.specs.Tables.{EngineState};

    ghost Value = { EngineState };

    ghost use Rattle.hook_engine.specs.EngineInside.{engine_state, IsEngine};

    ghost view = { engine_state };

    ghost invariant = { IsEngine };
}

/// The seats of whoever gives the engine its commands and collects from it.
#[derive(Drop)]
pub struct DeskSeats {
    /// The one that writes the registers.
    pub writer: Writer,
    /// The one that collects.
    pub collect: CollectSeat,
    /// A seat of the app totals that only reads.
    pub apps: TotalSeat,
}

impl Engine {
    /// An engine with tables of these sizes, a pass that has all its calls, and the desk's seats. Nothing is
    /// written, charged or known yet. All memory that calls ever need is taken here.
    pub fn new(alloc: Global, sizes: &Sizes) -> Result<(Engine, Pass, DeskSeats), AllocError>
        requires { AreSizes sizes.now }
        ensures sizes { IfOk result (λ t. t.0.sizes ≡ sizes.now) }
        ensures pass { IfOk result (λ t. t.1 ≡ record { tables = t.0.tables; has = fresh sizes.now.calls; loads = 0; loaded = 0; notes = [] }) }
        ensures seats { IfOk result (λ t. AreSeatsOf t.0.tables t.2.writer t.2.collect t.2.apps) }
        ensures writer { IfOk result (λ t. (t.2.writer.journal ≡ []) × (t.2.writer.front ≡ 0)) }
        ensures collector { IfOk result (λ t. (t.2.collect.phase ≡ 0) × (t.2.collect.snapshots ≡ [])) }
        ensures apps { IfOk result (λ t. (t.2.apps.left ≡ 0) × (t.2.apps.made ≡ 0) × (t.2.apps.adds ≡ [])) }
        ensures knows { IfOk result (λ t. (uid : ℕ) → known t.2.apps uid ≡ zero_amount) }
    {
        let (regs, writer, reader) = Regs::new(alloc, &sizes.regs)?;
        let (paired, hook, collect) = Paired::new(alloc, sizes.rows, sizes.calls)?;
        let (apps, mut app_seat) = Totals::new(alloc, sizes.apps, sizes.calls)?;
        let (ifaces, iface_seat) = Totals::new(alloc, sizes.ifaces, sizes.calls)?;
        let seats = DeskSeats {
            writer,
            collect,
            apps: apps.split(&mut app_seat, 0),
        };
        let pass = Pass {
            reader,
            hook,
            apps: app_seat,
            ifaces: iface_seat,
            left: sizes.calls,
            made: 0,
        };
        let engine = Engine {
            sizes: *sizes,
            regs,
            paired,
            apps,
            ifaces,
        };
        Ok((engine, pass, seats))
    }

    /// The registers, which the desk writes.
    pub fn regs(&self) -> &Regs
        ensures origin { result.now ≡ self.now.tables.regs }
        ensures limits { result.now.limits ≡ self.now.sizes.regs }
    {
        &self.regs
    }

    /// The two maps of statistics, from which the collector collects.
    pub fn paired(&self) -> &Paired
        ensures { result.now ≡ maps_of self.now }
    {
        &self.paired
    }

    /// The totals by app, which the collector reads.
    pub fn apps(&self) -> &Totals
        ensures { result.now ≡ apps_of self.now }
    {
        &self.apps
    }
}
