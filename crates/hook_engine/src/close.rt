//! How an engine ends.

ghost use Rattle.std.specs.Prelude.{◌≡◌, ◌+◌, ◌<◌, ◌≤◌, ◌↔◌, None, IsOk, IfOk, IfErr, length};
ghost use Rattle.std.specs.List.{AllByRecursion};
ghost use Rattle.acct_base.specs.declared.charge.Charge.{Charge};
ghost use Rattle.acct_base.specs.Sums.{AreTotals, HoldsPhase};
ghost use Rattle.grace_rows.specs.Seats.{AreSnapshotsOf};
ghost use Rattle.hook_engine.specs.Passes.{IsSole};
ghost use Rattle.hook_engine.specs.Ends.{EngineClosed, room_for};
ghost use Rattle.hook_engine.specs.Tables.{AreSeatsOf};

use crate::engine::{DeskSeats, Engine};
use crate::pass::Pass;
use crate::room::CloseRoom;
use acct_base::{Snapshot, TotalList, WriteList};
use grace_rows::{CollectSeat, HookSeat, Paired, SnapshotRoom};
use reg_words::{JournalRoom, Regs, Writer};
use total_rows::{TotalRoom, TotalSeat, Totals};

/// What is left of an engine.
#[derive(Debug, Drop)]
pub struct EngineRest {
    /// What the live phase counted.
    pub live: Snapshot,
    /// All writes, in order.
    pub journal: WriteList,
    /// The totals by app, ascending by uid.
    pub apps: TotalList,
    /// The totals by interface, ascending by index.
    pub ifaces: TotalList,
}

/// An engine that was not closed, since the pass has not all calls: some are at other passes. All comes back.
#[derive(Drop)]
pub struct SeatsOut {
    pub engine: Engine,
    pub pass: Pass,
    pub seats: DeskSeats,
    pub room: CloseRoom,
    /// How many calls the pass lacks, at least 1.
    pub missing: u64,
}

impl Engine {
    /// What is left of the engine: the rows of the live phase, the journal, and the totals. They, and each
    /// snapshot that the collector's seat gave, are what the pass's lists come to.
    ///
    /// It wants the pass that has all calls, and else hands everything back. It takes no memory and waits for
    /// nobody.
    pub fn close(
        self,
        pass: Pass,
        seats: DeskSeats,
        room: CloseRoom,
    ) -> Result<EngineRest, SeatsOut>
        requires pass { pass.tables ≡ self.tables }
        requires seats { AreSeatsOf self.tables seats.writer seats.collect seats.apps }
        requires room { room ≡ room_for self.sizes }
        ensures rest { IfOk result (λ rest. EngineClosed self.sizes pass.has seats.collect.snapshots seats.writer.journal (record { live = rest.live; journal = rest.journal; apps = rest.apps; ifaces = rest.ifaces })) }
        ensures closed { IsOk result ↔ IsSole self.sizes.calls pass.has }
        ensures out { IfErr result (λ out. (0 < out.missing) × (pass.has.left + pass.has.made + out.missing ≡ self.sizes.calls)) }
        ensures back { IfErr result (λ out. (out.engine ≡ self) × (out.pass ≡ pass) × (out.seats ≡ seats) × (out.room ≡ room)) }
    {
        let calls = pass.left + pass.made;
        if calls < self.sizes.calls {
            let missing = self.sizes.calls - calls;
            return Err(SeatsOut {
                engine: self,
                pass,
                seats,
                room,
                missing,
            });
        }
        Ok(self.end(pass, seats, room))
    }

    // What is left, once no other pass has calls.
    fn end(self, pass: Pass, seats: DeskSeats, room: CloseRoom) -> EngineRest
        requires pass { pass.tables ≡ self.tables }
        requires seats { AreSeatsOf self.tables seats.writer seats.collect seats.apps }
        requires room { room ≡ room_for self.sizes }
        requires all { self.sizes.calls ≤ pass.has.left + pass.has.made }
        ensures rest { EngineClosed self.sizes pass.has seats.collect.snapshots seats.writer.journal (record { live = result.live; journal = result.journal; apps = result.apps; ifaces = result.ifaces }) }
        ensures sole { IsSole self.sizes.calls pass.has }
    {
        let Engine {
            regs,
            paired,
            apps,
            ifaces,
            ..
        } = self;
        let Pass {
            hook,
            apps: app_seat,
            ifaces: iface_seat,
            ..
        } = pass;
        let DeskSeats {
            writer,
            collect,
            ..
        } = seats;
        let CloseRoom {
            snapshot,
            journal,
            apps: app_room,
            ifaces: iface_room,
        } = room;
        EngineRest {
            live: live_rows(paired, hook, collect, snapshot),
            journal: all_writes(regs, writer, journal),
            apps: all_totals(apps, app_seat, app_room),
            ifaces: all_totals(ifaces, iface_seat, iface_room),
        }
    }
}

// The rows of the live phase. The hook's seat has all calls.
fn live_rows(paired: Paired, hook: HookSeat, collect: CollectSeat, room: SnapshotRoom) -> Snapshot
    requires from { (hook.table ≡ paired.table) × (collect.table ≡ paired.table) }
    requires outside { hook.entry ≡ None }
    requires room { paired.rows ≤ room }
    requires all { paired.calls ≤ hook.left + hook.made }
    ensures live { HoldsPhase paired.rows hook.charges collect.phase result }
    ensures snapshots { AreSnapshotsOf paired.rows hook.charges collect.snapshots }
    ensures phases { length collect.snapshots ≡ collect.phase }
    ensures bounded { AllByRecursion (λ (c : Charge). c.phase ≤ collect.phase) hook.charges }
    ensures sole { hook.left + hook.made ≡ paired.calls }
{
    match paired.close(hook, collect, room) {
        Ok(live) => live,
        Err(_) => unreachable!(),
    }
}

// The journal. It keeps its limit, so the room holds it.
fn all_writes(regs: Regs, writer: Writer, room: JournalRoom) -> WriteList
    requires from { writer.origin ≡ regs }
    requires room { regs.limits.writes ≤ room }
    ensures { result ≡ writer.journal }
{
    let made = writer.made();
    prove!(made <= room.writes());
    regs.close(writer, room)
}

// The totals. The seat has all calls.
fn all_totals(totals: Totals, seat: TotalSeat, room: TotalRoom) -> TotalList
    requires from { seat.table ≡ totals.table }
    requires room { totals.rows ≤ room }
    requires all { totals.calls ≤ seat.left + seat.made }
    ensures totals { AreTotals totals.rows seat.adds result }
    ensures sole { seat.left + seat.made ≡ totals.calls }
{
    match totals.close(seat, room) {
        Ok(totals) => totals,
        Err(_) => unreachable!(),
    }
}
