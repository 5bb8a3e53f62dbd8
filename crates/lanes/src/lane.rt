//! A lane, and lanes side by side.

ghost use Rattle.std.specs.Prelude.{◌≡◌, ◌∷◌, ◌++◌, [], ℕ, ◌+◌, ◌<◌, ◌≤◌, List, Some, length, map, slice_get};
ghost use Rattle.std.specs.Fork.{AcceptsEach, ChangesEach};
ghost use Rattle.acct_base.specs.Ranges.{IsCallInRange};
ghost use Rattle.acct_base.specs.Receipts.{Call};
ghost use Rattle.captures.specs.Lent.{call_of, numbered_call};
ghost use Rattle.hook_engine.specs.Passes.{Called};
ghost use Rattle.lanes.specs.Lanes.{AreCallsInRange};
ghost use Rattle.lanes.specs.Seats.{IsReadyFor, LaneRan, CallMade, IsOf, receipts_of};

use acct_base::LineReceipt;
use captures::{CallLaneList, CallList, LineCall};
use hook_engine::{Engine, Pass};
use outside::Gate;
use shelf::ReceiptRoom;
use std::thread;
use std::thread::Threads;

/// The most lanes that a section of a script has. Each gets a thread of its own, where one can be made.
const MOST_LANES: usize = 16;

/// What a lane has in its thread: its pass, and room for a receipt of each of its calls.
#[derive(Drop)]
pub(crate) struct Seated {
    pub(crate) pass: Pass,
    pub(crate) receipts: ReceiptRoom,
}

// A number as a gate is told it.
fn told(n: usize) -> u32 {
    u32::try_from(n).unwrap_or(u32::MAX)
}

// Makes the call of a line.
fn make_call(engine: &Engine, pass: &mut Pass, call: &LineCall<'_>) -> LineReceipt
    requires from { pass.old.tables ≡ engine.now.tables }
    requires left { 0 < pass.old.has.left }
    requires range { IsCallInRange (call_of call.now) }
    ensures called { Called engine.now.sizes.calls engine.now.sizes pass.old.has (call_of call.now) result pass.new.has }
    ensures from { pass.new.tables ≡ engine.now.tables }
{
    match call {
        LineCall::Hook(call) => LineReceipt::Hook(engine.hook(pass, call)),
        LineCall::Iface(call) => LineReceipt::Iface(engine.iface(pass, call)),
        LineCall::Allow {
            sock_uid,
            cookie,
            received,
        } => LineReceipt::List(engine.allow(pass, *sock_uid, *cookie, *received)),
        LineCall::Deny { sock_uid } => LineReceipt::List(engine.deny(pass, *sock_uid)),
    }
}

// The call at a place of a lane.
fn call_at<'a>(calls: &CallList<'a>, place: usize) -> (u64, LineCall<'a>)
    requires { place < length calls.now }
    ensures { slice_get calls.now place ≡ Some (numbered_call result) }
{
    calls.get(place).unwrap()
}

/// The lane at a place.
pub(crate) fn lane_at<'a>(lanes: &'a CallLaneList<'_>, place: usize) -> CallList<'a>
    requires { place < length lanes.now }
    ensures { slice_get lanes.now place ≡ Some result }
{
    lanes.get(place).unwrap()
}

// Makes the call at a place of a lane, and puts its receipt behind the others.
fn make_next(engine: &Engine, calls: &CallList<'_>, place: usize, seat: &mut Seated)
    requires place { place < length calls.now }
    requires from { IsOf engine.now seat.old }
    requires left { 0 < seat.old.pass.has.left }
    requires room { length (receipts_of seat.old) < seat.old.receipts.room }
    requires range { AreCallsInRange calls.now }
    ensures made { CallMade engine.now calls.now place seat.old seat.new }
{
    let (line, call) = call_at(calls, place);
    let receipt = make_call(engine, &mut seat.pass, &call);
    seat.receipts.push((line, receipt));
}

/// Makes the calls of a lane, in order. The gate is told of each.
pub(crate) fn run_lane<G: Gate>(
    engine: &Engine,
    calls: &CallList<'_>,
    lane: usize,
    gate: &G,
    seat: &mut Seated,
)
    requires ready { IsReadyFor engine.now calls.now seat.old }
    ensures ran { LaneRan engine.now calls.now seat.old seat.new }
{
    for place in 0..calls.len() {
        gate.before(told(lane), told(place));
        make_next(engine, calls, place, seat);
        gate.after(told(lane), told(place));
    }
}

/// Calls `each` on each seat, with its place: side by side, where threads can be made.
pub(crate) fn run_seats<R: Threads + Sync, F: Fn(usize, &mut Seated) + Sync>(
    rt: &R,
    seats: Vec<Seated>,
    each: &F,
) -> Vec<Seated>
    requires accepts { AcceptsEach F.Fn each.now seats.items }
    ensures count { length result.items ≡ length seats.items }
    ensures changes { ChangesEach F.Fn each.now seats.items result.items }
{
    let mut seats = seats;
    thread::for_each_mut(rt, seats.as_mut_slice(), MOST_LANES, each);
    seats
}
