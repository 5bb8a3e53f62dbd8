//! A section: its lanes side by side, beside its desk.

ghost use Rattle.std.specs.Prelude.{◌≡◌, ◌≢◌, ℕ, ◌+◌, ◌<◌, ◌≤◌, List, [], Some, length, slice_get, vec_capacity, IfOk};
ghost use Rattle.std.specs.Fork.{AcceptsEach, ChangesEach};
ghost use Rattle.std.specs.Thread.{IsSync};
ghost use Rattle.captures.specs.Calls.{IsSectionInRange};
ghost use Rattle.acct_base.specs.Receipts.{Call};
ghost use Rattle.captures.specs.Lent.{section_calls};
ghost use Rattle.collector.specs.Collectors.{IsLevel, HasSameSeats, gathered_by};
ghost use Rattle.desk_regs.specs.Desks.{IsLevel as IsLevelDesk, with_journal};
ghost use Rattle.lanes.specs.Between.{MayObey, DidObey, MayRun, DidRun, MayGoOn, DidGoOn};
ghost use Rattle.lanes.specs.Crews.{IsCrewOf, IsReady, progress_of};
ghost use Rattle.lanes.specs.Desks.{collecting};
ghost use Rattle.lanes.specs.Lanes.{calls_made};
ghost use Rattle.lanes.specs.Roomy.{AreRoomsOf};
ghost use Rattle.lanes.specs.Seats.{IsReadyFor, LaneRan};
ghost use Rattle.lanes.specs.Sections.{SectionDone};
ghost use Rattle.lanes.specs.Working.{WentOn};

use crate::crew::Crew;
use crate::desk::{Control, Replies, obey_all};
use crate::lane::{Seated, lane_at, run_lane, run_seats};
use crate::rooms::Rooms;
use crate::seating::{gather, seat_each, seat_one, unseat_one};
use captures::Calls;
use desk_core::{Command, Reply};
use hook_engine::{Engine, Pass};
use outside::Gate;
use shelf::{LaneList, ReceiptList, ReplyList, SectionOut};
use std::alloc::{AllocError, Global};
use std::sync::Wait;
use std::thread;
use std::thread::Threads;

/// What a section did between the crew's meetings.
#[derive(Drop)]
pub(crate) struct Done {
    pub(crate) pass: Pass,
    pub(crate) control: Control,
    pub(crate) lanes: Vec<ReceiptList>,
    pub(crate) replies: Replies,
}

// Calls `each` on each seat, and carries the lines of the desk out beside that.
fn run_apart<R: Threads + Wait + Sync, F: Fn(usize, &mut Seated) + Sync>(
    rt: &R,
    alloc: Global,
    engine: &Engine,
    seats: Vec<Seated>,
    each: &F,
    control: Control,
    lines: &[(u64, Command)],
    replies: Vec<(u64, Reply)>,
) -> (Vec<Seated>, (Control, Replies))
    requires accepts { AcceptsEach F.Fn each.now seats.items }
    requires may { MayObey engine.now lines.now control replies }
    ensures count { length result.0.items ≡ length seats.items }
    ensures changes { ChangesEach F.Fn each.now seats.items result.0.items }
    ensures obeyed { DidObey engine.now lines.now control result.1.0 result.1.1 }
{
    thread::join(
        rt,
        move || -> Vec<Seated>
            requires { IsSync R.row × IsSync F.row × AcceptsEach F.Fn each.now seats.items }
            ensures { (length result.items ≡ length seats.items) × ChangesEach F.Fn each.entry.now seats.items result.items }
        { run_seats(rt, seats, each) },
        move || -> (Control, Replies)
            requires { IsSync R.row × MayObey engine.now lines.now control replies }
            ensures { DidObey engine.entry.now lines.entry.now control result.0 result.1 }
        { obey_all(rt, alloc, engine, control, lines, replies) },
    )
}

// Calls `each` on each seat, beside the desk. Without a desk line no thread is made for one.
fn run_sides<R: Threads + Wait + Sync, F: Fn(usize, &mut Seated) + Sync>(
    rt: &R,
    alloc: Global,
    engine: &Engine,
    seats: Vec<Seated>,
    each: &F,
    control: Control,
    lines: &[(u64, Command)],
    replies: Vec<(u64, Reply)>,
) -> (Vec<Seated>, (Control, Replies))
    requires accepts { AcceptsEach F.Fn each.now seats.items }
    requires may { MayObey engine.now lines.now control replies }
    ensures count { length result.0.items ≡ length seats.items }
    ensures changes { ChangesEach F.Fn each.now seats.items result.0.items }
    ensures obeyed { DidObey engine.now lines.now control result.1.0 result.1.1 }
{
    if lines.is_empty() {
        let seats = run_seats(rt, seats, each);
        let done = obey_all(rt, alloc, engine, control, lines, replies);
        (seats, done)
    } else {
        run_apart(rt, alloc, engine, seats, each, control, lines, replies)
    }
}

// The lines of a section's desk.
fn desk_lines<'a>(calls: &Calls<'a>) -> &'a [(u64, Command)]
    ensures { result.now ≡ (section_calls calls.now).desk }
{
    match calls.desk {
        None => &[],
        Some(lines) => lines.as_slice(),
    }
}

// Runs the lanes on their seats, beside the desk. One lane with no desk line beside it runs where it stands.
fn run_beside<R: Threads + Wait + Sync, G: Gate>(
    rt: &R,
    alloc: Global,
    engine: &Engine,
    calls: &Calls<'_>,
    gate: &G,
    seats: Vec<Seated>,
    control: Control,
    replies: Vec<(u64, Reply)>,
) -> (Vec<Seated>, (Control, Replies))
    requires may { MayRun engine.now (section_calls calls.now) seats.items control }
    requires replies { (replies.items ≡ []) × (length (section_calls calls.now).desk ≤ vec_capacity replies) }
    ensures did { DidRun engine.now (section_calls calls.now) seats.items control result.0.items result.1.0 result.1.1 }
{
    let lines = desk_lines(calls);
    let lanes = &calls.lanes;
    let each = |place: usize, seat: &mut Seated|
        requires { (place < length lanes.now) × ((lane : List (ℕ × Call)) → slice_get lanes.now place ≡ Some lane → IsReadyFor engine.now lane seat.now) }
        ensures { (lane : List (ℕ × Call)) → slice_get lanes.entry.now place ≡ Some lane → LaneRan engine.entry.now lane seat.entry.now seat.exit.now }
    { run_lane(engine, &lane_at(lanes, place), place, gate, seat) };
    run_sides(rt, alloc, engine, seats, &each, control, lines, replies)
}

// A section with one lane, which has the whole pass.
fn run_one<R: Threads + Wait + Sync, G: Gate>(
    rt: &R,
    alloc: Global,
    engine: &Engine,
    pass: Pass,
    control: Control,
    calls: &Calls<'_>,
    gate: &G,
    rooms: Rooms,
) -> Done
    requires may { MayGoOn engine.now pass control (section_calls calls.now) }
    requires rooms { AreRoomsOf (section_calls calls.now) rooms }
    requires one { length calls.now.lanes ≡ 1 }
    ensures did { DidGoOn engine.now pass control (section_calls calls.now) result }
{
    let Rooms {
        receipts,
        seats,
        lanes,
        replies,
    } = rooms;
    let seats = seat_one(pass, receipts, seats);
    let (seats, (control, replies)) = run_beside(
        rt, alloc, engine, calls, gate, seats, control, replies,
    );
    let (pass, lanes) = unseat_one(seats, lanes);
    Done {
        pass,
        control,
        lanes,
        replies,
    }
}

// A section with no lane or several, among which the pass is divided.
fn run_several<R: Threads + Wait + Sync, G: Gate>(
    rt: &R,
    alloc: Global,
    engine: &Engine,
    pass: Pass,
    control: Control,
    calls: &Calls<'_>,
    gate: &G,
    rooms: Rooms,
) -> Done
    requires may { MayGoOn engine.now pass control (section_calls calls.now) }
    requires rooms { AreRoomsOf (section_calls calls.now) rooms }
    requires several { length calls.now.lanes ≢ 1 }
    ensures did { DidGoOn engine.now pass control (section_calls calls.now) result }
{
    let Rooms {
        receipts,
        seats,
        lanes,
        replies,
    } = rooms;
    let mut pass = pass;
    let seats = seat_each(engine, &mut pass, &calls.lanes, receipts, seats);
    let (seats, (control, replies)) = run_beside(
        rt, alloc, engine, calls, gate, seats, control, replies,
    );
    let lanes = gather(engine, &mut pass, seats, lanes);
    Done {
        pass,
        control,
        lanes,
        replies,
    }
}

// A section between the crew's meetings.
fn run_lines<R: Threads + Wait + Sync, G: Gate>(
    rt: &R,
    alloc: Global,
    engine: &Engine,
    pass: Pass,
    control: Control,
    calls: &Calls<'_>,
    gate: &G,
    rooms: Rooms,
) -> Done
    requires may { MayGoOn engine.now pass control (section_calls calls.now) }
    requires rooms { AreRoomsOf (section_calls calls.now) rooms }
    ensures did { DidGoOn engine.now pass control (section_calls calls.now) result }
{
    if calls.lanes.len() == 1 {
        run_one(rt, alloc, engine, pass, control, calls, gate, rooms)
    } else {
        run_several(rt, alloc, engine, pass, control, calls, gate, rooms)
    }
}

// A section between its crew's meetings.
fn run_between<R: Threads + Wait + Sync, G: Gate>(
    rt: &R,
    alloc: Global,
    engine: &Engine,
    crew: Crew,
    calls: &Calls<'_>,
    gate: &G,
    rooms: Rooms,
) -> (Crew, Result<SectionOut, AllocError>)
    requires of { IsCrewOf engine.now crew }
    requires desk { IsLevelDesk crew.desk }
    requires collector { IsLevel (gathered_by crew.collector) }
    requires range { IsSectionInRange (section_calls calls.now) }
    requires calls { calls_made calls.now.lanes ≤ crew.pass.has.left }
    requires phases { crew.collector.seat.phase + length (collecting (section_calls calls.now).desk) ≤ 1024 }
    requires rooms { AreRoomsOf (section_calls calls.now) rooms }
    requires limits { crew.desk.book.limits ≡ engine.now.sizes.regs }
    ensures of { IsCrewOf engine.now result.0 }
    ensures desk { IsLevelDesk result.0.desk × (result.0.desk ≡ with_journal result.0.desk.book.journal crew.desk) }
    ensures collector { IsLevel (gathered_by result.0.collector) × HasSameSeats crew.collector result.0.collector }
    ensures calls { result.0.pass.has.left + result.0.pass.has.made ≡ crew.pass.has.left + crew.pass.has.made }
    ensures ok { IfOk result.1 (λ out. WentOn engine.now.sizes.calls crew.desk.book.privileged engine.now.sizes (progress_of crew) (section_calls calls.now) (progress_of result.0) out) }
{
    let Crew {
        pass,
        desk,
        collector,
    } = crew;
    let control = Control { desk, collector };
    let Done {
        pass,
        control,
        lanes,
        replies,
    } = run_lines(rt, alloc, engine, pass, control, calls, gate, rooms);
    let Control { desk, collector } = control;
    let crew = Crew {
        pass,
        desk,
        collector,
    };
    match replies {
        Ok(replies) => {
            let out = SectionOut {
                lanes: LaneList::from_vec(lanes),
                replies: ReplyList::from_vec(replies),
            };
            (crew, Ok(out))
        }
        Err(failed) => (crew, Err(failed)),
    }
}

/// Runs a section: each lane makes its calls on a pass of its own, in a thread where one can be made, beside
/// the desk, which carries its commands out. The gate is told of each call. The crew meets before and after, so
/// all of it knows what earlier sections did, and later sections know what this one did.
///
/// It may wait, and its return is not promised. Where memory is wanting the section may be done in part; the
/// crew is ready for another one in any case.
pub fn run_section<R: Threads + Wait + Sync, G: Gate>(
    rt: &R,
    alloc: Global,
    engine: &Engine,
    crew: Crew,
    calls: &Calls<'_>,
    gate: &G,
) -> (Crew, Result<SectionOut, AllocError>)
    requires crew { IsReady engine.now crew }
    requires range { IsSectionInRange (section_calls calls.now) }
    requires calls { calls_made calls.now.lanes ≤ crew.pass.has.left }
    requires phases { crew.collector.seat.phase + length (collecting (section_calls calls.now).desk) ≤ 1024 }
    ensures crew { IsReady engine.now result.0 }
    ensures ok { IfOk result.1 (λ out. SectionDone engine.now.sizes.calls crew.desk.book.privileged engine.now.sizes (progress_of crew) (section_calls calls.now) (progress_of result.0) out) }
    ensures desk { result.0.desk ≡ with_journal result.0.desk.book.journal crew.desk }
    ensures collector { HasSameSeats crew.collector result.0.collector }
{
    let rooms = match Rooms::take(alloc, calls) {
        Ok(rooms) => rooms,
        Err(failed) => return (crew, Err(failed)),
    };
    let mut crew = crew;
    crew.meet(engine);
    let (mut crew, out) = run_between(rt, alloc, engine, crew, calls, gate, rooms);
    crew.meet(engine);
    (crew, out)
}
