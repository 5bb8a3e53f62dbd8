//! Collections and deletions in order. Deletions beside hooks on other threads are tested by the tests of the program.

ghost use Rattle.std.specs.Prelude.{◌≡◌, ◌<◌, ◌≤◌, ◌^◌, None, IfOk};
ghost use Rattle.desk_regs.specs.Desks.{IsLevel as IsLevelDesk};
ghost use Rattle.collector.specs.Collectors.{IsLevel, gathered_by};

use crate::{CollectError, Collector, collect, delete_tag_data};
use acct_base::{Amount, Dir, Label, RegSizes};
use desk_core::{Book, Command, Reply};
use desk_regs::Desk;
use grace_rows::{Grace, HookSeat, Paired};
use reg_words::Regs;
use shelf::Shelf;
use std::alloc::{AllocError, Global};
use std::sync::Wait;
use std::test::Fail;
use total_rows::{TotalSeat, Totals};

const UID: u32 = 10050;

const SIZES: RegSizes = RegSizes {
    cookies: 4,
    sets: 4,
    owners: 4,
    writes: 8,
};

// Registers, and a desk on an empty book.
fn open_desk(alloc: Global) -> Result<(Regs, Desk), AllocError>
    ensures { IfOk result (λ t. IsLevelDesk t.1 × (t.1.writer.origin ≡ t.0)) }
{
    let (regs, writer, _) = Regs::new(alloc, &SIZES)?;
    let book = Book::new(alloc, &[], &SIZES)?;
    Ok((regs, Desk::new(writer, book)))
}

// Charges a packet of the uid under its tag, where it has one, and without it.
fn charge(paired: &Paired, hook: &mut HookSeat, tag: u32)
    requires from { (hook.old.table ≡ paired.now.table) × (hook.old.entry ≡ None) }
    ensures from { (hook.new.table ≡ paired.now.table) × (hook.new.entry ≡ None) }
{
    if hook.left() == 0 {
        return;
    }
    let mut label = Label {
        uid: UID,
        tag,
        set: 1,
        iface: 2,
    };
    let mut entry = paired.enter(hook);
    paired.charge(hook, &mut entry, label, Dir::Ingress, 1, 60);
    if tag != 0 {
        label.tag = 0;
        paired.charge(hook, &mut entry, label, Dir::Ingress, 1, 60);
    }
    paired.exit(hook, entry);
}

// Of a phase on the shelf: how many rows its snapshot and its deletion have, and what that records.
fn rows_at(shelf: &Shelf, phase: u32) -> Option<(usize, usize, Option<Amount>)> {
    let snapshot = shelf.snapshot(phase)?;
    let deletion = shelf.deletion(phase)?;
    Some((snapshot.rows.len(), deletion.rows.len(), deletion.app))
}

// The parts of an engine that a deletion goes to.
#[derive(Drop)]
struct Parts {
    regs: Regs,
    paired: Paired,
    apps: Totals,
}

// Deletes the uid under a tag.
fn delete<R: Wait>(
    rt: &R,
    alloc: Global,
    parts: &Parts,
    collector: Collector,
    desk: &mut Desk,
    caller: u32,
    tag: u32,
) -> (Collector, Result<Reply, CollectError>)
    requires maps { (collector.seat.table ≡ parts.now.paired.table) × (collector.apps.table ≡ parts.now.apps.table) }
    requires regs { desk.old.writer.origin ≡ parts.now.regs }
    requires level { IsLevel (gathered_by collector) × IsLevelDesk desk.old }
    requires caller { caller < 4294967295 }
    ensures maps { (result.0.seat.table ≡ parts.now.paired.table) × (result.0.apps.table ≡ parts.now.apps.table) }
    ensures regs { desk.new.writer.origin ≡ parts.now.regs }
    ensures level { IsLevel (gathered_by result.0) × IsLevelDesk desk.new }
{
    delete_tag_data(
        rt,
        alloc,
        collector,
        desk,
        &parts.regs,
        &parts.paired,
        &parts.apps,
        caller,
        UID,
        tag,
    )
}

// A desk, a collector and the parts that they go to, with the seats of a hook that has so many calls.
fn open(
    alloc: Global,
    calls: u64,
) -> Result<(Parts, Desk, Collector, HookSeat, TotalSeat), AllocError>
    requires { (1 ≤ calls) × (calls ≤ 2 ^ 28) }
    ensures maps { IfOk result (λ t. (t.2.seat.table ≡ t.0.paired.table) × (t.2.apps.table ≡ t.0.apps.table)) }
    ensures regs { IfOk result (λ t. t.1.writer.origin ≡ t.0.regs) }
    ensures level { IfOk result (λ t. IsLevel (gathered_by t.2) × IsLevelDesk t.1) }
    ensures hook { IfOk result (λ t. (t.3.table ≡ t.0.paired.table) × (t.3.entry ≡ None) × (t.4.table ≡ t.0.apps.table)) }
{
    let (paired, hook, seat) = Paired::new(alloc, 4, calls)?;
    let (apps, mut adder) = Totals::new(alloc, 4, calls)?;
    let collector = Collector::new(alloc, seat, apps.split(&mut adder, 0));
    let (regs, desk) = open_desk(alloc)?;
    let parts = Parts { regs, paired, apps };
    Ok((parts, desk, collector, hook, adder))
}

// Tags a socket of the uid, and counts a packet of it.
fn count_tagged(
    alloc: Global,
    parts: &Parts,
    desk: &mut Desk,
    hook: &mut HookSeat,
    adder: &mut TotalSeat,
) -> Result<Reply, AllocError>
    requires desk { IsLevelDesk desk.old × (desk.old.writer.origin ≡ parts.now.regs) }
    requires hook { (hook.old.table ≡ parts.now.paired.table) × (hook.old.entry ≡ None) }
    requires adder { adder.old.table ≡ parts.now.apps.table }
    ensures desk { IsLevelDesk desk.new × (desk.new.writer.origin ≡ parts.now.regs) }
{
    let tag = Command::Tag {
        caller: 1000,
        cookie: 77,
        uid: UID,
        tag: 7,
    };
    charge(&parts.paired, hook, 7);
    if adder.left() > 0 {
        parts.apps.add(adder, UID, Dir::Ingress, 1, 60);
    }
    desk.command(alloc, &parts.regs, &tag)
}

/// What four deletions in turn were answered.
type Answers = [Result<Reply, CollectError>; 4];

// Deletes the uid under its tag, twice without a tag, and once for a caller who may not.
fn delete_in_turn<R: Wait>(
    rt: &R,
    alloc: Global,
    parts: &Parts,
    collector: Collector,
    desk: &mut Desk,
) -> (Collector, Answers)
    requires maps { (collector.seat.table ≡ parts.now.paired.table) × (collector.apps.table ≡ parts.now.apps.table) }
    requires regs { desk.old.writer.origin ≡ parts.now.regs }
    requires level { IsLevel (gathered_by collector) × IsLevelDesk desk.old }
{
    let (collector, first) = delete(rt, alloc, parts, collector, desk, 1000, 7);
    let (collector, second) = delete(rt, alloc, parts, collector, desk, 1000, 0);
    let (collector, third) = delete(rt, alloc, parts, collector, desk, 1000, 0);
    let (collector, perm) = delete(rt, alloc, parts, collector, desk, UID, 0);
    (collector, [first, second, third, perm])
}

// The same once a packet was counted under the tag: what the deletions were answered, and what the shelf has then.
fn delete_counted<R: Wait>(rt: &R, alloc: Global) -> Result<(Answers, Shelf), AllocError> {
    let (parts, mut desk, collector, mut hook, mut adder) = open(alloc, 4)?;
    count_tagged(alloc, &parts, &mut desk, &mut hook, &mut adder)?;
    let (collector, answers) = delete_in_turn(rt, alloc, &parts, collector, &mut desk);
    let (_, _, shelf) = collector.into_parts();
    Ok((answers, shelf))
}

#[test]
fn deletions_take_rows_and_record_apps(rt: HostRuntime) -> Result<(), Fail> {
    let (answers, shelf) = delete_counted(&rt, rt.alloc())?;
    let done = Ok(Reply::Done);
    assert_eq!(rt; answers, [done, done, done, Ok(Reply::Perm)]);
    let one = Some(Amount::counted(Dir::Ingress, 1, 60));
    let none = Some(Amount::zero());
    assert_eq!(rt; shelf.len(), 3);
    assert_eq!(rt; rows_at(&shelf, 0), Some((1, 1, None)));
    assert_eq!(rt; rows_at(&shelf, 1), Some((0, 0, one)));
    assert_eq!(rt; rows_at(&shelf, 2), Some((0, 0, none)));
    Ok(())
}

// Collects so many times, and says whether each time a phase ended.
fn collect_often<R: Wait>(
    rt: &R,
    alloc: Global,
    mut collector: Collector,
    paired: &Paired,
    apps: &Totals,
    times: u32,
) -> (Collector, bool)
    requires from { (collector.seat.table ≡ paired.now.table) × (collector.apps.table ≡ apps.now.table) }
    requires level { IsLevel (gathered_by collector) }
    ensures from { (result.0.seat.table ≡ paired.now.table) × (result.0.apps.table ≡ apps.now.table) }
    ensures level { IsLevel (gathered_by result.0) }
{
    let mut all = true;
    for phase in 0..times {
        let (next, ended) = collect(rt, alloc, collector, paired, apps);
        collector = next;
        all = all && ended == Ok(phase);
    }
    (collector, all)
}

// Collects 1,024 times, and begins once more: whether all phases ended, and what the last beginning was answered, with
// the phase and the number of collections at the collector that came back.
fn begin_too_often<R: Wait>(
    rt: &R,
    alloc: Global,
) -> Result<(bool, Option<(CollectError, u32, u32)>), AllocError> {
    let (paired, _, seat) = Paired::new(alloc, 1, 1)?;
    let (apps, watcher) = Totals::new(alloc, 1, 1)?;
    let collector = Collector::new(alloc, seat, watcher);
    let (collector, all) = collect_often(rt, alloc, collector, &paired, &apps, 1024);
    match collector.begin(alloc, &paired) {
        Ok(_begun) => Ok((all, None)),
        Err((collector, error)) => {
            let phase = collector.phase();
            Ok((all, Some((error, phase, collector.shelf().len()))))
        }
    }
}

#[test]
fn the_last_phase_does_not_end(rt: HostRuntime) -> Result<(), Fail> {
    let (all, refused) = begin_too_often(&rt, rt.alloc())?;
    assert!(rt; all);
    let spent = CollectError::PhasesSpent { phase: 1024 };
    assert_eq!(rt; refused, Some((spent, 1024, 1024)));
    Ok(())
}

// Begins a collection while a call is inside: what a poll says then and once the call left, and the phases of the
// collector and of a hook that met it. None where the collection did not begin.
fn collect_around_a_call(alloc: Global) -> Result<Option<(Grace, Grace, u32, u32)>, AllocError> {
    let (paired, mut hook, seat) = Paired::new(alloc, 2, 2)?;
    let (apps, watcher) = Totals::new(alloc, 1, 1)?;
    let collector = Collector::new(alloc, seat, watcher);
    let entry = paired.enter(&mut hook);
    match collector.begin(alloc, &paired) {
        Err(_) => {
            paired.exit(&mut hook, entry);
            Ok(None)
        }
        Ok(mut it) => {
            let inside = it.poll(&paired);
            paired.exit(&mut hook, entry);
            if inside != Grace::Inside(1) {
                return Ok(None);
            }
            let left = it.poll(&paired);
            if left != Grace::Clear {
                return Ok(None);
            }
            let mut collector = it.finish(&paired, &apps, None);
            paired.meet(&mut hook, collector.seat());
            Ok(Some((inside, left, collector.phase(), hook.phase())))
        }
    }
}

#[test]
fn a_collection_waits_for_the_call_inside(rt: HostRuntime) -> Result<(), Fail> {
    let polls = collect_around_a_call(rt.alloc())?;
    assert_eq!(rt; polls, Some((Grace::Inside(1), Grace::Clear, 1, 1)));
    Ok(())
}

// Takes what may go to another thread, and nothing else.
fn goes_to_threads<T: Send>(_value: &T) {}

#[test]
fn collectors_go_to_threads(rt: HostRuntime) -> Result<(), Fail> {
    let alloc = rt.alloc();
    let (paired, _, seat) = Paired::new(alloc, 1, 1)?;
    let (_, watcher) = Totals::new(alloc, 1, 1)?;
    let collector = Collector::new(alloc, seat, watcher);
    goes_to_threads(&collector);
    match collector.begin(alloc, &paired) {
        Err(_) => assert!(rt; false),
        Ok(it) => goes_to_threads(&it),
    }
    Ok(())
}
