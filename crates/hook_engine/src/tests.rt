//! The calls in order. Passes on threads, beside a desk and a collector, are tested where there are threads: by the tests
//! of the program.

ghost use Rattle.std.specs.Prelude.{◌≡◌, ◌≤◌, ◌<◌, ◌+◌, length, IfOk};
ghost use Rattle.acct_base.specs.Ranges.{AreSizes};
ghost use Rattle.hook_engine.specs.Ends.{room_for};
ghost use Rattle.hook_engine.specs.Tables.{AreSeatsOf};

use crate::{CloseRoom, DeskSeats, Engine, EngineRest, NoTally, Pass, SeatsOut, Tally};
use acct_base::{
    Amount, DOZABLE, Dir, Family, HookIn, IfaceIn, IfaceReceipt, Key, Label, ListReceipt, Mark,
    OwnerEntry, Receipt, RegSizes, Row, STANDBY, Seen, Sizes, TagEntry, Uid, Verdict,
};
use reg_words::{Regs, Writer};
use std::alloc::{AllocError, Global};
use std::test::Fail;

/// The usual sizes, and ten calls.
const USUAL: Sizes = Sizes {
    rows: 5_000,
    regs: RegSizes {
        cookies: 10_000,
        sets: 2_000,
        owners: 2_000,
        writes: 262_144,
    },
    apps: 10_000,
    ifaces: 1_000,
    calls: 10,
};

/// Sizes for a few packets.
const SMALL: Sizes = Sizes {
    rows: 64,
    regs: RegSizes {
        cookies: 8,
        sets: 8,
        owners: 8,
        writes: 64,
    },
    apps: 8,
    ifaces: 8,
    calls: 2_000,
};

const NOTHING: Seen = Seen {
    version: 0,
    value: None,
};

// An engine of these sizes, with its pass and the desk's seats.
fn open(alloc: Global, sizes: &Sizes) -> Result<(Engine, Pass, DeskSeats), AllocError>
    requires { AreSizes sizes.now }
    ensures sizes { IfOk result (λ t. t.0.sizes ≡ sizes.now) }
    ensures pass { IfOk result (λ t. (t.1.tables ≡ t.0.tables) × (t.1.has.left ≡ sizes.now.calls)) }
    ensures seats { IfOk result (λ t. AreSeatsOf t.0.tables t.2.writer t.2.collect t.2.apps) }
{
    Engine::new(alloc, sizes)
}

// What is left of an engine of these sizes, where the pass has all calls.
fn close(
    alloc: Global,
    engine: Engine,
    pass: Pass,
    seats: DeskSeats,
    sizes: &Sizes,
) -> Result<Option<EngineRest>, AllocError>
    requires sizes { engine.sizes ≡ sizes.now }
    requires pass { pass.tables ≡ engine.tables }
    requires seats { AreSeatsOf engine.tables seats.writer seats.collect seats.apps }
{
    let room = CloseRoom::new(alloc, sizes)?;
    Ok(engine.close(pass, seats, room).ok())
}

// A packet of a socket without bytes of its head, on interface 2, at a hook.
fn send(engine: &Engine, pass: &mut Pass, dir: Dir, sock_uid: Uid, cookie: u64, len: u32) -> Receipt
    requires from { pass.old.tables ≡ engine.now.tables }
    requires left { 0 < pass.old.has.left }
    requires range { (sock_uid < 4294967295) × (1 ≤ len) × (len ≤ 262144) }
    ensures from { pass.new.tables ≡ pass.old.tables }
    ensures left { pass.old.has.left ≡ pass.new.has.left + 1 }
{
    let call = HookIn {
        dir,
        sock_uid,
        cookie,
        iface: 2,
        family: Family::V4,
        len,
        head: &[],
    };
    engine.hook(pass, &call)
}

/// How much is left of an engine: the live phase, and the lengths of the lists.
type Lengths = (u32, usize, usize, usize, usize);

// The live phase, and how many rows, writes and totals are left.
fn lengths(rest: &EngineRest) -> Lengths {
    (
        rest.live.phase,
        rest.live.rows.len(),
        rest.journal.len(),
        rest.apps.len(),
        rest.ifaces.len(),
    )
}

// Joins the pass that was missing to the one that came back, and closes the engine with it.
fn close_joined(out: SeatsOut, other: Pass) -> Option<Lengths>
    requires pass { (out.pass.tables ≡ out.engine.tables) × (other.tables ≡ out.engine.tables) }
    requires seats { AreSeatsOf out.engine.tables out.seats.writer out.seats.collect out.seats.apps }
    requires room { out.room ≡ room_for out.engine.sizes }
{
    let SeatsOut {
        engine,
        mut pass,
        seats,
        room,
        ..
    } = out;
    engine.join(&mut pass, other);
    let rest = engine.close(pass, seats, room).ok()?;
    Some(lengths(&rest))
}

// Closes an engine whose pass lacks three calls, and then with them. Gives what was missing, what the pass had and
// had made, and what is left. None where the engine was closed at once.
fn close_twice(alloc: Global) -> Result<Option<(u64, u64, u64, Option<Lengths>)>, AllocError> {
    let room = CloseRoom::new(alloc, &USUAL)?;
    let (engine, mut pass, seats) = open(alloc, &USUAL)?;
    let other = engine.split(&mut pass, 3);
    match engine.close(pass, seats, room) {
        Ok(_) => Ok(None),
        Err(out) => {
            let (missing, left, made) = (out.missing, out.pass.left(), out.pass.made());
            Ok(Some((missing, left, made, close_joined(out, other))))
        }
    }
}

#[test]
fn a_pass_that_lacks_calls_closes_nothing(rt: HostRuntime) -> Result<(), Fail> {
    let closed = close_twice(rt.alloc())?;
    assert_eq!(rt; closed, Some((3, 7, 0, Some((0, 0, 0, 0, 0)))));
    Ok(())
}

// Three writes: a socket's tag, the doze chain, and a uid that it allows.
fn tag_and_doze(regs: &Regs, writer: &mut Writer)
    requires { writer.old.origin ≡ regs.now }
    ensures origin { writer.new.origin ≡ regs.now }
    ensures published { writer.new.front ≡ length writer.new.journal }
{
    let tag = TagEntry { uid: 10060, tag: 7 };
    let owner = OwnerEntry {
        iface: 0,
        rule: DOZABLE,
    };
    let _ = regs.write(writer, Key::Cookie(77), Some(tag.word()));
    let _ = regs.write(writer, Key::Enabled, Some(u64::from(DOZABLE)));
    let _ = regs.write(writer, Key::Owner(10050), Some(owner.word()));
    regs.publish(writer);
}

const TAGGED: Label = Label {
    uid: 10060,
    tag: 7,
    set: 0,
    iface: 2,
};

const PLAIN: Label = Label { tag: 0, ..TAGGED };

/// A packet of the tagged socket: it is judged by the socket's uid, and counted by the tag's.
const OF_THE_TAG: Receipt = Receipt {
    front: 3,
    tag_read: Seen {
        version: 1,
        value: Some(10060 * 4294967296 + 7),
    },
    rules_read: Some(Seen {
        version: 2,
        value: Some(4),
    }),
    owner_read: Some(Seen {
        version: 3,
        value: Some(4),
    }),
    set_read: Some(NOTHING),
    phase: Some(0),
    label: Some(TAGGED),
    verdict: Verdict::Pass,
    landed_tag: Some(Mark::Landed),
    landed_plain: Some(Mark::Landed),
    landed_app: Some(Mark::Landed),
};

/// A packet of the tag's uid, which doze drops: it is counted, since it was received.
const OF_THE_UID: Receipt = Receipt {
    tag_read: NOTHING,
    owner_read: Some(NOTHING),
    label: Some(PLAIN),
    verdict: Verdict::Drop,
    landed_tag: None,
    ..OF_THE_TAG
};

// Tags and dozes, and sends a packet of the tagged socket and one of the tag's uid.
fn send_both(engine: &Engine, pass: &mut Pass, writer: &mut Writer) -> (Receipt, Receipt)
    requires from { (pass.old.tables ≡ engine.now.tables) × (writer.old.origin ≡ engine.now.tables.regs) }
    requires left { 1 < pass.old.has.left }
    ensures from { (pass.new.tables ≡ pass.old.tables) × (writer.new.origin ≡ writer.old.origin) }
{
    tag_and_doze(engine.regs(), writer);
    let tagged = send(engine, pass, Dir::Ingress, 10050, 77, 100);
    (tagged, send(engine, pass, Dir::Ingress, 10060, 0, 100))
}

// Whether both packets stand in their rows and in the app's total.
fn counts_both(rest: &EngineRest) -> bool {
    let rows = [
        Row {
            label: PLAIN,
            amount: Amount::counted(Dir::Ingress, 2, 200),
        },
        Row {
            label: TAGGED,
            amount: Amount::counted(Dir::Ingress, 1, 100),
        },
    ];
    let apps = [(10060, Amount::counted(Dir::Ingress, 2, 200))];
    rest.live.rows.as_slice() == rows.as_slice() && rest.apps.as_slice() == apps.as_slice()
}

// The receipts of both packets, and what is left of their engine.
fn both(alloc: Global) -> Result<(Receipt, Receipt, Option<EngineRest>), AllocError> {
    let (engine, mut pass, mut seats) = open(alloc, &SMALL)?;
    let (tagged, dropped) = send_both(&engine, &mut pass, &mut seats.writer);
    let rest = close(alloc, engine, pass, seats, &SMALL)?;
    Ok((tagged, dropped, rest))
}

#[test]
fn the_match_is_by_the_socket_and_the_charge_by_the_tag(rt: HostRuntime) -> Result<(), Fail> {
    let (tagged, dropped, rest) = both(rt.alloc())?;
    assert_eq!(rt; (tagged, dropped), (OF_THE_TAG, OF_THE_UID));
    let rest = rest.ok_or("a pass with all calls")?;
    assert!(rt; counts_both(&rest));
    assert_eq!(rt; lengths(&rest), (0, 2, 3, 1, 0));
    Ok(())
}

// The standby chain is on, and denies a uid.
fn stand_by(regs: &Regs, writer: &mut Writer)
    requires { writer.old.origin ≡ regs.now }
    ensures { writer.new.origin ≡ regs.now }
{
    let owner = OwnerEntry {
        iface: 0,
        rule: STANDBY,
    };
    let _ = regs.write(writer, Key::Enabled, Some(u64::from(STANDBY)));
    let _ = regs.write(writer, Key::Owner(10050), Some(owner.word()));
    regs.publish(writer);
}

// Stands by, and sends and receives a packet of the denied uid.
fn send_both_ways(engine: &Engine, pass: &mut Pass, writer: &mut Writer) -> (Receipt, Receipt)
    requires from { (pass.old.tables ≡ engine.now.tables) × (writer.old.origin ≡ engine.now.tables.regs) }
    requires left { 1 < pass.old.has.left }
{
    stand_by(engine.regs(), writer);
    let sent = send(engine, pass, Dir::Egress, 10050, 0, 60);
    (sent, send(engine, pass, Dir::Ingress, 10050, 0, 60))
}

// How a packet fared, and in which phase it was counted, if it was.
fn fared(receipt: &Receipt) -> (Verdict, Option<u32>) {
    (receipt.verdict, receipt.phase)
}

// How both packets fared.
fn fared_both_ways(alloc: Global) -> Result<[(Verdict, Option<u32>); 2], AllocError> {
    let (engine, mut pass, mut seats) = open(alloc, &SMALL)?;
    let (sent, received) = send_both_ways(&engine, &mut pass, &mut seats.writer);
    Ok([fared(&sent), fared(&received)])
}

#[test]
fn a_dropped_packet_is_counted_where_it_was_received(rt: HostRuntime) -> Result<(), Fail> {
    let fared = fared_both_ways(rt.alloc())?;
    assert_eq!(rt; fared, [(Verdict::Drop, None), (Verdict::Drop, Some(0))]);
    Ok(())
}

// The clat daemon's packet, sent or received, at an interface program.
fn pass_by(engine: &Engine, pass: &mut Pass, dir: Dir) -> IfaceReceipt
    requires from { pass.old.tables ≡ engine.now.tables }
    requires left { 0 < pass.old.has.left }
    ensures from { pass.new.tables ≡ pass.old.tables }
    ensures left { pass.old.has.left ≡ pass.new.has.left + 1 }
{
    let call = IfaceIn {
        dir,
        sock_uid: 1029,
        iface: 2,
        family: Family::V4,
        len: 60,
    };
    engine.iface(pass, &call)
}

// The daemon's packet at a hook, and two at an interface program, with what is left of their engine.
fn clat(
    alloc: Global,
) -> Result<(Receipt, IfaceReceipt, IfaceReceipt, Option<EngineRest>), AllocError> {
    let (engine, mut pass, seats) = open(alloc, &SMALL)?;
    let hooked = send(&engine, &mut pass, Dir::Ingress, 1029, 0, 60);
    let sent = pass_by(&engine, &mut pass, Dir::Egress);
    let received = pass_by(&engine, &mut pass, Dir::Ingress);
    let rest = close(alloc, engine, pass, seats, &SMALL)?;
    Ok((hooked, sent, received, rest))
}

#[test]
fn the_clat_daemon_is_counted_by_interface_alone(rt: HostRuntime) -> Result<(), Fail> {
    let (hooked, sent, received, rest) = clat(rt.alloc())?;
    assert_eq!(rt; fared(&hooked), (Verdict::Pass, None));
    assert_eq!(rt; (sent.matched, sent.landed), (false, None));
    assert_eq!(rt;
        (received.matched, received.landed),
        (true, Some(Mark::Landed))
    );
    let rest = rest.ok_or("a pass with all calls")?;
    let ifaces = [(2, Amount::counted(Dir::Ingress, 1, 60))];
    assert_eq!(rt; rest.ifaces.as_slice(), ifaces.as_slice());
    assert_eq!(rt; lengths(&rest), (0, 0, 0, 0, 1));
    Ok(())
}

/// An answer that looked up no owner.
const UNSEEN: ListReceipt = ListReceipt {
    front: 3,
    owner_read: None,
    matched: true,
};

/// An answer that found the owner whom doze allows.
const SEEN: ListReceipt = ListReceipt {
    front: 3,
    owner_read: Some(Seen {
        version: 3,
        value: Some(4),
    }),
    matched: false,
};

// What the allow list says of the system, of a socket of nobody's that receives, and of an app, and what the deny
// list says of the app; and then the pass's calls, and those that it made.
fn asked(alloc: Global) -> Result<([ListReceipt; 4], u64, u64), AllocError> {
    let (engine, mut pass, mut seats) = open(alloc, &SMALL)?;
    tag_and_doze(engine.regs(), &mut seats.writer);
    let system = engine.allow(&mut pass, 9999, 1, false);
    let nobody = engine.allow(&mut pass, 65534, 0, true);
    let app = engine.allow(&mut pass, 10050, 0, true);
    let denied = engine.deny(&mut pass, 10050);
    Ok(([system, nobody, app, denied], pass.left(), pass.made()))
}

#[test]
fn the_lists_spend_no_call(rt: HostRuntime) -> Result<(), Fail> {
    let asked = asked(rt.alloc())?;
    assert_eq!(rt; asked, ([UNSEEN, UNSEEN, SEEN, SEEN], 2_000, 0));
    Ok(())
}

// How many writes a pass has seen before it meets the desk and then, and its phase then.
fn seen_by_a_note(alloc: Global) -> Result<(u32, u32, u32), AllocError> {
    let (engine, mut pass, mut seats) = open(alloc, &SMALL)?;
    let mut note = engine.split(&mut pass, 0);
    tag_and_doze(engine.regs(), &mut seats.writer);
    let before = note.seen();
    engine.meet(&mut note, &mut seats.writer, &mut seats.collect);
    NoTally.ended(&pass, &seats.collect);
    Ok((before, note.seen(), note.phase()))
}

#[test]
fn a_pass_learns_what_the_desk_knows(rt: HostRuntime) -> Result<(), Fail> {
    let seen = seen_by_a_note(rt.alloc())?;
    assert_eq!(rt; seen, (0, 3, 0));
    Ok(())
}

// What the desk reads of an app once it met the pass that sent a packet of 100 bytes.
fn read_after_meeting(alloc: Global) -> Result<Amount, AllocError> {
    let (engine, mut pass, mut seats) = open(alloc, &SMALL)?;
    send(&engine, &mut pass, Dir::Ingress, 10050, 0, 100);
    engine.meet_apps(&mut pass, &mut seats.apps);
    Ok(engine.apps().read(&mut seats.apps, 10050))
}

#[test]
fn the_desk_learns_what_a_pass_added(rt: HostRuntime) -> Result<(), Fail> {
    let total = read_after_meeting(rt.alloc())?;
    assert_eq!(rt; total, Amount::counted(Dir::Ingress, 1, 100));
    Ok(())
}

// Takes what may go to another thread, and nothing else.
fn goes_to_threads<T: Send>(_value: &T) {}

// Takes what threads may share, and nothing else.
fn is_shared_by_threads<T: Sync>(_value: &T) {}

#[test]
fn engines_are_shared_and_passes_go_to_threads(rt: HostRuntime) -> Result<(), Fail> {
    let (engine, pass, seats) = open(rt.alloc(), &SMALL)?;
    is_shared_by_threads(&engine);
    goes_to_threads(&pass);
    goes_to_threads(&seats);
    Ok(())
}
