//! Commands in order on live registers, and a reader that sees what they wrote.

ghost use Rattle.std.specs.Prelude.{◌≡◌, ◌<◌, false, IfOk};
ghost use Rattle.std.specs.List.{AllByRecursion};
ghost use Rattle.acct_base.specs.Ranges.{AreRegSizes};
ghost use Rattle.desk_core.specs.Commands.{collects};
ghost use Rattle.desk_core.specs.Ranges.{IsInRange};
ghost use Rattle.desk_regs.specs.Desks.{IsLevel};

use crate::Desk;
use acct_base::{Key, RegSizes, Seen, Write};
use desk_core::{Bit, Book, Chain, Command, Reply, UidList};
use reg_words::{JournalRoom, Reader, Regs};
use std::alloc::{AllocError, Global};
use std::process::Abort;
use std::test::Fail;

// Registers, a desk on an empty book, and a reader.
fn open(alloc: Global, sizes: &RegSizes) -> Result<(Regs, Desk, Reader), AllocError>
    requires { AreRegSizes sizes.now }
    ensures level { IfOk result (λ t. IsLevel t.1) }
    ensures from { IfOk result (λ t. (t.1.writer.origin ≡ t.0) × (t.2.origin ≡ t.0)) }
{
    let (regs, writer, reader) = Regs::new(alloc, sizes)?;
    let book = Book::new(alloc, &[], sizes)?;
    Ok((regs, Desk::new(writer, book), reader))
}

// Carries each command out, and compares the reply.
fn answers(
    rt: &impl Abort,
    alloc: Global,
    regs: &Regs,
    desk: &mut Desk,
    rows: &[(Command, Reply)],
) -> Result<(), Fail>
    requires from { desk.old.writer.origin ≡ regs.now }
    requires level { IsLevel desk.old }
    requires rows { AllByRecursion (λ row. IsInRange row.0 × (collects row.0 ≡ false)) rows.now }
    ensures from { desk.new.writer.origin ≡ regs.now }
    ensures level { IsLevel desk.new }
{
    for (command, reply) in rows {
        let answer = desk.command(alloc, regs, command)?;
        assert_eq!(rt; answer, *reply, "at {command:?}");
    }
    Ok(())
}

// Sets the tag of a socket of uid 10050.
fn tag(caller: u32, cookie: u64, tag: u32) -> Command
    requires { caller < 4294967295 }
    ensures range { IsInRange result }
    ensures ends_no_phase { collects result ≡ false }
{
    Command::Tag {
        caller,
        cookie,
        uid: 10050,
        tag,
    }
}

// Sets the counter set of uid 10050.
fn set(caller: u32, set: u32) -> Command
    requires { caller < 4294967295 }
    ensures range { IsInRange result }
    ensures ends_no_phase { collects result ≡ false }
{
    Command::Set {
        caller,
        uid: 10050,
        set,
    }
}

const SIZES: RegSizes = RegSizes {
    cookies: 10,
    sets: 10,
    owners: 10,
    writes: 10,
};

// Two of these commands write, the add and the first remove.
#[test]
fn refusals_come_in_their_order(rt: HostRuntime) -> Result<(), Fail> {
    let alloc = rt.alloc();
    let (regs, mut desk, _) = open(alloc, &SIZES)?;
    let uid = 10050;
    let bit = Bit::Happy;
    let rows = [
        (Command::Remove { uid, bit }, Reply::NoEntry),
        (Command::Add { uid, bit, iface: 0 }, Reply::Done),
        (Command::Remove { uid, bit }, Reply::Done),
        (Command::Remove { uid, bit }, Reply::NoEntry),
        (set(uid, 2), Reply::Invalid),
        (set(uid, 1), Reply::Perm),
        (
            Command::Add {
                uid,
                bit: Bit::Iface,
                iface: 0,
            },
            Reply::Invalid,
        ),
        (Command::Add { uid, bit, iface: 5 }, Reply::Invalid),
        (Command::Untag { cookie: 5 }, Reply::NoEntry),
        (tag(uid, 0, 1), Reply::Invalid),
        (tag(10051, 5, 1), Reply::Perm),
        (set(101_000, 0), Reply::Done),
    ];
    answers(&rt, alloc, &regs, &mut desk, &rows)?;
    let writer = desk.into_writer();
    assert_eq!(rt; (writer.made(), writer.front()), (2, 2));
    Ok(())
}

const SMALL: RegSizes = RegSizes {
    cookies: 2,
    sets: 2,
    owners: 2,
    writes: 4,
};

#[test]
fn limits_refuse_whole_commands(rt: HostRuntime) -> Result<(), Fail> {
    let alloc = rt.alloc();
    let (regs, mut desk, _) = open(alloc, &SMALL)?;
    let chain = Chain::Dozable;
    let mut uids = UidList::new(alloc);
    uids.push(10001)?;
    uids.push(10002)?;
    let rows = [
        (tag(10050, 1, 7), Reply::Done),
        (tag(10050, 2, 7), Reply::Done),
        (tag(10050, 3, 7), Reply::KeysSpent),
        (tag(10050, 1, 8), Reply::Done),
        (Command::Replace { chain, uids }, Reply::JournalFull),
        (Command::Toggle { chain, on: true }, Reply::Done),
        (Command::Untag { cookie: 1 }, Reply::JournalFull),
    ];
    answers(&rt, alloc, &regs, &mut desk, &rows)?;
    assert_eq!(rt; desk.book().read(Key::Owner(10001)).value, None);
    let writer = desk.into_writer();
    let room = JournalRoom::new(alloc, writer.made())?;
    let journal = regs.close(writer, room);
    let last = Write {
        key: Key::Enabled,
        value: Some(4),
    };
    assert_eq!(rt; (journal.len(), journal.get(3)), (4, Some(&last)));
    Ok(())
}

// A reader sees a write once it is told the front; by a meeting it knows all writes.
#[test]
fn what_is_decided_is_read(rt: HostRuntime) -> Result<(), Fail> {
    let alloc = rt.alloc();
    let (regs, mut desk, mut reader) = open(alloc, &SMALL)?;
    let decision = desk.book().decide(alloc, &set(1000, 1))?;
    desk.enact(&regs, &decision)?;
    assert_eq!(rt; regs.front(&mut reader), 1);
    let seen = Seen {
        version: 1,
        value: Some(1),
    };
    assert_eq!(rt; regs.read(&mut reader, Key::Set(10050)), seen);
    assert_eq!(rt; desk.command(alloc, &regs, &set(1000, 0))?, Reply::Done);
    regs.meet(&mut reader, desk.writer());
    assert_eq!(rt; reader.seen(), 2);
    Ok(())
}

// Takes what may go to another thread, and nothing else.
fn goes_to_threads<T: Send>(_value: &T) {}

#[test]
fn a_desk_goes_to_threads(rt: HostRuntime) -> Result<(), Fail> {
    let (_, desk, _) = open(rt.alloc(), &SMALL)?;
    goes_to_threads(&desk);
    Ok(())
}
