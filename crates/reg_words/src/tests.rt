//! The calls in order, and a reader on a thread of its own.

ghost use Rattle.std.specs.Prelude.{◌≡◌};

use crate::{JournalRoom, Reader, Regs, Writer};
use acct_base::{Key, RegSizes, Seen, Write};
use std::test::Fail;
use std::thread;

const SMALL: RegSizes = RegSizes {
    cookies: 2,
    sets: 2,
    owners: 2,
    writes: 4,
};

const NOTHING: Seen = Seen {
    version: 0,
    value: None,
};

#[test]
fn a_write_is_read_published_and_kept(rt: HostRuntime) -> Result<(), Fail> {
    let (regs, mut writer, mut reader) = Regs::new(rt.alloc(), &SMALL)?;
    let mut other = regs.split(&mut reader);
    assert_eq!(rt; regs.front(&mut reader), 0);
    assert_eq!(rt; regs.write(&mut writer, Key::Cookie(5), Some(9)), Ok(1));
    let nine = Seen {
        version: 1,
        value: Some(9),
    };
    assert_eq!(rt; regs.read(&mut reader, Key::Cookie(5)), nine);
    assert_eq!(rt; regs.read(&mut reader, Key::Cookie(6)), NOTHING);
    assert_eq!(rt; regs.read(&mut reader, Key::Cookie(0)), NOTHING);
    assert_eq!(rt; regs.front(&mut reader), 1);
    assert_eq!(rt; regs.front(&mut other), 0);
    regs.publish(&mut writer);
    assert_eq!(rt; regs.front(&mut other), 1);
    let room = JournalRoom::new(rt.alloc(), 4)?;
    let journal = regs.close(writer, room);
    assert_eq!(rt; journal.len(), 1);
    assert_eq!(rt;
        journal.get(0),
        Some(&Write {
            key: Key::Cookie(5),
            value: Some(9)
        })
    );
    Ok(())
}

/// How many writes the writer makes on its thread.
const WRITES: u32 = 200;

// Write number n has the value n.
fn write_all(regs: &Regs, mut writer: Writer) -> Writer
    requires { writer.origin ≡ regs.now }
    ensures { result.origin ≡ regs.now }
{
    for value in 1..=WRITES {
        let _ = regs.write(&mut writer, Key::Cookie(5), Some(u64::from(value)));
        regs.publish(&mut writer);
    }
    writer
}

// Whether each read gives a write that the journal had, none older than the front or than the read before.
fn read_all(regs: &Regs, mut reader: Reader) -> bool
    requires { reader.origin ≡ regs.now }
{
    for _ in 0..100_000 {
        let front = regs.front(&mut reader);
        let seen = regs.read(&mut reader, Key::Cookie(5));
        let value = if seen.version == 0 {
            None
        } else {
            Some(u64::from(seen.version))
        };
        if seen.value != value || seen.version < front {
            return false;
        }
        if seen.version == WRITES {
            return true;
        }
    }
    true
}

// Takes what may go to another thread, and nothing else.
fn goes_to_threads<T: Send>(_value: &T) {}

// Takes what threads may share, and nothing else.
fn is_shared_by_threads<T: Sync>(_value: &T) {}

#[test]
fn a_reader_reads_while_the_writer_writes(rt: HostRuntime) -> Result<(), Fail> {
    let limits = RegSizes {
        writes: WRITES,
        ..SMALL
    };
    let (regs, writer, reader) = Regs::new(rt.alloc(), &limits)?;
    is_shared_by_threads(&regs);
    goes_to_threads(&writer);
    goes_to_threads(&reader);
    let shared = &regs;
    let (writer, is_true) = thread::join(
        &rt,
        move || -> Writer
            requires { writer.origin ≡ shared.now }
        { write_all(shared, writer) },
        move || -> bool
            requires { reader.origin ≡ shared.now }
        { read_all(shared, reader) },
    );
    assert!(rt; is_true);
    assert_eq!(rt; writer.made(), WRITES);
    Ok(())
}
