//! The words that need no source: they print the generated script, or replay it.

use super::{Ended, called_alone, called_on};
use outside::{MemSink, MemSource};
use replay_main::Fault;
use std::alloc::{AllocError, Global};
use std::test::Fail;

const FRONT: &[u8] =
    b"netacct 1\nsection\ndesk\ntag 1000 1 10000 1\nfw dozable 10000 allow\nchain dozable on\ncollect\nsection\nlane\nin 10000 1 1 4 100 -\n";

const SUMMARY: &[u8] =
    b"bulk 1 calls 256 pass 32 drop 224 full 0 writes 3 phase 1 rx 160 110464 tx 0 0 tagged 20 13808\n";

#[test]
fn one_round_is_replayed_and_summed(rt: HostRuntime) -> Result<(), Fail> {
    let (ended, sink) = called_on(&rt, rt.alloc(), &["bulk", "1"], b"")?;
    assert_eq!(rt; (ended.status, ended.fault), (0, None));
    assert!(rt; ended.has_report);
    assert_eq!(rt; sink.written(), SUMMARY);
    Ok(())
}

// Prints seven rounds, into a sink whose call of this number fails. The source fails at once.
fn seven_rounds(alloc: Global, failing_write: u64) -> Result<(Ended, MemSink), AllocError> {
    let mut source = MemSource::new(alloc, b"", 1, &[1])?;
    let mut sink = MemSink::new(alloc, 100_000, 4_096, &[failing_write])?;
    let ended = called_alone(alloc, &["gen", "7"], &mut source, &mut sink)?;
    Ok((ended, sink))
}

// The number of bytes is that of a plain Rust program that prints the same script.
#[test]
fn seven_rounds_are_printed(rt: HostRuntime) -> Result<(), Fail> {
    for (fails, status, length) in [(0, 0, 40_977), (3, 4, 8_192)] {
        let (ended, sink) = seven_rounds(rt.alloc(), fails)?;
        assert_eq!(rt; (ended.status, sink.written().len()), (status, length));
        assert!(rt; sink.written().starts_with(FRONT));
    }
    Ok(())
}

#[test]
fn other_numbers_are_no_words(rt: HostRuntime) -> Result<(), Fail> {
    let calls: [&[&str]; 8] = [
        &["gen"],
        &["gen", "0"],
        &["gen", "01"],
        &["gen", "1001"],
        &["gen", "4294967297"],
        &["gen", "1", "1"],
        &["bulk", "+1"],
        &["bulk", ""],
    ];
    for call in calls {
        let (ended, _) = called_on(&rt, rt.alloc(), call, b"")?;
        assert_eq!(rt; ended.fault, Some(Fault::Usage));
    }
    Ok(())
}
