//! The dumps of the reports, whole and in pieces.

use super::conditions::has_dump;
use super::parts::report_of;
use super::reports::{CHARGED_TO_ANOTHER, Case, DELETIONS, EMPTY_SNAPSHOTS, FOUR_LANES, FULL_MAP};
use crate::{DumpRoom, stream_dump, write_dump};
use outside::MemSink;
use shelf::Report;
use std::alloc::{AllocError, Global};
use std::test::Fail;

// More bytes than any of the dumps has.
const SINK_ROOM: usize = 2_048;

// A sink that takes so many bytes at a time, and at least one. Its calls with these numbers fail.
fn sink_of(alloc: Global, piece: usize, fails: &[u64]) -> Result<MemSink, AllocError> {
    MemSink::new(alloc, SINK_ROOM, piece.max(1), fails)
}

// The dump of a report, written in pieces of so many bytes.
fn written(alloc: Global, report: &Report, receipts: bool, piece: usize) -> Result<MemSink, Fail> {
    has_dump(report).ok_or("a report that has a dump")?;
    let mut sink = sink_of(alloc, piece, &[])?;
    match write_dump(alloc, &mut sink, report, receipts) {
        Ok(()) => Ok(sink),
        Err(_) => Err("memory and room".into()),
    }
}

// The same by a room that served before for a dump whose sink failed.
fn streamed(alloc: Global, report: &Report, receipts: bool, piece: usize) -> Result<MemSink, Fail> {
    has_dump(report).ok_or("a report that has a dump")?;
    let mut room = DumpRoom::new(alloc, report)?;
    let mut broken = sink_of(alloc, 16, &[3])?;
    if stream_dump(&mut broken, report, receipts, &mut room).is_ok() {
        return Err("a sink that fails".into());
    }
    let mut sink = sink_of(alloc, piece, &[])?;
    match stream_dump(&mut sink, report, receipts, &mut room) {
        Ok(()) => Ok(sink),
        Err(_) => Err("room".into()),
    }
}

// Whether a dump comes to this text by both calls, in pieces of so many bytes.
fn comes_to(
    alloc: Global,
    report: &Report,
    receipts: bool,
    piece: usize,
    text: &str,
) -> Result<bool, Fail> {
    let by_call = written(alloc, report, receipts, piece)?;
    let by_room = streamed(alloc, report, receipts, piece)?;
    Ok(by_call.written() == text.as_bytes() && by_room.written() == text.as_bytes())
}

// Whether the dump of a case has its lines, with or without those of receipts.
fn has_its_lines(alloc: Global, case: &Case, receipts: bool, piece: usize) -> Result<bool, Fail> {
    let report = report_of(alloc, &case.parts)?;
    let mut text = String::new(alloc);
    text.push_str(case.before)?;
    if receipts {
        text.push_str(case.receipts)?;
    }
    text.push_str(case.behind)?;
    comes_to(alloc, &report, receipts, piece, &text)
}

const CASES: [(&str, Case); 5] = [
    ("charged to another", CHARGED_TO_ANOTHER),
    ("full map", FULL_MAP),
    ("empty snapshots", EMPTY_SNAPSHOTS),
    ("deletions", DELETIONS),
    ("four lanes", FOUR_LANES),
];

#[test]
fn dumps_leave_receipts_out(rt: HostRuntime) -> Result<(), Fail> {
    for (name, case) in CASES {
        assert!(rt; has_its_lines(rt.alloc(), &case, false, 1)?, "{name}");
        assert!(rt; has_its_lines(rt.alloc(), &case, false, 4_096)?, "{name}");
    }
    Ok(())
}

#[test]
fn receipts_stand_between_replies_and_phases(rt: HostRuntime) -> Result<(), Fail> {
    for (name, case) in CASES {
        assert!(rt; has_its_lines(rt.alloc(), &case, true, 1)?, "{name}");
        assert!(rt; has_its_lines(rt.alloc(), &case, true, 4_096)?, "{name}");
    }
    Ok(())
}
