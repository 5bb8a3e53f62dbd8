//! The dump, block by block.

ghost use Rattle.std.specs.Prelude.{◌≡◌, ◌≤◌, ◌∷◌, ◌++◌, IfOk, OnOk, OnErr, IsErrOf};
ghost use Rattle.std.specs.List.{All};
ghost use Rattle.std.specs.Io.KnownBytes.{Appends};
ghost use Rattle.outside.specs.Outside.{Rose, AppendsPrefix};
ghost use Rattle.shelf.specs.Counted.{counts_of};
ghost use Rattle.shelf.specs.Phases.{kept_rows, added_rows};
ghost use Rattle.shelf.specs.Shown.{shown};
ghost use Rattle.dump_text.specs.Dump.{dump, calls_text, receipts_of, writes_text};
ghost use Rattle.dump_text.specs.Pages.{Puts};
ghost use Rattle.dump_text.specs.Room.{IsRoomOf, IsCovered, SumsFit, AppsCoverDeletions};

use crate::fault::{DumpFault, WriteFailed};
use crate::page::Page;
use crate::phases::{put_live, put_phases, put_total};
use crate::receipts::put_receipts;
use crate::replies::put_replies;
use crate::room::DumpRoom;
use crate::totals::{put_apps, put_ifaces};
use acct_base::RowList;
use outside::Sink;
use shelf::{CallCounts, Report};
use std::alloc::Global;

fn put_calls<K: Sink>(page: &mut Page<'_, K>, counts: CallCounts)
    ensures { Puts K.written K.faults page.old page.new (calls_text counts) }
{
    page.put(b"calls");
    page.number(counts.calls);
    page.word(b"pass");
    page.number(counts.passed);
    page.word(b"drop");
    page.number(counts.dropped);
    page.word(b"full");
    page.number(counts.full);
    page.end_line();
}

fn put_writes<K: Sink>(page: &mut Page<'_, K>, writes: usize, phase: u32)
    ensures { Puts K.written K.faults page.old page.new (writes_text writes phase) }
{
    page.put(b"writes");
    page.number(writes);
    page.word(b"phase");
    page.number(phase);
    page.end_line();
}

fn put_dump<K: Sink>(
    page: &mut Page<'_, K>,
    report: &Report,
    receipts: bool,
    rows: &RowList,
    counts: CallCounts,
)
    requires rows { rows.now ≡ added_rows (kept_rows report.now.shelf.phases report.now.live) }
    requires counts { counts ≡ counts_of (receipts_of report.now.sections) }
    requires covered { All (IsCovered report.now.shelf.phases) report.now.apps }
    ensures { Puts K.written K.faults page.old page.new (dump (shown report.now) receipts) }
{
    page.put(b"netacct-dump 1\n");
    put_calls(page, counts);
    put_writes(page, report.journal.len(), report.live.phase);
    put_replies(page, &report.sections);
    put_receipts(page, receipts, &report.sections);
    put_phases(page, &report.names, &report.shelf);
    put_live(page, &report.names, &report.live);
    put_total(page, &report.names, rows);
    put_apps(page, &report.shelf, &report.apps);
    put_ifaces(page, &report.names, &report.ifaces);
    page.put(b"end\n");
}

/// Writes the dump of a report through the small buffer of its room, with or without the lines of its
/// receipts. It takes no memory.
///
/// A failed write leaves a part from the dump's front in the sink. The room can be used again.
pub fn stream_dump<K: Sink>(
    sink: &mut K,
    report: &Report,
    receipts: bool,
    room: &mut DumpRoom,
) -> Result<(), WriteFailed>
    requires room { IsRoomOf (shown report.now) room.old }
    requires apps { AppsCoverDeletions (shown report.now) }
    ensures ok { OnOk result (Appends (K.written sink.old) (K.written sink.new) (dump (shown report.now) receipts)) }
    ensures prefix { OnErr result (AppendsPrefix (K.written sink.old) (K.written sink.new) (dump (shown report.now) receipts)) }
    ensures cause { OnErr result (Rose (K.faults sink.old) (K.faults sink.new)) }
    ensures count { K.faults sink.old ≤ K.faults sink.new }
    ensures room_stays { room.new ≡ room.old }
{
    let DumpRoom {
        buffer,
        rows,
        counts,
    } = room;
    let mut page = Page::new(sink, buffer);
    put_dump(&mut page, report, receipts, rows, *counts);
    page.finish()
}

/// Writes the dump of a report, with or without the lines of its receipts.
///
/// It takes its memory first, so that a want of memory leaves the sink as it was. A write fault comes only
/// where the sink failed, which then got a part from the dump's front.
pub fn write_dump<K: Sink>(
    alloc: Global,
    sink: &mut K,
    report: &Report,
    receipts: bool,
) -> Result<(), DumpFault>
    requires sums { SumsFit (shown report.now) }
    requires apps { AppsCoverDeletions (shown report.now) }
    ensures ok { OnOk result (Appends (K.written sink.old) (K.written sink.new) (dump (shown report.now) receipts)) }
    ensures prefix { IsErrOf result DumpFault.WriteFault → AppendsPrefix (K.written sink.old) (K.written sink.new) (dump (shown report.now) receipts) }
    ensures cause { IsErrOf result DumpFault.WriteFault → Rose (K.faults sink.old) (K.faults sink.new) }
    ensures memory { IsErrOf result DumpFault.Memory → sink.new ≡ sink.old }
    ensures count { K.faults sink.old ≤ K.faults sink.new }
{
    let mut room = DumpRoom::new(alloc, report)?;
    stream_dump(sink, report, receipts, &mut room)?;
    Ok(())
}
