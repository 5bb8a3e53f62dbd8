//! A section that is read and counted, and not kept.

ghost use Rattle.std.specs.Prelude.{◌≡◌, ◌≤◌, ◌+◌, ◌^◌, ℕ, List, length, IsTrue, IsFalse, IfOk, IfSome, IfNone, IsErrOf};
ghost use Rattle.script_text.specs.declared.fault.Which.{Which};
ghost use Rattle.script_text.specs.declared.place.Place.TheVariants.{Next};
ghost use Rattle.script_text.specs.declared.limits.Tally.{Tally};
ghost use Rattle.script_text.specs.Limits.{IsSmall, IsWithinLimits, tally_before};
ghost use Rattle.script_text.specs.Faults.{BeginsSection, FailsAt, SyntaxAt, LimitAt};
ghost use Rattle.script_text.specs.Counted.{IsCountedAs, ReachesCapture, NeedsCapture, TakesPacket};
ghost use Rattle.script_text.specs.Drafts.{IsPassed};

use crate::fault::ScriptFault;
use crate::hook_line::HookLine;
use crate::limits::{Counts, tally_of};
use crate::line::Line;
use crate::place::Place;
use crate::reader::Reader;
use acct_base::{ByteList, NameList};
use std::alloc::Global;

/// Reads a section as `parse_section` does, with the same faults, and counts it with all that stands before it, but
/// keeps nothing of it. It takes no memory that grows with the section.
///
/// None where it comes to a line that has to do with a capture: one of its bytes, or one that takes a packet of it.
/// Whether that packet is there can be told of a section alone that was kept.
pub fn count_section(
    alloc: Global,
    bytes: &[u8],
    before: &Counts,
) -> Result<Option<Counts>, ScriptFault>
    requires begins { BeginsSection bytes.now }
    requires limits { IsWithinLimits before.now }
    requires lines { before.now.lines ≤ before.now.bytes }
    ensures counts { IfOk result (λ r. IfSome r (IsCountedAs before.now bytes.now)) }
    ensures none { IfOk result (λ r. IfNone r (ReachesCapture bytes.now)) }
    ensures syntax { (line : ℕ) → IsErrOf result (ScriptFault.Syntax line) →
        FailsAt Next (tally_before before.now) bytes.now (before.now.lines + 1) line SyntaxAt }
    ensures limit { (w : Which) (line : ℕ) → IsErrOf result (ScriptFault.Limit w line) →
        FailsAt Next (tally_before before.now) bytes.now (before.now.lines + 1) line (LimitAt w) }
{
    let first = before.lines + 1;
    let mut reader = Reader {
        place: Place::Next,
        tally: tally_of(before),
        number: first,
        rest: bytes,
    };
    let names = NameList::new(alloc);
    match reader.next_line(alloc, &names) {
        Err(fault) => return Err(fault),
        Ok(_) => {}
    }
    while !reader.is_at_end() {
        match reader.next_line(alloc, &names) {
            Err(fault) => return Err(fault),
            Ok(line) => {
                if needs_capture(&line) {
                    return Ok(None);
                }
            }
        }
        if !pass_packets(alloc, &mut reader) {
            return Ok(None);
        }
    }
    Ok(Some(reader.counts()))
}

// Whether a line of a lane takes a packet of a capture.
#[inline(always)]
fn takes_packet(line: &HookLine<ByteList>) -> bool
    ensures takes { IsTrue result → TakesPacket line.now }
    ensures not { IsFalse result → TakesPacket line.now → ⊥ }
{
    matches!(line, HookLine::Packet { .. })
}

// Whether a line has to do with a capture.
fn needs_capture(line: &Line) -> bool
    ensures needs { IsTrue result → NeedsCapture line.now }
    ensures not { IsFalse result → NeedsCapture line.now → ⊥ }
{
    match line {
        Line::Cap(_) => true,
        Line::Hook(hook) => takes_packet(hook),
        _ => false,
    }
}

/// Passes over the lines of packets that come next in a lane, up to a line that is none. False where one of them takes
/// a packet of a capture.
#[inline(never)]
fn pass_packets(alloc: Global, reader: &mut Reader<'_>) -> bool
    requires small { IsSmall reader.old.tally }
    requires room { reader.old.number ≤ reader.old.tally.bytes + 2 ^ 62 }
    ensures passed { IsTrue result → (t : Tally) (first : ℕ) (bytes : List ℕ) → IsPassed t first bytes reader.old → IsPassed t first bytes reader.new }
    ensures reaches { IsFalse result → (t : Tally) (first : ℕ) (bytes : List ℕ) → IsPassed t first bytes reader.old → ReachesCapture bytes }
    ensures no_longer { IsTrue result → length reader.new.rest.now ≤ length reader.old.rest.now }
{
    if !matches!(reader.place, Place::Lane) {
        return true;
    }
    while let Some(hook) = reader.next_packet(alloc) {
        if takes_packet(&hook) {
            return false;
        }
    }
    true
}
