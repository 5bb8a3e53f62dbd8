ghost use Rattle.std.specs.Prelude.{◌≡◌, ◌≢◌, ◌≤◌, ◌<◌, ◌+◌, ◌^◌, ℕ, [], length, slice_get, IfOk, IsErrOf, Err, Some, is_none, option_and_then, unwrap_or};
ghost use Rattle.script_text.specs.Lanes.{lane_line};
ghost use Rattle.captures.specs.declared.section.ResolveFault.TheVariants as faults;
ghost use Rattle.std.specs.List.{AllZip};
ghost use Rattle.script_text.specs.Parts.{IsSection};
ghost use Rattle.captures.specs.Calls.{IsSectionInRange, HeadsFit};
ghost use Rattle.captures.specs.Lent.{section_calls};
ghost use Rattle.captures.specs.Sections.{AreCalls, ArePacketsOf, CaptureIsBad, NoPacketAt, all_lines, call_by, first_lacking, lacking, lent_packets, IsCallOf};

use crate::calls::{CallLaneList, Calls, packet_of};
use crate::capture::{Capture, CaptureError};
use script_text::{HookLine, HookLineList, LaneLineList, Section};
use std::alloc::Global;

/// Why a section's lines do not all make calls.
#[derive(Clone, Copy, Debug, PartialEq, Eq)]
pub enum ResolveFault {
    /// The section's capture leaves its format at this place. The line is the section's first `cap` line.
    CaptureBad { line: u64, place: u32 },
    /// This line is the first of the section whose packet is not there, or is unusable.
    NoPacket { line: u64 },
    /// There was not enough memory.
    Memory,
}

/// The calls that a section's lines make, each made when it is asked for. The capture is read once, and each
/// line is looked at once.
pub fn resolve<'a>(alloc: Global, section: &'a Section) -> Result<Calls<'a>, ResolveFault>
    requires section { IsSection section.now }
    requires small { length section.now.capture ≤ 1048576 }
    requires numbered { section.now.first + 1 < 2 ^ 64 }
    ensures calls { IfOk result (λ calls. AreCalls section.now (section_calls calls)) }
    ensures ranges { IfOk result (λ calls. IsSectionInRange (section_calls calls)) }
    ensures heads { IfOk result (λ calls. HeadsFit (section_calls calls)) }
    ensures bad { (line place : ℕ) → IsErrOf result (ResolveFault.CaptureBad line place) → CaptureIsBad section.now line place }
    ensures missing { (line : ℕ) → IsErrOf result (ResolveFault.NoPacket line) → NoPacketAt section.now line }
{
    let capture = capture_of(alloc, section)?;
    match lend(&section.lanes, capture) {
        Ok(lanes) => Ok(Calls {
            lanes,
            desk: section.desk.as_ref(),
        }),
        Err(line) => Err(ResolveFault::NoPacket { line }),
    }
}

/// The calls of lines with a capture, or the number of the first line that lacks its packet.
fn lend<'a>(lanes: &'a LaneLineList, capture: Option<Capture<'a>>) -> Result<CallLaneList<'a>, u64>
    ensures calls { IfOk result (λ calls. AllZip (AllZip (IsCallOf (unwrap_or capture.entry []))) lanes.now calls) }
    ensures lacking { (line : ℕ) → IsErrOf result line → first_lacking (unwrap_or capture.entry []) (all_lines lanes.now) ≡ Some line }
{
    match lacking_in_lanes(capture.as_ref(), lanes) {
        Some(line) => Err(line),
        None => Ok(CallLaneList { lanes, capture }),
    }
}

/// The capture of a section, if it has one.
fn capture_of<'a>(alloc: Global, section: &'a Section) -> Result<Option<Capture<'a>>, ResolveFault>
    requires small { length section.now.capture ≤ 1048576 }
    requires numbered { section.now.first + 1 < 2 ^ 64 }
    ensures packets { IfOk result (λ capture. ArePacketsOf section.now.caps section.now.capture (unwrap_or capture [])) }
    ensures bad { (line place : ℕ) → IsErrOf result (ResolveFault.CaptureBad line place) → CaptureIsBad section.now line place }
    ensures missing { (line : ℕ) → result ≢ Err (faults.NoPacket line) }
{
    if section.caps.is_empty() {
        return Ok(None);
    }
    match Capture::of(alloc, section.capture.as_slice()) {
        Ok(capture) => Ok(Some(capture)),
        Err(CaptureError::Bad { place }) => Err(ResolveFault::CaptureBad {
            line: section.first + 1,
            place,
        }),
        Err(CaptureError::Memory) => Err(ResolveFault::Memory),
    }
}

/// The number of the first line that lacks its packet, over all lanes in order.
fn lacking_in_lanes(capture: Option<&Capture<'_>>, lanes: &LaneLineList) -> Option<u64>
    ensures { result ≡ first_lacking (lent_packets capture.entry) (all_lines lanes.now) }
{
    for place in 0..lanes.len() {
        let found = lacking_in_lane(capture, lanes, place);
        if found.is_some() {
            return found;
        }
    }
    None
}

/// The number of the first line that lacks its packet in the lane at a place.
fn lacking_in_lane(capture: Option<&Capture<'_>>, lanes: &LaneLineList, place: usize) -> Option<u64>
    ensures { result ≡ option_and_then (first_lacking (lent_packets capture.entry)) (slice_get lanes.now place) }
{
    match lanes.get(place) {
        None => None,
        Some(lines) => lacking_in_lines(capture, lines),
    }
}

/// The number of the first of a lane's lines that lacks its packet.
fn lacking_in_lines(capture: Option<&Capture<'_>>, lines: &HookLineList) -> Option<u64>
    ensures { result ≡ first_lacking (lent_packets capture.entry) lines.now }
{
    for place in 0..lines.len() {
        let found = lacking_at(capture, lines, place);
        if found.is_some() {
            return found;
        }
    }
    None
}

/// The number of the line at a place, where it lacks its packet.
fn lacking_at(capture: Option<&Capture<'_>>, lines: &HookLineList, place: usize) -> Option<u64>
    ensures { result ≡ option_and_then (lacking (lent_packets capture.entry)) (slice_get lines.now place) }
{
    match lines.get(place) {
        None => None,
        Some((line, hook)) => {
            if lacks_packet(capture, hook) {
                Some(line)
            } else {
                None
            }
        }
    }
}

/// Whether a line takes a packet that is not there, or is unusable.
fn lacks_packet(capture: Option<&Capture<'_>>, line: HookLine<&[u8]>) -> bool
    ensures { result ≡ is_none (call_by (lent_packets capture.entry) (lane_line line.entry)) }
{
    match line {
        HookLine::Packet { index, .. } => packet_of(capture, index).is_none(),
        HookLine::Hook { .. }
        | HookLine::Iface(_)
        | HookLine::Allow { .. }
        | HookLine::Deny { .. } => false,
    }
}
