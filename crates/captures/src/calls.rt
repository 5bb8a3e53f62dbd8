ghost use Rattle.std.specs.Prelude.{◌≡◌, ◌==◌, length, slice_get, option_map};
ghost use Rattle.captures.specs.Lent.{call_of as call_that, numbered_call};
ghost use Rattle.captures.specs.Sections.{call_by, lent_packets};
ghost use Rattle.captures.specs.Pcap.{packet_number};
ghost use Rattle.captures.specs.Packets.{held};
ghost use Rattle.acct_base.specs.Receipts.{Call};
ghost use Rattle.script_text.specs.Lanes.{lane_line};

use crate::capture::Capture;
use crate::packet::Packet;
use acct_base::{HookIn, IfaceIn, Uid};
use script_text::{DeskLineList, HookLine, HookLineList, LaneLineList};
use std::marker::Model;

/// A call that a lane's line makes.
#[derive(Clone, Copy, Debug)]
pub enum LineCall<'a> {
    Hook(HookIn<'a>),
    Iface(IfaceIn),
    /// The allow list, for a packet that was received or sent.
    Allow {
        sock_uid: Uid,
        cookie: u64,
        received: bool,
    },
    /// The deny list.
    Deny {
        sock_uid: Uid,
    },
}

/// The calls of a lane, each with the number of its line. It borrows the lines and the capture, and makes a
/// call when it is asked for.
#[derive(Debug, Drop)]
pub struct CallList<'a> {
    pub(crate) lines: &'a HookLineList,
    pub(crate) capture: Option<&'a Capture<'a>>,
}

impl<'a> Model for CallList<'a> {
    ghost use Rattle.std.specs.Prelude.{List as Listed, ℕ};
    ghost use Rattle.acct_base.specs.Receipts.{Call};
    ghost use Rattle.captures.specs.Sections.{calls_in, lent_packets, HavePackets};

    ghost Value = { Listed (ℕ × Call) };

    ghost view = { λ l. calls_in (lent_packets l.capture) l.lines.now };

    ghost invariant = { λ l. HavePackets (lent_packets l.capture) l.lines.now };
}

impl<'a> CallList<'a> {
    /// How many calls there are.
    pub fn len(&self) -> usize
        ensures { result ≡ length self.now }
    {
        self.lines.len()
    }

    /// Whether there is no call.
    pub fn is_empty(&self) -> bool
        ensures { result ≡ (length self.now == 0) }
    {
        self.len() == 0
    }

    /// The call at a place, from 0, with the number of its line; None where the place is not below the
    /// length.
    pub fn get(&self, place: usize) -> Option<(u64, LineCall<'a>)>
        ensures { option_map numbered_call result ≡ slice_get self.now place }
    {
        match self.lines.get(place) {
            None => None,
            Some((line, hook)) => numbered(line, call_of(self.capture, hook)),
        }
    }
}

/// The calls of each lane of a section.
#[derive(Debug, Drop)]
pub struct CallLaneList<'a> {
    pub(crate) lanes: &'a LaneLineList,
    pub(crate) capture: Option<Capture<'a>>,
}

impl<'a> Model for CallLaneList<'a> {
    ghost use Rattle.std.specs.Prelude.{List as Listed, ℕ, [], map, unwrap_or};
    ghost use Rattle.std.specs.List.{AllByRecursion};
    ghost use Rattle.acct_base.specs.Receipts.{Call};
    ghost use Rattle.captures.specs.Sections.{calls_in, HavePackets};

    ghost Value = { Listed (Listed (ℕ × Call)) };

    ghost view = { λ l. map (calls_in (unwrap_or l.capture [])) l.lanes.now };

    ghost invariant = { λ l. AllByRecursion (HavePackets (unwrap_or l.capture [])) l.lanes.now };
}

impl<'a> CallLaneList<'a> {
    /// How many lanes there are.
    pub fn len(&self) -> usize
        ensures { result ≡ length self.now }
    {
        self.lanes.len()
    }

    /// Whether there is no lane.
    pub fn is_empty(&self) -> bool
        ensures { result ≡ (length self.now == 0) }
    {
        self.lanes.is_empty()
    }

    /// The calls of the lane at a place, from 0; None where the place is not below the length.
    pub fn get(&self, place: usize) -> Option<CallList<'_>>
        ensures { result ≡ slice_get self.now place }
    {
        match self.lanes.get(place) {
            None => None,
            Some(lines) => Some(CallList {
                lines,
                capture: self.capture.as_ref(),
            }),
        }
    }
}

/// What a section asks for: the calls of its lanes, and the commands of its desk, where it has one.
#[derive(Debug, Drop)]
pub struct Calls<'a> {
    pub lanes: CallLaneList<'a>,
    pub desk: Option<&'a DeskLineList>,
}

/// Packet k of a capture; None where there is no capture or no such packet, or where it is unusable.
pub(crate) fn packet_of<'a>(capture: Option<&'a Capture<'a>>, k: u32) -> Option<Packet<'a>>
    ensures { option_map held result ≡ packet_number (lent_packets capture.entry) k }
{
    match capture {
        None => None,
        Some(capture) => capture.packet(k),
    }
}

/// A call with the number of its line.
fn numbered<'a>(line: u64, call: Option<LineCall<'a>>) -> Option<(u64, LineCall<'a>)>
    ensures { option_map numbered_call result ≡ option_map (λ (c : Call). (line, c)) (option_map call_that call.entry) }
{
    match call {
        None => None,
        Some(call) => Some((line, call)),
    }
}

/// The call of a line; None where its packet is not there, or is unusable.
fn call_of<'a>(capture: Option<&'a Capture<'a>>, line: HookLine<&'a [u8]>) -> Option<LineCall<'a>>
    ensures { option_map call_that result ≡ call_by (lent_packets capture.entry) (lane_line line.entry) }
{
    match line {
        HookLine::Hook {
            dir,
            sock_uid,
            cookie,
            iface,
            family,
            len,
            head,
        } => Some(LineCall::Hook(HookIn {
            dir,
            sock_uid,
            cookie,
            iface,
            family,
            len,
            head,
        })),
        HookLine::Packet {
            dir,
            sock_uid,
            cookie,
            iface,
            index,
        } => match packet_of(capture, index) {
            None => None,
            Some(packet) => Some(LineCall::Hook(HookIn {
                dir,
                sock_uid,
                cookie,
                iface,
                family: packet.family,
                len: packet.len,
                head: packet.bytes,
            })),
        },
        HookLine::Iface(call) => Some(LineCall::Iface(call)),
        HookLine::Allow {
            sock_uid,
            cookie,
            received,
        } => Some(LineCall::Allow {
            sock_uid,
            cookie,
            received,
        }),
        HookLine::Deny { sock_uid } => Some(LineCall::Deny { sock_uid }),
    }
}
