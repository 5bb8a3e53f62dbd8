ghost use Rattle.std.specs.Prelude.{◌≡◌, ◌≤◌, ◌+◌, ℕ, length, IfOk, IfSome, IfNone, IsErrOf, option_map};
ghost use Rattle.captures.specs.Pcap.{ArePackets, IsBadAt, StandFrom, GoesOn, behind, file_head, packet_at, packet_number};
ghost use Rattle.captures.specs.Packets.{held};
ghost use Rattle.captures.specs.declared.capture.CaptureError.TheVariants.{Memory};

use crate::file::{Endian, FILE_HEAD, FileHead};
use crate::packet::Packet;
use acct_base::List;
use std::alloc::{AllocError, Global};
use std::marker::Model;

/// How many bytes the head of a packet has.
const PACKET_HEAD: usize = 16;

/// Where the captured length stands in the head of a packet.
const CAPTURED: usize = 8;

/// Where the original length stands in the head of a packet.
const ORIGINAL: usize = 12;

/// Why bytes give no capture.
#[derive(Clone, Copy, Debug, PartialEq, Eq)]
pub enum CaptureError {
    /// The bytes leave the format: the first head that is none stands at this place, from 0.
    Bad { place: u32 },
    /// There was not enough memory.
    Memory,
}

impl From<AllocError> for CaptureError {
    ghost from_gives = { λ _ e. e ≡ Memory };

    fn from(_: AllocError) -> Self {
        CaptureError::Memory
    }
}

/// A capture in the classic pcap format, version 2.4. It borrows the bytes, and keeps the places of the
/// packets' heads.
///
/// Contracts see it as the list of its packets, with None for each that is unusable.
#[derive(Debug, Drop)]
pub struct Capture<'a> {
    bytes: &'a [u8],
    head: FileHead,
    places: List<u32>,
}

impl<'a> Model for Capture<'a> {
    ghost use Rattle.std.specs.Prelude.{◌≤◌, length, List as Listed, Option, map};
    ghost use Rattle.captures.specs.Pcap.{Held, IsFile, packet_at};

    ghost Value = { Listed (Option Held) };

    ghost view = { λ c. map (packet_at c.head c.bytes.now) c.places };

    ghost invariant = { λ c. IsFile c.bytes.now c.head c.places × (length c.bytes.now ≤ 1048576) };
}

impl<'a> Capture<'a> {
    /// The capture that these bytes are. Its packets are found in one pass. Bad comes where the bytes leave
    /// the format: fewer than 24, another magic, another version than 2.4, a link type that is not known, or
    /// a packet whose head or bytes are cut off or that was captured longer than it was.
    pub fn of(alloc: Global, bytes: &'a [u8]) -> Result<Capture<'a>, CaptureError>
        requires { length bytes.now ≤ 1048576 }
        ensures found { IfOk result (λ capture. ArePackets bytes.now capture) }
        ensures bad { (place : ℕ) → IsErrOf result (CaptureError.Bad place) → IsBadAt bytes.now place }
    {
        let head = match FileHead::read(bytes) {
            Ok(head) => head,
            Err(place) => return Err(CaptureError::Bad { place }),
        };
        let places = find_packets(alloc, bytes, head)?;
        Ok(Capture {
            bytes,
            head,
            places,
        })
    }

    /// How many packets there are, unusable ones too.
    pub fn count(&self) -> u32
        ensures { result ≡ length self.now }
    {
        self.places.len() as u32
    }

    /// Packet k, from 0. None comes exactly where k is not below the count, or where the packet is unusable:
    /// its link head was not captured whole, or its length without the link head is 0 or above 262,144.
    pub fn packet(&self, k: u32) -> Option<Packet<'a>>
        ensures { option_map held result ≡ packet_number self.now k }
    {
        match self.places.get(k as usize) {
            None => None,
            Some(place) => packet_behind(self.head, self.bytes, *place as usize),
        }
    }
}

/// The packet whose head is at this place; None where it is unusable.
fn packet_behind<'a>(head: FileHead, bytes: &'a [u8], place: usize) -> Option<Packet<'a>>
    requires { GoesOn head.order bytes.now place }
    ensures { option_map held result ≡ packet_at head bytes.now place }
{
    let captured = head.order.number32(bytes, place + CAPTURED) as usize;
    let original = head.order.number32(bytes, place + ORIGINAL);
    let start = place + PACKET_HEAD;
    head.link.packet(original, &bytes[start..start + captured])
}

/// The places of the packets' heads behind a file's head, up to the end.
fn find_packets(alloc: Global, bytes: &[u8], head: FileHead) -> Result<List<u32>, CaptureError>
    requires few { length bytes.now ≤ 1048576 }
    requires head { file_head bytes.now ≡ Ok head }
    requires begins { 24 ≤ length bytes.now }
    ensures found { IfOk result (λ places. StandFrom head.order bytes.now 24 places (length bytes.now)) }
    ensures bad { (place : ℕ) → IsErrOf result (CaptureError.Bad place) → IsBadAt bytes.now place }
{
    let mut places = List::new(alloc);
    let mut place = FILE_HEAD;
    while place < bytes.len() {
        let Some(next) = behind_packet(head.order, bytes, place) else {
            return Err(CaptureError::Bad {
                place: place as u32,
            });
        };
        places.push(place as u32)?;
        place = next;
    }
    Ok(places)
}

/// The place behind the packet whose head is at this place; None where no packet goes on there.
fn behind_packet(order: Endian, bytes: &[u8], place: usize) -> Option<usize>
    requires few { length bytes.now ≤ 1048576 }
    requires inside { place ≤ length bytes.now }
    ensures found { IfSome result (λ next. GoesOn order bytes.now place) }
    ensures next { IfSome result (λ next. next ≡ behind order bytes.now place) }
    ensures none { IfNone result (GoesOn order bytes.now place → ⊥) }
{
    if bytes.len() - place < PACKET_HEAD {
        return None;
    }
    let captured = order.number32(bytes, place + CAPTURED) as usize;
    let original = order.number32(bytes, place + ORIGINAL) as usize;
    if captured > original || captured > bytes.len() - place - PACKET_HEAD {
        return None;
    }
    Some(place + PACKET_HEAD + captured)
}
