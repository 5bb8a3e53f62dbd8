ghost use Rattle.std.specs.Prelude.{◌≡◌, ◌<◌, IfOk};
ghost use Rattle.script_text.specs.Parts.{IsSection};

use super::*;
use acct_base::Family;
use byteorder::{BigEndian, ByteOrder, LittleEndian};
use script_text::{Counts, ScriptFault, Section, parse_section};
use std::alloc::{AllocError, Global};

// A capture of Linux cooked packets, lowest bytes first: one of IPv4 with 20 bytes held, and one of IPv6 with 40.
fn cooked() -> [u8; 148] {
    [
        0xd4, 0xc3, 0xb2, 0xa1, 0x02, 0x00, 0x04, 0x00, 0x00, 0x00, 0x00, 0x00, 0x00, 0x00, 0x00,
        0x00, 0x00, 0x00, 0x04, 0x00, 0x71, 0x00, 0x00, 0x00, 0x00, 0x00, 0x00, 0x00, 0x00, 0x00,
        0x00, 0x00, 0x24, 0x00, 0x00, 0x00, 0x44, 0x00, 0x00, 0x00, 0x00, 0x00, 0x00, 0x01, 0x00,
        0x06, 0x02, 0x00, 0x00, 0x00, 0x00, 0x0a, 0x00, 0x00, 0x08, 0x00, 0x45, 0x00, 0x00, 0x34,
        0x00, 0x00, 0x40, 0x00, 0x40, 0x06, 0x00, 0x00, 0xc0, 0x00, 0x02, 0x01, 0xc6, 0x33, 0x64,
        0x01, 0x00, 0x00, 0x00, 0x00, 0x00, 0x00, 0x00, 0x00, 0x38, 0x00, 0x00, 0x00, 0xed, 0x05,
        0x00, 0x00, 0x00, 0x00, 0x00, 0x01, 0x00, 0x06, 0x02, 0x00, 0x00, 0x00, 0x00, 0x0a, 0x00,
        0x00, 0x86, 0xdd, 0x60, 0x00, 0x00, 0x00, 0x05, 0xb5, 0x06, 0x40, 0x20, 0x01, 0x0d, 0xb8,
        0x00, 0x00, 0x00, 0x00, 0x00, 0x00, 0x00, 0x00, 0x00, 0x00, 0x00, 0x01, 0x20, 0x01, 0x0d,
        0xb8, 0x00, 0x00, 0x00, 0x00, 0x00, 0x00, 0x00, 0x00, 0x00, 0x00, 0x00, 0x02,
    ]
}

// A capture with one packet of Linux cooked version 2.
fn cooked_two() -> [u8; 80] {
    [
        0xd4, 0xc3, 0xb2, 0xa1, 0x02, 0x00, 0x04, 0x00, 0x00, 0x00, 0x00, 0x00, 0x00, 0x00, 0x00,
        0x00, 0x00, 0x00, 0x04, 0x00, 0x14, 0x01, 0x00, 0x00, 0x00, 0x00, 0x00, 0x00, 0x00, 0x00,
        0x00, 0x00, 0x28, 0x00, 0x00, 0x00, 0x48, 0x00, 0x00, 0x00, 0x08, 0x00, 0x00, 0x00, 0x00,
        0x00, 0x00, 0x02, 0x00, 0x01, 0x00, 0x06, 0x02, 0x00, 0x00, 0x00, 0x00, 0x0a, 0x00, 0x00,
        0x45, 0x00, 0x00, 0x34, 0x00, 0x00, 0x40, 0x00, 0x40, 0x06, 0x00, 0x00, 0xc0, 0x00, 0x02,
        0x01, 0xc6, 0x33, 0x64, 0x01,
    ]
}

// How many packets these bytes have, or where they are bad.
fn count_of(alloc: Global, bytes: &[u8]) -> Result<u32, CaptureError> {
    if bytes.len() > 1_048_576 {
        return Err(CaptureError::Memory);
    }
    Ok(Capture::of(alloc, bytes)?.count())
}

// What is known of packet k: its family, its length and how many bytes are held.
type Told = Option<(Family, u32, usize)>;

fn told(alloc: Global, bytes: &[u8], k: u32) -> Result<Told, CaptureError> {
    if bytes.len() > 1_048_576 {
        return Err(CaptureError::Memory);
    }
    let capture = Capture::of(alloc, bytes)?;
    match capture.packet(k) {
        None => Ok(None),
        Some(packet) => Ok(Some((packet.family, packet.len, packet.bytes.len()))),
    }
}

// What the first n bytes of `cooked` are.
fn expected_of(n: usize) -> Result<u32, CaptureError> {
    if n < 24 {
        Err(CaptureError::Bad { place: 0 })
    } else if n == 24 {
        Ok(0)
    } else if n < 76 {
        Err(CaptureError::Bad { place: 24 })
    } else if n == 76 {
        Ok(1)
    } else if n < 148 {
        Err(CaptureError::Bad { place: 76 })
    } else {
        Ok(2)
    }
}

#[test]
fn a_capture_breaks_off_at_a_head(rt: HostRuntime) {
    let bytes = cooked();
    for n in 0..149 {
        let front = bytes.get(..n).unwrap_or(&[]);
        assert_eq!(rt; count_of(rt.alloc(), front), expected_of(n), "at {n} bytes");
    }
}

// `cooked` with another byte at a place.
fn changed(at: usize, byte: u8) -> [u8; 148] {
    let mut bytes = cooked();
    if let Some(old) = bytes.get_mut(at) {
        *old = byte;
    }
    bytes
}

#[test]
fn a_head_is_bad_by_its_numbers(rt: HostRuntime) {
    for (at, byte, place) in [
        (0, 0xd5, 0),
        (4, 3, 4),
        (6, 3, 4),
        (20, 105, 20),
        (36, 35, 24),
        (32, 69, 24),
        (84, 57, 76),
    ] {
        let bytes = changed(at, byte);
        assert_eq!(rt;
            count_of(rt.alloc(), &bytes),
            Err(CaptureError::Bad { place }),
            "with {byte} at {at}"
        );
    }
}

#[test]
fn packets_begin_at_their_ip_header(rt: HostRuntime) {
    let two = cooked();
    assert_eq!(rt; told(rt.alloc(), &two, 0), Ok(Some((Family::V4, 52, 20))));
    assert_eq!(rt; told(rt.alloc(), &two, 1), Ok(Some((Family::V6, 1501, 40))));
    assert_eq!(rt; told(rt.alloc(), &two, 2), Ok(None));
    let one = cooked_two();
    assert_eq!(rt; count_of(rt.alloc(), &one), Ok(1));
    assert_eq!(rt; told(rt.alloc(), &one, 0), Ok(Some((Family::V4, 52, 20))));
}

// Puts a number at a place of a file.
fn put16<T: ByteOrder>(file: &mut [u8; 60], at: usize, number: u16)
    requires { at < 60 }
{
    if let Some(place) = file.get_mut(at..at + 2) {
        T::write_u16(place, number);
    }
}

fn put32<T: ByteOrder>(file: &mut [u8; 60], at: usize, number: u32)
    requires { at < 60 }
{
    if let Some(place) = file.get_mut(at..at + 4) {
        T::write_u32(place, number);
    }
}

// Puts the bytes of the protocol, or of the version, at a place of the packet's bytes.
fn put_kind(file: &mut [u8; 60], at: usize, kind: [u8; 2]) {
    if at < 19 {
        file[40 + at] = kind[0];
        file[41 + at] = kind[1];
    }
}

// A file with one packet.
#[derive(Clone, Copy)]
struct File {
    link: u32,
    // The place and the bytes of the protocol, or of the version.
    at: usize,
    kind: [u8; 2],
    captured: u32,
    original: u32,
}

impl File {
    // The bytes of the file, with this magic and the numbers in this order.
    fn bytes<T: ByteOrder>(&self, magic: u32) -> [u8; 60] {
        let mut file = [0; 60];
        put32::<T>(&mut file, 0, magic);
        put16::<T>(&mut file, 4, 2);
        put16::<T>(&mut file, 6, 4);
        put32::<T>(&mut file, 20, self.link);
        put32::<T>(&mut file, 32, self.captured);
        put32::<T>(&mut file, 36, self.original);
        put_kind(&mut file, self.at, self.kind);
        file
    }

    // What is known of the packet in a file, whose bytes behind the captured ones are left out.
    fn told(&self, alloc: Global, file: &[u8; 60]) -> Result<Told, CaptureError> {
        if self.captured > 20 {
            return Err(CaptureError::Memory);
        }
        told(alloc, &file[..40 + self.captured as usize], 0)
    }
}

fn file_of(link: u32, at: usize, kind: [u8; 2], captured: u32, original: u32) -> File {
    File {
        link,
        at,
        kind,
        captured,
        original,
    }
}

const IPV4: [u8; 2] = [0x08, 0x00];

const IPV6: [u8; 2] = [0x86, 0xdd];

// For each link type the shortest usable packet, the longest unusable one and others, with what is known of them.
fn links() -> [(File, Told); 24] {
    [
        (file_of(1, 12, IPV4, 14, 15), Some((Family::V4, 1, 0))),
        (file_of(1, 12, IPV4, 14, 14), None),
        (file_of(1, 12, IPV4, 13, 100), None),
        (
            file_of(1, 12, IPV4, 20, 262158),
            Some((Family::V4, 262144, 6)),
        ),
        (file_of(1, 12, IPV4, 20, 262159), None),
        (
            file_of(1, 12, [0x08, 0x06], 14, 60),
            Some((Family::Other, 46, 0)),
        ),
        (
            file_of(101, 0, [0x45, 0], 0, 1),
            Some((Family::Other, 1, 0)),
        ),
        (file_of(101, 0, [0x45, 0], 0, 0), None),
        (
            file_of(101, 0, [0x45, 0], 20, 262144),
            Some((Family::V4, 262144, 20)),
        ),
        (file_of(101, 0, [0x45, 0], 20, 262145), None),
        (file_of(101, 0, [0x60, 0], 1, 1), Some((Family::V6, 1, 1))),
        (
            file_of(101, 0, [0x50, 0], 1, 1),
            Some((Family::Other, 1, 1)),
        ),
        (file_of(113, 14, IPV6, 16, 17), Some((Family::V6, 1, 0))),
        (file_of(113, 14, IPV6, 15, 17), None),
        (file_of(113, 14, IPV6, 16, 16), None),
        (
            file_of(113, 14, IPV6, 20, 262160),
            Some((Family::V6, 262144, 4)),
        ),
        (file_of(113, 14, IPV6, 16, 262161), None),
        (
            file_of(113, 14, [0x08, 0x06], 16, 60),
            Some((Family::Other, 44, 0)),
        ),
        (file_of(276, 0, IPV4, 20, 21), Some((Family::V4, 1, 0))),
        (file_of(276, 0, IPV4, 19, 21), None),
        (file_of(276, 0, IPV4, 20, 20), None),
        (
            file_of(276, 0, IPV4, 20, 262164),
            Some((Family::V4, 262144, 0)),
        ),
        (file_of(276, 0, IPV4, 20, 262165), None),
        (
            file_of(276, 0, [0x08, 0x06], 20, 60),
            Some((Family::Other, 40, 0)),
        ),
    ]
}

#[test]
fn links_are_read_in_both_orders(rt: HostRuntime) {
    for (file, expected) in links() {
        for magic in [0xa1b2c3d4, 0xa1b23c4d] {
            let big = file.told(rt.alloc(), &file.bytes::<BigEndian>(magic));
            let little = file.told(rt.alloc(), &file.bytes::<LittleEndian>(magic));
            assert_eq!(rt;
                (big, little),
                (Ok(expected), Ok(expected)),
                "at link {}",
                file.link
            );
        }
    }
}

// A capture of so many bytes, all of whose packets are empty.
fn empty_packets(alloc: Global, size: usize) -> Result<Vec<u8>, AllocError> {
    let head = cooked();
    let mut bytes = Vec::new(alloc);
    bytes.extend_from_slice(&head[..24])?;
    bytes.resize_with(size, || 0)?;
    Ok(bytes)
}

#[test]
fn the_largest_capture_is_read(rt: HostRuntime) {
    let bytes = empty_packets(rt.alloc(), 1_048_568).expect(&rt, "memory");
    assert_eq!(rt; count_of(rt.alloc(), &bytes), Ok(65_534));
    assert_eq!(rt; told(rt.alloc(), &bytes, 65_533), Ok(None));
}

// The capture of `cooked` as lines of a script.
const CAPS: &[u8] = b"cap d4c3b2a10200040000000000000000000000040071000000\n\
cap 0000000000000000240000004400000000000001000602000000000a00000800450000340000400040060000c0000201c6336401\n\
cap 000000000000000038000000ed05000000000001000602000000000a000086dd6000000005b5064020010db800000000000000000000000120010db8000000000000000000000002\n";

// Four lanes, whose first line is line 12 behind these.
const LANES: &[u8] =
    b"lane\nrin 10050 77 2 0\nrout 10050 77 2 1\nlane\nrin 10051 0 2 1\nlane\niin 10050 2 4 52\n\
iout 10050 2 6 1501\nlane\nin 10050 0 1 4 84 -\nallow 10050 5 rx\ndeny 10051\n";

// The section of these lines, whose line `section` is line 8 of its script.
fn section_of(alloc: Global, caps: &[u8], lanes: &[u8]) -> Result<Section, ScriptFault>
    ensures section { IfOk result (λ s. IsSection s) }
    ensures first { IfOk result (λ s. s.first ≡ 8) }
{
    let mut text = Vec::new(alloc);
    text.extend_from_slice(b"section\n")?;
    text.extend_from_slice(caps)?;
    text.extend_from_slice(lanes)?;
    let before = Counts {
        bytes: 80,
        lines: 7,
        sections: 1,
        hooks: 0,
        desk_lines: 2,
        collections: 0,
    };
    let (section, _) = parse_section(alloc, &text, &before)?;
    Ok(section)
}

// What a call is, by its line, its length and how many bytes are held.
fn line_told(calls: &Calls<'_>, lane: usize, place: usize) -> Option<(u64, u32, usize)> {
    let lane = calls.lanes.get(lane)?;
    match lane.get(place)? {
        (line, LineCall::Hook(call)) => Some((line, call.len, call.head.len())),
        (line, LineCall::Iface(call)) => Some((line, call.len, 0)),
        (line, LineCall::Allow { .. } | LineCall::Deny { .. }) => Some((line, 0, 0)),
    }
}

// The fault of a section of these lines, if it has one.
fn fault_of(alloc: Global, caps: &[u8], lanes: &[u8]) -> Option<ResolveFault> {
    let section = section_of(alloc, caps, lanes).ok()?;
    if section.capture.len() > 1_048_576 {
        return Some(ResolveFault::Memory);
    }
    resolve(alloc, &section).err()
}

#[test]
fn each_line_makes_its_call(rt: HostRuntime) {
    let section = section_of(rt.alloc(), CAPS, LANES).expect(&rt, "a section");
    assert!(rt; section.capture.len() <= 1_048_576);
    let calls = resolve(rt.alloc(), &section).expect(&rt, "calls");
    assert_eq!(rt; calls.lanes.len(), 4);
    let table = [
        (0, 0, Some((13, 52, 20))),
        (0, 1, Some((14, 1501, 40))),
        (0, 2, None),
        (1, 0, Some((16, 1501, 40))),
        (2, 0, Some((18, 52, 0))),
        (2, 1, Some((19, 1501, 0))),
        (3, 0, Some((21, 84, 0))),
        (3, 1, Some((22, 0, 0))),
        (3, 2, Some((23, 0, 0))),
        (4, 0, None),
    ];
    for (lane, place, expected) in table {
        assert_eq!(rt;
            line_told(&calls, lane, place),
            expected,
            "in lane {lane} at {place}"
        );
    }
}

#[test]
fn a_bad_capture_comes_before_a_line_without_packet(rt: HostRuntime) {
    let cut = CAPS.get(..CAPS.len() - 3).unwrap_or(&[]);
    let bad = ResolveFault::CaptureBad { line: 9, place: 76 };
    let table: [(&[u8], &[u8], ResolveFault); 4] = [
        (cut, b"\nlane\nrin 10050 77 2 0\n", bad),
        (cut, b"\nlane\nrin 10050 77 2 2\n", bad),
        (
            CAPS,
            b"lane\nrin 10050 77 2 2\n",
            ResolveFault::NoPacket { line: 13 },
        ),
        (
            b"",
            b"lane\ndeny 1\nlane\nrin 1 0 2 0\nrin 1 0 2 0\n",
            ResolveFault::NoPacket { line: 12 },
        ),
    ];
    for (caps, lanes, fault) in table {
        assert_eq!(rt; fault_of(rt.alloc(), caps, lanes), Some(fault));
    }
}
