ghost use Rattle.std.specs.Prelude.{◌≡◌, ◌≤◌, length, option_map};
ghost use Rattle.captures.specs.Pcap.{link_by_number, link_head, link_family, family_by_protocol, family_by_version, held_of};
ghost use Rattle.captures.specs.Packets.{held};

use crate::file::Endian;
use crate::packet::Packet;
use acct_base::Family;

/// The greatest recorded length of a packet, in bytes.
const MOST_LEN: u32 = 262_144;

/// What stands before the IP header in a captured packet.
#[derive(Clone, Copy, Debug, PartialEq, Eq)]
pub(crate) enum Link {
    /// An Ethernet frame.
    Ethernet,
    /// Nothing.
    RawIp,
    /// The head that Linux writes where the link's own was not captured.
    Cooked,
    /// The second version of that head.
    CookedTwo,
}

impl Link {
    /// The link of a link type, as the registry of pcap numbers them.
    pub(crate) fn by_number(number: u32) -> Option<Link>
        ensures { result ≡ link_by_number number }
    {
        match number {
            1 => Some(Link::Ethernet),
            101 => Some(Link::RawIp),
            113 => Some(Link::Cooked),
            276 => Some(Link::CookedTwo),
            _ => None,
        }
    }

    /// How many bytes stand before the IP header.
    pub(crate) fn head(self) -> u32
        ensures { result ≡ link_head self }
    {
        match self {
            Link::Ethernet => 14,
            Link::RawIp => 0,
            Link::Cooked => 16,
            Link::CookedTwo => 20,
        }
    }

    /// The packet of so many original bytes, of which these were captured; None where it is unusable.
    pub(crate) fn packet<'a>(self, original: u32, captured: &'a [u8]) -> Option<Packet<'a>>
        ensures { option_map held result ≡ held_of self original captured.now }
    {
        let head = self.head();
        let len = original.saturating_sub(head);
        if captured.len() < head as usize || len == 0 || len > MOST_LEN {
            return None;
        }
        Some(Packet {
            family: self.family(captured),
            len,
            bytes: &captured[head as usize..],
        })
    }

    /// The family of a packet with these captured bytes, whose link head is there.
    pub(crate) fn family(self, captured: &[u8]) -> Family
        requires { link_head self ≤ length captured.now }
        ensures { result ≡ link_family self captured.now }
    {
        match self {
            Link::Ethernet => family_of_protocol(Endian::Big.number16(captured, 12)),
            Link::RawIp => family_of_version(captured.first().copied()),
            Link::Cooked => family_of_protocol(Endian::Big.number16(captured, 14)),
            Link::CookedTwo => family_of_protocol(Endian::Big.number16(captured, 0)),
        }
    }
}

/// The family of a protocol number of Ethernet.
fn family_of_protocol(protocol: u16) -> Family
    ensures { result ≡ family_by_protocol protocol }
{
    match protocol {
        0x0800 => Family::V4,
        0x86dd => Family::V6,
        _ => Family::Other,
    }
}

/// The family of a packet without a link head, by the version in the high half of its first byte.
fn family_of_version(first: Option<u8>) -> Family
    ensures { result ≡ family_by_version first }
{
    match first {
        None => Family::Other,
        Some(byte) => match byte / 16 {
            4 => Family::V4,
            6 => Family::V6,
            _ => Family::Other,
        },
    }
}
