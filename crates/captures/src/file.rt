ghost use Rattle.std.specs.Prelude.{◌≡◌, ◌+◌, ◌≤◌, length};
ghost use Rattle.captures.specs.Pcap.{number_at, order_by_magic, file_head};

use crate::link::Link;
use byteorder::{BigEndian, ByteOrder, LittleEndian};

/// How many bytes a file's head has.
pub(crate) const FILE_HEAD: usize = 24;

/// The order in which the numbers of a file have their bytes.
#[derive(Clone, Copy, Debug, PartialEq, Eq)]
pub(crate) enum Endian {
    /// The highest byte first.
    Big,
    /// The lowest byte first.
    Little,
}

impl Endian {
    /// The order of a file with this magic, which is read highest byte first. Times in microseconds and in
    /// nanoseconds have magics of their own.
    fn by_magic(magic: u32) -> Option<Endian>
        ensures { result ≡ order_by_magic magic }
    {
        match magic {
            0xa1b2_c3d4 | 0xa1b2_3c4d => Some(Endian::Big),
            0xd4c3_b2a1 | 0x4d3c_b2a1 => Some(Endian::Little),
            _ => None,
        }
    }

    /// The number in the two bytes at a place.
    pub(crate) fn number16(self, bytes: &[u8], place: usize) -> u16
        requires { place + 2 ≤ length bytes.now }
        ensures { result ≡ number_at self 2 place bytes.now }
    {
        match self {
            Endian::Big => BigEndian::read_u16(&bytes[place..]),
            Endian::Little => LittleEndian::read_u16(&bytes[place..]),
        }
    }

    /// The number in the four bytes at a place.
    pub(crate) fn number32(self, bytes: &[u8], place: usize) -> u32
        requires { place + 4 ≤ length bytes.now }
        ensures { result ≡ number_at self 4 place bytes.now }
    {
        match self {
            Endian::Big => BigEndian::read_u32(&bytes[place..]),
            Endian::Little => LittleEndian::read_u32(&bytes[place..]),
        }
    }
}

/// What the head of a file tells of its packets.
#[derive(Clone, Copy, Debug, PartialEq, Eq)]
pub(crate) struct FileHead {
    pub(crate) order: Endian,
    pub(crate) link: Link,
}

impl FileHead {
    /// The head of a file with these bytes, or the place of the first number there that no file of version
    /// 2.4 and of a known link type has.
    pub(crate) fn read(bytes: &[u8]) -> Result<FileHead, u32>
        ensures { result ≡ file_head bytes.now }
    {
        if bytes.len() < FILE_HEAD {
            return Err(0);
        }
        let Some(order) = Endian::by_magic(Endian::Big.number32(bytes, 0)) else {
            return Err(0);
        };
        if order.number16(bytes, 4) != 2 || order.number16(bytes, 6) != 4 {
            return Err(4);
        }
        match Link::by_number(order.number32(bytes, 20)) {
            Some(link) => Ok(FileHead { order, link }),
            None => Err(20),
        }
    }
}
