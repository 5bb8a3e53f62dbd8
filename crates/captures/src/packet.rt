use acct_base::Family;

/// A captured packet, from its IP header on. Its bytes are the capture's own.
#[derive(Clone, Copy, Debug)]
pub struct Packet<'a> {
    pub family: Family,
    /// The recorded length without the link head, in bytes, from 1 to 262,144.
    pub len: u32,
    /// The bytes that were captured behind the link head, at most as many as the packet is long.
    pub bytes: &'a [u8],
}
