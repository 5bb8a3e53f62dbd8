ghost use Rattle.std.specs.Prelude.{◌≡◌, ◌+◌, ◌∷◌, ◌++◌, ◌<◌, ◌≤◌, [], length, IfOk};

use std::alloc::{AllocError, Global};
use std::marker::Model;

/// How many bytes may wait to be written.
const ROOM: usize = 4096;

/// The bytes that wait to be written, at most 4,096. Contracts see the list of them. All its memory is taken
/// when it is made.
#[derive(Debug, Drop)]
pub struct LineBuffer {
    bytes: Vec<u8>,
    len: usize,
}

impl Model for LineBuffer {
    ghost use Rattle.std.specs.Prelude.{◌≡◌, List, ℕ, length, take, ◌≤◌};

    ghost Value = { List ℕ };

    ghost view = { λ b. take b.len b.bytes.items };

    ghost invariant = { λ b. (length b.bytes.items ≡ 4096) × (b.len ≤ 4096) };
}

impl LineBuffer {
    /// A buffer in which nothing waits.
    pub fn new(alloc: Global) -> Result<Self, AllocError>
        ensures { IfOk result (λ b. b ≡ []) }
    {
        Ok(LineBuffer {
            bytes: vec![in alloc; 0; ROOM]?,
            len: 0,
        })
    }

    /// For how many bytes more there is room.
    #[inline(always)]
    pub fn room(&self) -> usize
        ensures { result + length self.now ≡ 4096 }
    {
        ROOM - self.len
    }

    /// Puts bytes behind those that wait, in the room that there is.
    #[inline(always)]
    pub fn push(&mut self, bytes: &[u8])
        requires room { length self.old + length bytes.now ≤ 4096 }
        ensures { self.new ≡ self.old ++ bytes.now }
    {
        let end = self.len + bytes.len();
        self.bytes[self.len..end].copy_from_slice(bytes);
        self.len = end;
    }

    /// Puts a byte behind those that wait, in the room that there is.
    #[inline(always)]
    pub fn push_byte(&mut self, byte: u8)
        requires room { length self.old < 4096 }
        ensures { self.new ≡ self.old ++ byte ∷ [] }
    {
        self.bytes[self.len] = byte;
        self.len += 1;
    }

    /// The bytes that wait.
    pub fn waiting(&self) -> &[u8]
        ensures { result.now ≡ self.now }
    {
        &self.bytes[..self.len]
    }

    /// Drops the bytes that wait.
    pub fn clear(&mut self)
        ensures { self.new ≡ [] }
    {
        self.len = 0;
    }
}
