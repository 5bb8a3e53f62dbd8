//! The room for a journal.

ghost use Rattle.std.specs.Prelude.{◌≡◌, IfOk};

use std::alloc::{AllocError, Global};
use std::marker::Model;

/// Room for a journal. It is seen as the length of the longest journal that it holds.
#[derive(Drop)]
pub struct JournalRoom {
    writes: u32,
}

impl Model for JournalRoom {
    ghost use Rattle.std.specs.Prelude.{ℕ};

    ghost Value = { ℕ };

    ghost view = { λ room. room.writes };
}

impl JournalRoom {
    /// Room for every journal of up to so many writes. It takes no memory of its own: the writer keeps its
    /// journal in memory that it had from the start, and `Regs::close` hands that on.
    pub fn new(_alloc: Global, writes: u32) -> Result<JournalRoom, AllocError>
        ensures { IfOk result (λ room. room ≡ writes) }
    {
        Ok(JournalRoom { writes })
    }

    /// The length of the longest journal that it holds.
    pub fn writes(&self) -> u32
        ensures { result ≡ self.now }
    {
        self.writes
    }
}
