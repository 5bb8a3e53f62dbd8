//! The writer's seat, with the journal and a copy of the key places.

ghost use Rattle.std.specs.Prelude.{◌≡◌, ◌≤◌, length};

use crate::view::TableSeat;
use acct_base::Write;
use std::marker::Model;

/// The one seat that writes. It is seen as the journal of all writes, and how many of them are published.
#[derive(Drop)]
pub struct Writer {
    pub(crate) seat: TableSeat,
    pub(crate) journal: Vec<Write>,
    pub(crate) places: Vec<u64>,
    pub(crate) front: u32,
}

impl Model for Writer {
    ghost use Rattle.reg_words.specs.Seats.{WriterState};

    ghost Value = { WriterState };

    ghost use Rattle.reg_words.specs.SeatOfWriter.{writer_state, IsWriterSeat};

    ghost view = { writer_state };

    ghost invariant = { IsWriterSeat };
}

impl Writer {
    /// How many writes there are. They are never more than the limit.
    pub fn made(&self) -> u32
        ensures made { result ≡ length self.now.journal }
        ensures within { result ≤ self.now.origin.limits.writes }
    {
        self.journal.len() as u32
    }

    /// How many writes are published.
    pub fn front(&self) -> u32
        ensures front { result ≡ self.now.front }
        ensures within { result ≤ length self.now.journal }
    {
        self.front
    }
}
