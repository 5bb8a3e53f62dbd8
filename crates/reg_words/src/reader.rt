//! A reader's seat.

ghost use Rattle.std.specs.Prelude.{◌≡◌, length};

use crate::view::TableSeat;
use std::marker::Model;

/// The seat of a reader. It is seen as the writes that it knows, which begin the journal; the number of its
/// loads of the front, with the front that the last of them gave; and the list of its reads with their answers.
#[derive(Drop)]
pub struct Reader {
    pub(crate) seat: TableSeat,
    pub(crate) seen: u32,
}

impl Model for Reader {
    ghost use Rattle.reg_words.specs.Seats.{ReaderState};

    ghost Value = { ReaderState };

    ghost use Rattle.reg_words.specs.SeatOfReader.{reader_state, IsReaderSeat};

    ghost view = { reader_state };

    ghost invariant = { IsReaderSeat };
}

impl Reader {
    /// How many writes the reader knows.
    pub fn seen(&self) -> u32
        ensures { result ≡ length self.now.known }
    {
        self.seen
    }
}
