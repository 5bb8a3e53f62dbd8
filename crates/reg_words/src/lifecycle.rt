//! How registers begin and end.

ghost use Rattle.std.specs.Prelude.{◌≡◌, ◌≤◌, [], length, IfOk, replicate, ◌<◌, ◌^◌};
ghost use Rattle.acct_base.specs.Ranges.{AreRegSizes};

use crate::map_rows::rows_by;
use crate::place::total_of;
use crate::reader::Reader;
use crate::regs::Regs;
use crate::room::JournalRoom;
use crate::steps::SplitReader;
use crate::words::Words;
use crate::writer::Writer;
use acct_base::{RegSizes, WriteList};
use atomic_table::Table;
use std::alloc::{AllocError, Global};

// So many words that are all 0.
fn zeros(alloc: Global, count: u64) -> Result<Vec<u64>, AllocError>
    requires { count < 2 ^ 40 }
    ensures { IfOk result (λ words. words.items ≡ replicate count 0) }
{
    vec![in alloc; 0; count as usize]
}

impl Regs {
    /// Registers with these limits, their one writer, and a first reader. The journal is empty, and nothing is
    /// published. All memory that the registers and their seats ever need is taken here.
    pub fn new(alloc: Global, sizes: &RegSizes) -> Result<(Regs, Writer, Reader), AllocError>
        requires { AreRegSizes sizes.now }
        ensures limits { IfOk result (λ t. t.0.limits ≡ sizes.now) }
        ensures writer { IfOk result (λ t. t.1 ≡ record { origin = t.0; journal = []; front = 0 }) }
        ensures reader { IfOk result (λ t. t.2 ≡ record { origin = t.0; known = []; loads = 0; loaded = 0; reads = [] }) }
    {
        let total = total_of(sizes);
        let words = zeros(alloc, 1 + total + total + u64::from(sizes.writes))?;
        let places = zeros(alloc, total)?;
        let journal = Vec::with_capacity(alloc, sizes.writes as usize)?;
        let (table, mut seat) = Table::of_words(alloc, words.as_slice(), sizes)?;
        let other = table.shared.split_seat::<SplitReader>(&mut seat);
        let words = Words {
            table,
            limits: *sizes,
            map_rows: rows_by(sizes),
        };
        let writer = Writer {
            seat,
            journal,
            places,
            front: 0,
        };
        let reader = Reader {
            seat: other,
            seen: 0,
        };
        Ok((Regs { words }, writer, reader))
    }

    /// The journal, in the memory in which the writer kept it. The registers and all that their other seats
    /// knew are gone. It takes no memory and waits for nobody.
    pub fn close(self, w: Writer, room: JournalRoom) -> WriteList
        requires from { w.origin ≡ self }
        requires room { length w.journal ≤ room }
        ensures { result ≡ w.journal }
    {
        let _ = room;
        let Writer { journal, .. } = w;
        WriteList::from_vec(journal)
    }
}
