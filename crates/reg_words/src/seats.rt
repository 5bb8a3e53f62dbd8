//! How seats are split, joined, and meet.

ghost use Rattle.std.specs.Prelude.{◌≡◌, ◌++◌, [], length, max};
ghost use Rattle.reg_words.specs.Journal.{longer};
ghost use Rattle.reg_words.specs.Origins.{IsSeatOf, IsSameSeat};
ghost use Rattle.reg_words.specs.Registers.{IsPrefix};
ghost use Rattle.reg_words.specs.declared.view.Kind.TheVariants.{Writer as AsWriter, Reader as AsReader};

use crate::reader::Reader;
use crate::regs::Regs;
use crate::steps::{JoinReader, Settle, SplitReader, TellWriter};
use crate::view::TableSeat;
use crate::words::Words;
use crate::writer::Writer;

/// The word of the first key place. Its loads tell what a join brought, and nothing counts them.
const FIRST_KEY: usize = 1;

impl Regs {
    /// A new reader that knows what this one knows, and has neither loaded the front nor read. It takes no memory
    /// and waits for nobody.
    pub fn split(&self, r: &mut Reader) -> Reader
        requires from { r.old.origin ≡ self.now }
        ensures first { r.new ≡ r.old }
        ensures other { result ≡ record r.old { loads = 0; loaded = 0; reads = [] } }
    {
        let seat = self
            .words
            .table
            .shared
            .split_seat::<SplitReader>(&mut r.seat);
        Reader { seat, seen: r.seen }
    }

    /// Takes another reader in. What either of the two knew is a prefix of what this one knows afterwards, and
    /// its reads are followed by the other's. It takes no memory and waits for nobody.
    pub fn join(&self, r: &mut Reader, other: Reader)
        requires from { r.old.origin ≡ self.now }
        requires other { other.origin ≡ self.now }
        ensures from { r.new.origin ≡ r.old.origin }
        ensures first { IsPrefix r.old.known r.new.known }
        ensures second { IsPrefix other.known r.new.known }
        ensures seen { length r.new.known ≡ max (length r.old.known) (length other.known) }
        ensures loads { (r.new.loads ≡ r.old.loads) × (r.new.loaded ≡ r.old.loaded) }
        ensures reads { r.new.reads ≡ r.old.reads ++ other.reads }
    {
        let Reader { seat, seen } = other;
        self.words.join_readers(&mut r.seat, seat);
        r.seen = r.seen.max(seen);
    }

    /// The reader learns the whole journal, published or not; what it knew is a prefix of it. Nothing else
    /// changes. One note goes each way, and it takes no memory and waits for nobody.
    pub fn meet(&self, r: &mut Reader, w: &mut Writer)
        requires reader { r.old.origin ≡ self.now }
        requires writer { w.old.origin ≡ self.now }
        ensures knows { r.new ≡ record r.old { known = w.old.journal } }
        ensures grows { IsPrefix r.old.known w.old.journal }
        ensures writer { w.new ≡ w.old }
    {
        self.words.tell(&mut r.seat, &mut w.seat);
        let note = self
            .words
            .table
            .shared
            .split_seat::<SplitReader>(&mut w.seat);
        self.words
            .table
            .shared
            .join_seat::<JoinReader>(&mut r.seat, note);
        r.seen = w.journal.len() as u32;
    }
}

impl Words {
    // Joins another reader's seat in, and loads a word that tells how the two lists stand to each other.
    fn join_readers(&self, seat: &mut TableSeat, other: TableSeat)
        requires table { IsSeatOf self.now seat.old × IsSeatOf self.now other }
        requires kinds { (seat.old.me.0.kind ≡ AsReader) × (other.me.0.kind ≡ AsReader) }
        requires slotless { other.me.1 ≡ [] }
        ensures seat { IsSameSeat seat.old seat.new }
        ensures known { seat.new.me.0.list ≡ longer seat.old.me.0.list other.me.0.list }
        ensures first { IsPrefix seat.old.me.0.list seat.new.me.0.list }
        ensures second { IsPrefix other.me.0.list seat.new.me.0.list }
        ensures view { seat.new.me.0 ≡ record seat.old.me.0 { list = seat.new.me.0.list; told = seat.new.me.0.told; reads = seat.old.me.0.reads ++ other.me.0.reads } }
    {
        self.table.shared.join_seat::<JoinReader>(seat, other);
        self.table.shared.load::<Settle>(seat, FIRST_KEY);
    }

    // The writer is told what the reader knows, which is a beginning of its journal.
    fn tell(&self, reader: &mut TableSeat, writer: &mut TableSeat)
        requires from { IsSeatOf self.now reader.old × IsSeatOf self.now writer.old }
        requires kinds { (reader.old.me.0.kind ≡ AsReader) × (writer.old.me.0.kind ≡ AsWriter) }
        ensures reader { IsSameSeat reader.old reader.new × (reader.new.me ≡ reader.old.me) }
        ensures writer { IsSameSeat writer.old writer.new × (writer.new.me.0 ≡ record writer.old.me.0 { told = reader.old.me.0.list }) }
        ensures prefix { IsPrefix reader.old.me.0.list writer.old.me.0.list }
    {
        let note = self.table.shared.split_seat::<SplitReader>(reader);
        self.table.shared.join_seat::<TellWriter>(writer, note);
        self.table.shared.load::<Settle>(writer, FIRST_KEY);
    }
}
