//! The parts of a script, as its source gives them.

ghost use Rattle.std.specs.Prelude.{◌≡◌, ◌⊎◌, ◌+◌, ◌≤◌, ◌<◌, [], ◌++◌, length, take, Ok, IfOk, OnOk, OnErr, IfSome, IfNone, IsErrOf};
ghost use Rattle.std.specs.Io.KnownBytes.{Consumes, Keeps, IsAtEnd};
ghost use Rattle.outside.specs.Outside.{Rose};
ghost use Rattle.outside.specs.declared.whole.ReadError.TheVariants.{Memory};
ghost use Rattle.script_text.specs.Faults.{BeginsSection};
ghost use Rattle.script_text.specs.Cuts.{EndsLine, IsUncut};
ghost use Rattle.replay_main.specs.Incoming.{IsReader, HasTaken, unfed, ahead, TakesPart};

use acct_base::ByteList;
use outside::{Failed, ReadError, Source};
use script_text::{Cutter, Fed};
use std::alloc::{AllocError, Global};
use std::mem;

/// How many bytes are asked for at once.
const PIECE: usize = 65_536;

/// As many bytes as show that a script has too many. No more are read.
const TOO_MANY: usize = 268_435_457;

/// A part of a script: its header, or a section.
#[derive(Drop)]
pub struct Part {
    pub bytes: ByteList,
    /// Whether the script ends with it.
    pub is_last: bool,
}

/// Reads a script from a source, part by part. It holds the part that is under way and a piece of what follows.
#[derive(Drop)]
pub struct Parts {
    cutter: Cutter,
    // The bytes that were read last. Those up to `fed` went to the cutter, and those from `filled` on are none.
    piece: Vec<u8>,
    fed: usize,
    filled: usize,
    // How many bytes were read in all.
    count: usize,
}

// Reads to the front of a piece, and at most so many bytes, and says how many. None means the end, unless none were asked for.
fn read_front<S: Source>(source: &mut S, piece: &mut [u8], most: usize) -> Result<usize, Failed>
    requires { most ≤ length piece.old }
    ensures bound { IfOk result (λ n. n ≤ most) }
    ensures size { length piece.new ≡ length piece.old }
    ensures bytes { IfOk result (λ n. Consumes (S.left source.old) (S.left source.new) (take n piece.new)) }
    ensures end { result ≡ Ok 0 → 0 < most → IsAtEnd (S.left source.new) }
    ensures failed { OnErr result (Rose (S.faults source.old) (S.faults source.new)) }
    ensures none_lost { OnErr result (Keeps (S.left source.old) (S.left source.new)) }
    ensures count { S.faults source.old ≤ S.faults source.new }
{
    source.read(&mut piece[..most])
}

impl Parts {
    /// One that has read nothing.
    pub fn new(alloc: Global) -> Result<Parts, AllocError>
        ensures reader { IfOk result IsReader }
        ensures ahead { IfOk result (λ p. ahead p ≡ []) }
        ensures count { IfOk result (λ p. p.count ≡ 0) }
    {
        Ok(Parts {
            cutter: Cutter::new(alloc),
            piece: vec![in alloc; 0; PIECE]?,
            fed: 0,
            filled: 0,
            count: 0,
        })
    }

    // Reads the next piece, once the last one was fed. It is empty only at the end, or where enough was read.
    fn refill<S: Source>(&mut self, source: &mut S) -> Result<(), ReadError>
        requires reader { IsReader self.old }
        ensures reader { IsReader self.new }
        ensures cutter { OnOk result (self.new.cutter ≡ self.old.cutter) }
        ensures read { OnOk result (Consumes (S.left source.old) (S.left source.new) (unfed self.new)) }
        ensures counted { OnOk result (self.new.count ≡ self.old.count + length (unfed self.new)) }
        ensures whole { OnOk result (length (unfed self.new) ≡ self.new.filled) }
        ensures taken { HasTaken (S.left source.old) (S.left source.new) self.old self.new }
        ensures end { OnOk result (unfed self.new ≡ [] → IsAtEnd (S.left source.new) ⊎ (self.new.count ≡ 268435457)) }
        ensures failed { IsErrOf result ReadError.Failed → Rose (S.faults source.old) (S.faults source.new) }
        ensures faults { S.faults source.old ≤ S.faults source.new }
    {
        let want = PIECE.min(TOO_MANY - self.count);
        let read = read_front(source, self.piece.as_mut_slice(), want)?;
        self.fed = 0;
        self.filled = read;
        self.count += read;
        Ok(())
    }

    // Feeds the cutter what is left of the piece, and gives the part that ends there, if one does.
    fn cut(&mut self) -> Result<Option<ByteList>, AllocError>
        requires reader { IsReader self.old }
        ensures reader { IsReader self.new }
        ensures count { self.new.count ≡ self.old.count }
        ensures none { IfOk result (λ r. IfNone r ((unfed self.new ≡ []) × (ahead self.new ≡ ahead self.old))) }
        ensures cut { IfOk result (λ r. IfSome r (λ part. ahead self.old ≡ part ++ ahead self.new)) }
        ensures uncut { IfOk result (λ r. IfSome r IsUncut) }
        ensures ends { IfOk result (λ r. IfSome r EndsLine) }
        ensures begins { IfOk result (λ r. IfSome r (λ part. BeginsSection (ahead self.new))) }
    {
        match self.cutter.feed(&self.piece[self.fed..self.filled])? {
            Fed::More => {
                self.fed = self.filled;
                Ok(None)
            }
            Fed::Part { taken, part } => {
                self.fed += taken as usize;
                Ok(Some(part))
            }
        }
    }

    /// The next part, which is the last one where the source ends, or where it gave more bytes than a script has.
    pub fn next<S: Source>(&mut self, alloc: Global, source: &mut S) -> Result<Part, ReadError>
        requires reader { IsReader self.old }
        ensures takes { IfOk result (λ part. TakesPart (S.left source.old) (S.left source.new) self.old self.new part.bytes part.is_last) }
        ensures taken { HasTaken (S.left source.old) (S.left source.new) self.old self.new }
        ensures failed { IsErrOf result ReadError.Failed → Rose (S.faults source.old) (S.faults source.new) }
        ensures faults { S.faults source.old ≤ S.faults source.new }
    {
        loop {
            if let Some(bytes) = self.cut()? {
                return Ok(Part {
                    bytes,
                    is_last: false,
                });
            }
            self.refill(source)?;
            if self.filled == 0 {
                let cutter = mem::replace(&mut self.cutter, Cutter::new(alloc));
                return Ok(Part {
                    bytes: cutter.end(),
                    is_last: true,
                });
            }
        }
    }
}
