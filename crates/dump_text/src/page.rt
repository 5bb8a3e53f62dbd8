//! Text that goes to a sink through a small buffer.

ghost use Rattle.std.specs.Prelude.{◌≡◌, ◌∷◌, ◌++◌, [], codes, decimal, true, false, OnOk, OnErr};
ghost use Rattle.std.specs.Io.KnownBytes.{Appends};
ghost use Rattle.outside.specs.Outside.{Rose, AppendsPrefix};
ghost use Rattle.dump_text.specs.Pages.{Puts, Sends, IsFresh};

use crate::buffer::LineBuffer;
use crate::fault::WriteFailed;
use itoa::{Buffer, Integer};
use outside::{Sink, write_all};

/// Text on its way to a sink. What is put waits in the buffer until the buffer is full. After a failed write
/// nothing more is written, and `finish` tells of it.
#[derive(Drop)]
pub struct Page<'a, K> {
    pub sink: &'a mut K,
    pub buffer: &'a mut LineBuffer,
    pub has_failed: bool,
}

impl<'a, K: Sink> Page<'a, K> {
    /// A page of which nothing is put yet.
    pub fn new(sink: &'a mut K, buffer: &'a mut LineBuffer) -> Page<'a, K>
        ensures sink { (result.sink.ghost_name ≡ sink.entry.ghost_name) × (result.sink.now ≡ sink.old) }
        ensures buffer { result.buffer.ghost_name ≡ buffer.entry.ghost_name }
        ensures fresh { IsFresh result }
    {
        buffer.clear();
        Page {
            sink,
            buffer,
            has_failed: false,
        }
    }

    // Writes what waits.
    fn flush(&mut self)
        ensures puts { Puts K.written K.faults self.old self.new [] }
        ensures empty { self.new.buffer.now ≡ [] }
    {
        self.has_failed = send(self.sink, self.buffer.waiting(), self.has_failed);
        self.buffer.clear();
    }

    // Puts bytes where none waits: what the buffer has no room for goes straight to the sink.
    fn put_alone(&mut self, bytes: &[u8])
        requires empty { self.old.buffer.now ≡ [] }
        ensures { Puts K.written K.faults self.old self.new bytes.now }
    {
        if bytes.len() <= self.buffer.room() {
            self.buffer.push(bytes);
        } else {
            self.has_failed = send(self.sink, bytes, self.has_failed);
        }
    }

    // Puts bytes for which the buffer may have too little room left.
    #[cold]
    #[inline(never)]
    fn put_later(&mut self, bytes: &[u8])
        ensures { Puts K.written K.faults self.old self.new bytes.now }
    {
        self.flush();
        self.put_alone(bytes);
    }

    /// Puts some bytes.
    #[inline(always)]
    pub fn put(&mut self, bytes: &[u8])
        ensures { Puts K.written K.faults self.old self.new bytes.now }
    {
        if bytes.len() <= self.buffer.room() {
            self.buffer.push(bytes);
        } else {
            self.put_later(bytes);
        }
    }

    /// Puts a byte.
    #[inline(always)]
    pub fn put_byte(&mut self, byte: u8)
        ensures { Puts K.written K.faults self.old self.new (byte ∷ []) }
    {
        if self.buffer.room() > 0 {
            self.buffer.push_byte(byte);
        } else {
            self.put_later(&[byte]);
        }
    }

    /// Puts a space and a word.
    pub fn word(&mut self, word: &[u8])
        ensures { Puts K.written K.faults self.old self.new (32 ∷ word.now) }
    {
        self.put(b" ");
        self.put(word);
    }

    /// Puts a number.
    pub fn digits<I: Integer>(&mut self, number: I)
        ensures { Puts K.written K.faults self.old self.new (I.text number) }
    {
        let mut text = Buffer::new();
        self.put(text.format(number).as_bytes());
    }

    /// Puts a space and a number.
    pub fn number<I: Integer>(&mut self, number: I)
        ensures { Puts K.written K.faults self.old self.new (32 ∷ I.text number) }
    {
        self.put(b" ");
        self.digits(number);
    }

    /// Puts the digits of a number of which most have one digit.
    #[inline(always)]
    pub fn short_digits(&mut self, number: u64)
        ensures { Puts K.written K.faults self.old self.new (decimal number) }
    {
        if number < 10 {
            self.put_byte(b'0' + number as u8);
        } else {
            self.digits(number);
        }
    }

    /// Puts a space and a number of which most have one digit.
    #[inline(always)]
    pub fn short_number(&mut self, number: u64)
        ensures { Puts K.written K.faults self.old self.new (32 ∷ decimal number) }
    {
        self.put_byte(b' ');
        self.short_digits(number);
    }

    /// Ends a line.
    pub fn end_line(&mut self)
        ensures { Puts K.written K.faults self.old self.new (10 ∷ []) }
    {
        self.put_byte(b'\n');
    }

    /// Writes what still waits, and tells whether all that was put is written.
    pub fn finish(&mut self) -> Result<(), WriteFailed>
        ensures puts { Puts K.written K.faults self.old self.new [] }
        ensures ok { OnOk result ((self.new.has_failed ≡ false) × (self.new.buffer.now ≡ [])) }
        ensures err { OnErr result (self.new.has_failed ≡ true) }
    {
        self.flush();
        if self.has_failed {
            Err(WriteFailed)
        } else {
            Ok(())
        }
    }
}

// Writes the bytes, unless a write failed before, and tells whether one failed by now.
fn send<K: Sink>(sink: &mut K, bytes: &[u8], had_failed: bool) -> bool
    ensures { Sends K.written K.faults sink.old sink.new had_failed result bytes.now }
{
    if had_failed {
        return true;
    }
    match write_all(sink, bytes) {
        Ok(()) => false,
        Err(_) => true,
    }
}
