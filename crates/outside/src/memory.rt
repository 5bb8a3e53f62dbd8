ghost use Rattle.std.specs.Prelude.{◌≡◌, ◌<◌, ◌≤◌, Ok, Some, IfOk, OnErr, is_err, length, take, drop, [], ◌++◌};
ghost use Rattle.outside.specs.Memory.{Input, read_fails, read_count, after_read, after_failed_read};
ghost use Rattle.outside.specs.Memory.{Output, write_fails, write_count, after_write, after_failed_write};

use crate::sink::Sink;
use crate::source::{Failed, Source};
use std::alloc::{AllocError, Global};
use std::marker::Model;

/// A source over bytes in memory. It gives them in pieces, and fails the calls that it is told to
/// fail.
#[derive(Drop)]
pub struct MemSource {
    bytes: Vec<u8>,
    at: usize,
    piece: usize,
    fails: Vec<u64>,
    calls: u64,
    faults: u64,
}

impl Model for MemSource {
    ghost use Rattle.std.specs.Prelude.{drop, length, ◌≤◌};
    ghost use Rattle.outside.specs.Memory.{Input};

    ghost Value = { Input };

    ghost view = { λ s. record {
      left = drop s.at s.bytes.items;
      piece = s.piece;
      fails = s.fails.items;
      calls = s.calls;
      faults = s.faults;
    } };

    ghost invariant = { λ s. (s.at ≤ length s.bytes.items) × (1 ≤ s.piece) };
}

impl MemSource {
    /// Makes a source of a copy of the bytes. A call gives at most `piece` bytes, at least 1, and the
    /// calls whose numbers, from 1, are listed in `fails` fail.
    pub fn new(
        alloc: Global,
        bytes: &[u8],
        piece: usize,
        fails: &[u64],
    ) -> Result<MemSource, AllocError>
        requires { 1 ≤ piece }
        ensures { IfOk result (λ s. s ≡ record {
          left = bytes.now;
          piece = piece;
          fails = fails.now;
          calls = 0;
          faults = 0;
        }) }
    {
        Ok(MemSource {
            bytes: Vec::from_slice(alloc, bytes)?,
            at: 0,
            piece,
            fails: Vec::from_slice(alloc, fails)?,
            calls: 0,
            faults: 0,
        })
    }
}

impl Source for MemSource {
    ghost left = { λ s. Some s.left };

    ghost faults = { λ s. s.faults };

    /// Gives as many bytes as the piece, the buffer and what is left allow.
    fn read(&mut self, into: &mut [u8]) -> Result<usize, Failed>
        ensures fails { is_err result ≡ read_fails self.old }
        ensures failed { OnErr result (self.new ≡ after_failed_read self.old) }
        ensures untouched { OnErr result (into.new ≡ into.old) }

        ensures moved { IfOk result (λ n. n ≡ read_count self.old (length into.old)) }
        ensures taken { IfOk result (λ n. self.new ≡ after_read self.old n) }
        ensures given { IfOk result (λ n. into.new ≡ take n self.old.left ++ drop n into.old) }

        // A piece is not empty, and a count of faults never falls.
        ensures end { result ≡ Ok 0 → 0 < length into.old → self.new.left ≡ [] }
        ensures count { self.old.faults ≤ self.new.faults }
    {
        self.calls = self.calls.saturating_add(1);
        if self.fails.contains(&self.calls) {
            self.faults = self.faults.saturating_add(1);
            return Err(Failed);
        }
        let left = self.bytes.len() - self.at;
        let n = self.piece.min(into.len()).min(left);
        into[..n].copy_from_slice(&self.bytes[self.at..self.at + n]);
        self.at += n;
        Ok(n)
    }
}

/// A sink in memory. It takes bytes in pieces, as many as it has room for, and fails the calls that
/// it is told to fail.
#[derive(Drop)]
pub struct MemSink {
    bytes: Vec<u8>,
    room: usize,
    piece: usize,
    fails: Vec<u64>,
    calls: u64,
    faults: u64,
}

impl Model for MemSink {
    ghost use Rattle.std.specs.Prelude.{length, ◌≤◌, vec_capacity};
    ghost use Rattle.outside.specs.Memory.{Output};

    ghost Value = { Output };

    ghost view = { λ s. record {
      written = s.bytes.items;
      room = s.room;
      piece = s.piece;
      fails = s.fails.items;
      calls = s.calls;
      faults = s.faults;
    } };

    ghost invariant = { λ s. (length s.bytes.items ≤ s.room) × (s.room ≤ vec_capacity s.bytes)
        × (1 ≤ s.piece) };
}

impl MemSink {
    /// Makes a sink with room for `room` bytes, which is taken here and never grows. A call takes at
    /// most `piece` bytes, at least 1, and the calls whose numbers, from 1, are listed in `fails` fail.
    pub fn new(
        alloc: Global,
        room: usize,
        piece: usize,
        fails: &[u64],
    ) -> Result<MemSink, AllocError>
        requires { 1 ≤ piece }
        ensures { IfOk result (λ s. s ≡ record {
          written = [];
          room = room;
          piece = piece;
          fails = fails.now;
          calls = 0;
          faults = 0;
        }) }
    {
        Ok(MemSink {
            bytes: Vec::with_capacity(alloc, room)?,
            room,
            piece,
            fails: Vec::from_slice(alloc, fails)?,
            calls: 0,
            faults: 0,
        })
    }

    /// The bytes that were written.
    pub fn written(&self) -> &[u8]
        ensures { result.now ≡ self.now.written }
    {
        &self.bytes
    }
}

impl Sink for MemSink {
    ghost written = { λ s. Some s.written };

    ghost faults = { λ s. s.faults };

    /// Takes as many bytes as the piece, the bytes and the room allow. Without room it fails.
    fn write(&mut self, bytes: &[u8]) -> Result<usize, Failed>
        requires { 0 < length bytes.now }
        ensures fails { is_err result ≡ write_fails self.old }
        ensures failed { OnErr result (self.new ≡ after_failed_write self.old) }

        ensures moved { IfOk result (λ n. n ≡ write_count self.old (length bytes.now)) }
        ensures taken { IfOk result (λ n. self.new ≡ after_write self.old bytes.now n) }

        // A piece is not empty, and a count of faults never falls.
        ensures some { IfOk result (λ n. 0 < n) }
        ensures count { self.old.faults ≤ self.new.faults }
    {
        self.calls = self.calls.saturating_add(1);
        let space = self.room - self.bytes.len();
        if space == 0 || self.fails.contains(&self.calls) {
            self.faults = self.faults.saturating_add(1);
            return Err(Failed);
        }
        let n = self.piece.min(bytes.len()).min(space);
        self.bytes.extend_from_slice(&bytes[..n]).unwrap();
        Ok(n)
    }
}

#[cfg(test)]
mod tests {
    use super::*;
    use std::test::Fail;

    const TEXT: &[u8] = b"netacct 1\nsection\nlane\nend\n";

    #[test]
    fn a_source_gives_pieces_of_ten_bytes_and_its_third_call_fails(
        rt: HostRuntime,
    ) -> Result<(), Fail> {
        let mut source = MemSource::new(rt.alloc(), TEXT, 10, &[3])?;
        let mut into = [0; 12];
        for want in [Ok(10), Ok(10), Err(Failed), Ok(7), Ok(0)] {
            assert_eq!(rt; source.read(&mut into), want);
        }
        assert_eq!(rt; into, *b"ne\nend\n\nla\0\0");
        Ok(())
    }

    #[test]
    fn a_sink_takes_pieces_of_sixteen_bytes_and_its_second_call_fails(
        rt: HostRuntime,
    ) -> Result<(), Fail> {
        let mut sink = MemSink::new(rt.alloc(), 20, 16, &[2])?;
        for want in [Ok(16), Err(Failed), Ok(4), Err(Failed)] {
            assert_eq!(rt; sink.write(TEXT), want);
        }
        assert_eq!(rt; sink.written(), b"netacct 1\nsectioneta".as_slice());
        Ok(())
    }
}
