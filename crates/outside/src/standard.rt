ghost use Rattle.std.specs.Prelude.{◌≡◌, ◌<◌, ◌≤◌, Ok, IfOk, OnOk, OnErr, length, take};
ghost use Rattle.std.specs.Io.KnownBytes.{Consumes, Appends, Keeps, IsAtEnd};
ghost use Rattle.outside.specs.Outside.{counted};
ghost use Rattle.outside.specs.Standard.{Counted};

use crate::sink::Sink;
use crate::source::{Failed, Source};
use std::io::{Read, Write};
use std::marker::Model;

/// A reader as a source. It tells the bytes that the reader tells, and counts the reader's errors.
///
/// What a real file or terminal gives is told by nobody: this is the trusted edge.
#[derive(Drop)]
pub struct StdSource<R> {
    reader: R,
    faults: u64,
}

impl<R> Model for StdSource<R> {
    ghost use Rattle.outside.specs.Standard.{Counted};

    ghost Value = { Counted R };

    ghost view = { λ s. record { inner = s.reader; faults = s.faults } };
}

impl<R> StdSource<R> {
    /// Makes a source of the reader. Its count of faults is 0.
    pub fn new(reader: R) -> StdSource<R>
        ensures { result ≡ record { inner = reader; faults = 0 } }
    {
        StdSource { reader, faults: 0 }
    }
}

impl<R: Read> Source for StdSource<R> {
    ghost left = { λ s. R.remaining s.inner };

    ghost faults = { λ s. s.faults };

    /// Passes on what the reader gives. Each of its errors is a fault.
    fn read(&mut self, into: &mut [u8]) -> Result<usize, Failed>
        ensures bound { IfOk result (λ n. n ≤ length into.new) }
        ensures bytes { IfOk result (λ n. Consumes (R.remaining self.old.inner)
            (R.remaining self.new.inner) (take n into.new)) }
        ensures end { result ≡ Ok 0 → 0 < length into.old → IsAtEnd (R.remaining self.new.inner) }
        ensures none_lost { OnErr result (Keeps (R.remaining self.old.inner)
            (R.remaining self.new.inner)) }

        // Each error of the inside is counted, and nothing else is.
        ensures steady { OnOk result (self.new.faults ≡ self.old.faults) }
        ensures failed { OnErr result (self.new.faults ≡ counted self.old.faults) }
        ensures count { self.old.faults ≤ self.new.faults }
    {
        match self.reader.read(into) {
            Ok(n) => Ok(n),
            Err(_) => {
                self.faults = self.faults.saturating_add(1);
                Err(Failed)
            }
        }
    }
}

/// A writer as a sink. It tells the bytes that the writer tells, and counts the writer's errors, and
/// each write that takes no byte.
///
/// What a real file or terminal takes is told by nobody: this is the trusted edge.
#[derive(Drop)]
pub struct StdSink<W> {
    writer: W,
    faults: u64,
}

impl<W> Model for StdSink<W> {
    ghost use Rattle.outside.specs.Standard.{Counted};

    ghost Value = { Counted W };

    ghost view = { λ s. record { inner = s.writer; faults = s.faults } };
}

impl<W> StdSink<W> {
    /// Makes a sink of the writer. Its count of faults is 0.
    pub fn new(writer: W) -> StdSink<W>
        ensures { result ≡ record { inner = writer; faults = 0 } }
    {
        StdSink { writer, faults: 0 }
    }
}

impl<W: Write> Sink for StdSink<W> {
    ghost written = { λ s. W.contents s.inner };

    ghost faults = { λ s. s.faults };

    /// Passes the bytes on to the writer. Each of its errors is a fault, and so is a write of no byte.
    fn write(&mut self, bytes: &[u8]) -> Result<usize, Failed>
        requires { 0 < length bytes.now }
        ensures some { IfOk result (λ n. 0 < n) }
        ensures bound { IfOk result (λ n. n ≤ length bytes.now) }
        ensures bytes { IfOk result (λ n. Appends (W.contents self.old.inner)
            (W.contents self.new.inner) (take n bytes.now)) }
        ensures none_written { OnErr result (Keeps (W.contents self.old.inner)
            (W.contents self.new.inner)) }

        // Each error of the inside is counted, and nothing else is.
        ensures steady { OnOk result (self.new.faults ≡ self.old.faults) }
        ensures failed { OnErr result (self.new.faults ≡ counted self.old.faults) }
        ensures count { self.old.faults ≤ self.new.faults }
    {
        match self.writer.write(bytes) {
            Ok(n) if n > 0 => Ok(n),
            _ => {
                self.faults = self.faults.saturating_add(1);
                Err(Failed)
            }
        }
    }
}

#[cfg(test)]
mod tests {
    use super::*;
    use std::io;

    #[derive(Drop)]
    struct Broken;

    impl Read for Broken {
        fn read(&mut self, _: &mut [u8]) -> io::Result<usize> {
            Err(io::Error::from(io::ErrorKind::BrokenPipe))
        }
    }

    #[test]
    fn a_reader_is_passed_on_and_its_error_is_a_fault(rt: HostRuntime) {
        let mut source = StdSource::new(b"netacct 1\n".as_slice());
        let mut into = [0; 8];
        for want in [Ok(8), Ok(2), Ok(0)] {
            assert_eq!(rt; source.read(&mut into), want);
        }
        assert_eq!(rt; into, *b"1\ntacct ");
        assert_eq!(rt; StdSource::new(Broken).read(&mut into), Err(Failed));
    }

    #[test]
    fn a_writer_is_passed_on_and_a_write_of_nothing_is_a_fault(rt: HostRuntime) {
        let mut room = [0; 8];
        let mut sink = StdSink::new(room.as_mut_slice());
        for want in [Ok(8), Err(Failed)] {
            assert_eq!(rt; sink.write(b"netacct 1\n"), want);
        }
        assert_eq!(rt; room, *b"netacct ");
    }
}
