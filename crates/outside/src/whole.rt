ghost use Rattle.std.specs.Prelude.{◌≡◌, ◌⊎◌, ◌≤◌, vec_len, IfOk, OnOk, OnErr, IsErrOf};
ghost use Rattle.std.specs.Io.KnownBytes.{Consumes, Appends, IsAtEnd};
ghost use Rattle.outside.specs.Outside.{Rose, ConsumesUpTo, AppendsPrefix};
ghost use Rattle.outside.specs.declared.whole.ReadError.TheVariants.{Memory, Failed as ReadFailed};

use crate::sink::Sink;
use crate::source::{Failed, Source};
use std::alloc::{AllocError, Global};

/// How many bytes `read_all` asks for at once.
const PIECE: usize = 65_536;

/// Why `read_all` has no bytes to give.
#[derive(Clone, Copy, Debug, PartialEq, Eq)]
pub enum ReadError {
    /// A read failed: the source's count of faults rose.
    Failed,
    /// Memory ran out.
    Memory,
}

impl From<AllocError> for ReadError {
    ghost from_gives = { λ _ e. e ≡ Memory };

    fn from(_: AllocError) -> Self {
        ReadError::Memory
    }
}

impl From<Failed> for ReadError {
    ghost from_gives = { λ _ e. e ≡ ReadFailed };

    fn from(_: Failed) -> Self {
        ReadError::Failed
    }
}

/// Reads to the end of the source, or until it has `most` bytes, and gives what was read.
///
/// With fewer than `most` bytes nothing is left. With `most` of them more may be left: ask for one
/// byte more than is wanted to see that there are too many. After an error the bytes that were read
/// are gone from the source, and no others.
pub fn read_all<S: Source>(alloc: Global, source: &mut S, most: usize) -> Result<Vec<u8>, ReadError>
    ensures bytes { IfOk result (λ v. Consumes (S.left source.old) (S.left source.new) v.items) }
    ensures bound { IfOk result (λ v. vec_len v ≤ most) }
    ensures whole { IfOk result (λ v. (vec_len v ≡ most) ⊎ IsAtEnd (S.left source.new)) }

    ensures failed { IsErrOf result ReadError.Failed →
        Rose (S.faults source.old) (S.faults source.new) }
    ensures prefix { OnErr result (ConsumesUpTo (S.left source.old) (S.left source.new) most) }
    ensures count { S.faults source.old ≤ S.faults source.new }
{
    let mut bytes = Vec::new(alloc);
    let mut piece = [0; PIECE];
    while bytes.len() < most {
        let want = piece.len().min(most - bytes.len());
        let n = source.read(&mut piece[..want])?;
        if n == 0 {
            return Ok(bytes);
        }
        bytes.extend_from_slice(&piece[..n])?;
    }
    Ok(bytes)
}

/// Writes all of the bytes.
///
/// After an error the sink got a part of them from the front, and its count of faults rose.
pub fn write_all<K: Sink>(sink: &mut K, bytes: &[u8]) -> Result<(), Failed>
    ensures ok { OnOk result (Appends (K.written sink.old) (K.written sink.new) bytes.now) }

    ensures failed { OnErr result (Rose (K.faults sink.old) (K.faults sink.new)) }
    ensures prefix { OnErr result
        (AppendsPrefix (K.written sink.old) (K.written sink.new) bytes.now) }
    ensures count { K.faults sink.old ≤ K.faults sink.new }
{
    let mut rest = bytes;
    while !rest.is_empty() {
        let n = sink.write(rest)?;
        (_, rest) = rest.split_at(n);
    }
    Ok(())
}

#[cfg(test)]
mod tests {
    use super::*;
    use crate::{MemSink, MemSource};
    use std::test::Fail;

    const TEXT: &[u8] = b"netacct 1\nsection\nlane\nend\n";

    #[test]
    fn all_is_read_unless_a_call_fails(rt: HostRuntime) -> Result<(), Fail> {
        let alloc = rt.alloc();
        let mut whole = MemSource::new(alloc, TEXT, 10, &[])?;
        assert_eq!(rt; read_all(alloc, &mut whole, 100)?.as_slice(), TEXT);
        let mut broken = MemSource::new(alloc, TEXT, 10, &[3])?;
        assert!(rt; matches!(read_all(alloc, &mut broken, 100), Err(ReadError::Failed)));
        Ok(())
    }

    #[test]
    fn all_is_written_unless_a_call_fails(rt: HostRuntime) -> Result<(), Fail> {
        for (fails, want) in [(0, Ok(())), (2, Err(Failed))] {
            let mut sink = MemSink::new(rt.alloc(), 100, 16, &[fails])?;
            assert_eq!(rt; write_all(&mut sink, TEXT), want);
            let written = if want.is_ok() {
                TEXT
            } else {
                b"netacct 1\nsectio"
            };
            assert_eq!(rt; sink.written(), written);
        }
        Ok(())
    }
}
