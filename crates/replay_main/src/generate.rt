//! The generated script, copied to a sink.

ghost use Rattle.std.specs.Prelude.{OnOk, OnErr};
ghost use Rattle.std.specs.Io.KnownBytes.{Appends};
ghost use Rattle.outside.specs.Outside.{Rose, AppendsPrefix};

use outside::{Failed, GenSource, Sink, Source, write_all};

/// How many bytes are copied at once.
const PIECE: usize = 4_096;

/// Writes all that is left of a generated script, in pieces. After an error the sink got a front of it, and its
/// count of faults rose.
pub fn write_generated<K: Sink>(source: &mut GenSource, sink: &mut K) -> Result<(), Failed>
    ensures ok { OnOk result (Appends (K.written sink.old) (K.written sink.new) source.old) }
    ensures prefix { OnErr result (AppendsPrefix (K.written sink.old) (K.written sink.new) source.old) }
    ensures failed { OnErr result (Rose (K.faults sink.old) (K.faults sink.new)) }
{
    let mut piece = [0; PIECE];
    loop {
        let read = source.read(&mut piece)?;
        if read == 0 {
            return Ok(());
        }
        write_all(sink, &piece[..read])?;
    }
}
