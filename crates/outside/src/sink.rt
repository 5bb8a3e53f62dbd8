ghost use Rattle.std.specs.Prelude.{ℕ, ◌<◌, ◌≤◌, List, Option, OnErr, IfOk, length, take};
ghost use Rattle.std.specs.Io.KnownBytes.{Appends, Keeps};
ghost use Rattle.outside.specs.Outside.{Rose};

use crate::source::Failed;

/// Where bytes go.
pub trait Sink {
    /// The bytes that were written, where they are told.
    ghost written: { Self → Option (List ℕ) };

    /// How often a write failed. It never falls, and stands still at the last value of a `u64`.
    ghost faults: { Self → ℕ };

    /// Writes some bytes from the front, at least one, and says how many. There has to be one.
    ///
    /// It fails only where the count of faults rose, and then writes nothing.
    fn write(&mut self, bytes: &[u8]) -> Result<usize, Failed>
        requires { 0 < length bytes.now }
        ensures some { IfOk result (λ n. 0 < n) }
        ensures bound { IfOk result (λ n. n ≤ length bytes.now) }
        ensures bytes { IfOk result (λ n.
            Appends (written self.old) (written self.new) (take n bytes.now)) }
        ensures failed { OnErr result (Rose (faults self.old) (faults self.new)) }
        ensures none_written { OnErr result (Keeps (written self.old) (written self.new)) }
        ensures count { faults self.old ≤ faults self.new };
}
