ghost use Rattle.std.specs.Prelude.{◌≡◌, ℕ, ◌<◌, ◌≤◌, List, Option, Ok, OnErr, IfOk, length, take};
ghost use Rattle.std.specs.Io.KnownBytes.{Consumes, Keeps, IsAtEnd};
ghost use Rattle.outside.specs.Outside.{Rose};

/// A read or a write failed. Its cause is the outside: the count of faults rose.
#[derive(Clone, Copy, Debug, PartialEq, Eq)]
pub struct Failed;

/// Where bytes come from.
pub trait Source {
    /// The bytes that reads will give from here on, where they are told.
    ghost left: { Self → Option (List ℕ) };

    /// How often a read failed. It never falls, and stands still at the last value of a `u64`.
    ghost faults: { Self → ℕ };

    /// Reads some bytes to the front of the buffer and says how many. None, for a buffer that is not
    /// empty, means the end of input.
    ///
    /// It fails only where the count of faults rose, and then takes nothing.
    fn read(&mut self, into: &mut [u8]) -> Result<usize, Failed>
        ensures bound { IfOk result (λ n. n ≤ length into.new) }
        ensures bytes { IfOk result (λ n.
            Consumes (left self.old) (left self.new) (take n into.new)) }
        ensures end { result ≡ Ok 0 → 0 < length into.old → IsAtEnd (left self.new) }
        ensures failed { OnErr result (Rose (faults self.old) (faults self.new)) }
        ensures none_lost { OnErr result (Keeps (left self.old) (left self.new)) }
        ensures count { faults self.old ≤ faults self.new };
}
