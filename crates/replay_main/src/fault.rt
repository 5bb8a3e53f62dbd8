//! The faults of a run.

ghost use Rattle.std.specs.Prelude.{◌≡◌, Some};
ghost use Rattle.captures.specs.declared.section.ResolveFault.TheVariants as resolving;
ghost use Rattle.script_text.specs.declared.fault.ScriptFault.TheVariants as script;
ghost use Rattle.replay_main.specs.Faults.{status_of, script_fault, resolve_fault, read_fault};
ghost use Rattle.replay_main.specs.declared.fault.Fault.TheVariants.{Memory};

use captures::ResolveFault;
use outside::ReadError;
use script_text::{ScriptFault, Which};
use std::alloc::{AllocError, AllocFailed};
use thiserror::Error;

/// Why a run did not do what it was asked. Its text is what the program prints on standard error.
#[derive(Clone, Copy, Debug, PartialEq, Eq, Error)]
pub enum Fault {
    /// The words are none that the program takes.
    #[error("usage: netacct replay [--receipts], plain [--receipts], check, gen N, bulk N")]
    Usage,
    /// A read of the source failed.
    #[error("read fault")]
    ReadFault,
    /// A write to the sink failed.
    #[error("write fault")]
    WriteFault,
    /// With this line the text is no script any more.
    #[error("syntax fault in line {line}")]
    Syntax { line: u64 },
    /// This line passes a limit of scripts.
    #[error("limit {which} passed in line {line}")]
    Limit { which: Which, line: u64 },
    /// A section's capture leaves its format at a place, in bytes from its begin. The line is the section's first
    /// line of capture.
    #[error("capture fault in line {line} at byte {place}")]
    CaptureBad { line: u64, place: u32 },
    /// The packet of this line is not in its section's capture, or is unusable.
    #[error("no packet for line {line}")]
    NoPacket { line: u64 },
    /// Memory was wanting.
    #[error("out of memory")]
    Memory,
}

impl Fault {
    /// The status with which the program ends.
    pub fn status(self) -> u8
        ensures { result ≡ status_of (Some self) }
    {
        match self {
            Fault::Usage => 2,
            Fault::ReadFault => 3,
            Fault::WriteFault => 4,
            Fault::Syntax { .. } => 5,
            Fault::Limit { .. } => 6,
            Fault::CaptureBad { .. } => 7,
            Fault::NoPacket { .. } => 8,
            Fault::Memory => 9,
        }
    }
}

impl From<AllocError> for Fault {
    ghost from_gives = { λ _ e. e ≡ Memory };

    fn from(_: AllocError) -> Self {
        Fault::Memory
    }
}

impl<T: Drop> From<AllocFailed<T>> for Fault {
    ghost from_gives = { λ _ e. e ≡ Memory };

    fn from(_: AllocFailed<T>) -> Self {
        Fault::Memory
    }
}

impl From<ReadError> for Fault {
    ghost from_gives = { λ fault e. e ≡ read_fault fault };

    fn from(fault: ReadError) -> Self {
        match fault {
            ReadError::Failed => Fault::ReadFault,
            ReadError::Memory => Fault::Memory,
        }
    }
}

impl From<ScriptFault> for Fault {
    ghost from_gives = { λ fault e. e ≡ script_fault fault };

    fn from(fault: ScriptFault) -> Self {
        match fault {
            ScriptFault::Syntax { line } => Fault::Syntax { line },
            ScriptFault::Limit { which, line } => Fault::Limit { which, line },
            ScriptFault::Memory => Fault::Memory,
        }
    }
}

impl From<ResolveFault> for Fault {
    ghost from_gives = { λ fault e. e ≡ resolve_fault fault };

    fn from(fault: ResolveFault) -> Self {
        match fault {
            ResolveFault::CaptureBad { line, place } => Fault::CaptureBad { line, place },
            ResolveFault::NoPacket { line } => Fault::NoPacket { line },
            ResolveFault::Memory => Fault::Memory,
        }
    }
}
