ghost use Rattle.std.specs.Prelude.{◌≡◌};
ghost use Rattle.dump_text.specs.declared.fault.DumpFault.TheVariants.{Memory, WriteFault};

use std::alloc::AllocError;

/// A write of the sink failed; the sink got a part from the dump's front.
#[derive(Clone, Copy, Debug, PartialEq, Eq)]
pub struct WriteFailed;

/// Why a dump was not written.
#[derive(Clone, Copy, Debug, PartialEq, Eq)]
pub enum DumpFault {
    /// A write of the sink failed; the sink got a part from the dump's front.
    WriteFault,
    /// Memory was wanting, and nothing was written.
    Memory,
}

impl From<AllocError> for DumpFault {
    ghost from_gives = { λ _ e. e ≡ Memory };

    fn from(_: AllocError) -> Self {
        DumpFault::Memory
    }
}

impl From<WriteFailed> for DumpFault {
    ghost from_gives = { λ _ e. e ≡ WriteFault };

    fn from(_: WriteFailed) -> Self {
        DumpFault::WriteFault
    }
}
