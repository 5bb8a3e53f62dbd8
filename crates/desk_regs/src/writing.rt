//! How writes go to the registers.

ghost use Rattle.std.specs.Prelude.{◌≡◌, ℕ, ◌++◌, ◌∷◌, [], take};
ghost use Rattle.std.specs.List.{AllByRecursion};
ghost use Rattle.acct_base.specs.Registers.{IsWellFormed, KeepsLimits};

use acct_base::Write;
use reg_words::{Regs, Writer};

// Appends a write for which the registers have room.
fn write_one(regs: &Regs, writer: &mut Writer, write: &Write)
    requires from { writer.old.origin ≡ regs.now }
    requires formed { IsWellFormed write.now }
    requires room { KeepsLimits writer.old.origin.limits (writer.old.journal ++ write.now ∷ []) }
    ensures { writer.new ≡ record writer.old { journal = writer.old.journal ++ write.now ∷ [] } }
{
    match regs.write(writer, write.key, write.value) {
        Ok(_) => {}
        // The book judged the limits before, so the registers refuse nothing.
        Err(_) => unreachable!(),
    }
}

/// Appends writes, in order. The registers have room for all of them, so none is refused.
pub(crate) fn write_all(regs: &Regs, writer: &mut Writer, writes: &[Write])
    requires from { writer.old.origin ≡ regs.now }
    requires formed { AllByRecursion IsWellFormed writes.now }
    requires room { KeepsLimits writer.old.origin.limits (writer.old.journal ++ writes.now) }
    ensures { writer.new ≡ record writer.old { journal = writer.old.journal ++ writes.now } }
{
    for write in writes {
        write_one(regs, writer, write);
    }
}
