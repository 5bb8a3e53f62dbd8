//! What a step is about, for the proof alone: a load has no operand that names the key. A call picks it at
//! `Brand` from its own arguments.

ghost use Rattle.std.specs.Prelude.{ℕ};
ghost use Rattle.acct_base.specs.declared.register.Key.{Key};
ghost use Rattle.acct_base.specs.declared.register.Key.TheVariants.{Enabled};

use std::marker::Brand;

/// The key of a step, with the turn of its look-up or the version of its read.
pub trait Subject {
    ghost key: { Key };

    ghost number: { ℕ };
}

impl Subject for Brand {
    ghost key = { Enabled };

    ghost number = { 0 };
}
