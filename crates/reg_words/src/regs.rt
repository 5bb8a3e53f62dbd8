//! The registers.

use crate::words::Words;
use std::marker::Model;

/// The registers, which one writer writes and any number of readers read. They are seen as where they come
/// from: their table, and their limits.
#[derive(Drop)]
pub struct Regs {
    pub(crate) words: Words,
}

impl Model for Regs {
    ghost use Rattle.reg_words.specs.Seats.{Origin};
    ghost use Rattle.reg_words.specs.Origins.{origin};

    ghost Value = { Origin };

    ghost view = { λ regs. origin regs.words };
}
