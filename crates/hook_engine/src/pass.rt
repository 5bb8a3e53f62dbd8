//! A pass.

ghost use Rattle.std.specs.Prelude.{◌≡◌, ◌+◌, ◌≤◌, ◌^◌};
ghost use Rattle.hook_engine.specs.Passes.{seen};

use grace_rows::HookSeat;
use reg_words::Reader;
use std::marker::Model;
use total_rows::TotalSeat;

/// The leave to make calls on an engine, as many as are left to it. It is seen as the calls left and made, the
/// last phase that it knows, the writes that it knows, and the lists of what its calls charged, added and read.
#[derive(Drop)]
pub struct Pass {
    pub(crate) reader: Reader,
    pub(crate) hook: HookSeat,
    pub(crate) apps: TotalSeat,
    pub(crate) ifaces: TotalSeat,
    pub(crate) left: u64,
    pub(crate) made: u64,
}

impl Model for Pass {
    ghost use Rattle.hook_engine.specs.Tables.{PassState};

    ghost Value = { PassState };

    ghost use Rattle.hook_engine.specs.PassInside.{pass_state, IsPass};

    ghost view = { pass_state };

    ghost invariant = { IsPass };
}

impl Pass {
    /// The calls that the pass may still make.
    pub fn left(&self) -> u64
        ensures value { result ≡ self.now.has.left }
        ensures few { self.now.has.left + self.now.has.made ≤ 2 ^ 28 }
    {
        self.left
    }

    /// The calls that the pass made.
    pub fn made(&self) -> u64
        ensures value { result ≡ self.now.has.made }
        ensures few { self.now.has.left + self.now.has.made ≤ 2 ^ 28 }
    {
        self.made
    }

    /// The last phase that the pass knows.
    pub fn phase(&self) -> u32
        ensures { result ≡ self.now.has.phase }
    {
        self.hook.phase()
    }

    /// How many writes the pass knows.
    pub fn seen(&self) -> u32
        ensures { result ≡ seen self.now.has }
    {
        self.reader.seen()
    }
}
