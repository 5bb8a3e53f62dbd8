//! Who is told what an engine did, once it is done.

ghost use Rattle.std.specs.Prelude.{Option, None};
ghost use Rattle.hook_engine.specs.Ends.{Told, EndedWhereTold};

use crate::pass::Pass;
use grace_rows::CollectSeat;

/// Who is told, at the end of a replay, what the passes did and what the collector gave. A proof takes one to
/// show that a replay's receipts are those of the engine's tables.
pub trait Tally {
    /// What it was told, where it tells that.
    ghost told: { Self → Option Told };

    /// Appends the pass's charges, its adds to apps' and to interfaces' totals, its reads of the registers, and
    /// the snapshots that the collector's seat gave to what was told. Nothing else changes that.
    fn ended(&mut self, pass: &Pass, collect: &CollectSeat)
        ensures { EndedWhereTold pass.now.has collect.now.snapshots (told self.old) (told self.new) };
}

/// A tally that tells nothing, for a program: the lists are no data of it.
#[derive(Clone, Copy, Debug)]
pub struct NoTally;

impl Tally for NoTally {
    ghost told = { λ _. None };

    fn ended(&mut self, _pass: &Pass, _collect: &CollectSeat) {}
}
