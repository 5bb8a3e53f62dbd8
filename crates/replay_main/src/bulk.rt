//! The generated script, replayed on an engine, and its summary.

ghost use Rattle.std.specs.Prelude.{◌≡◌, IfOk, IfErr, string_bytes};
ghost use Rattle.outside.specs.Generated.{generated};
ghost use Rattle.shelf.specs.Shown.{shown};
ghost use Rattle.replay_main.specs.Bounds.{SumsAreSmall};
ghost use Rattle.replay_main.specs.Run.{IsReplayed};
ghost use Rattle.replay_main.specs.Summary.{summary};
ghost use Rattle.replay_main.specs.Words.{AreRounds};

use crate::fault::Fault;
use crate::on_engine::replayed_on_engine;
use crate::summary::summary_line;
use hook_engine::Tally;
use outside::{Gate, GenSource};
use shelf::Report;
use std::alloc::Global;
use std::sync::Wait;
use std::thread::Threads;

/// Replays so many rounds of the generated script, and gives the report and its summary. Nothing but memory can be
/// wanting, since the text is a script. It may wait.
pub fn replayed_in_bulk<R: Threads + Wait + Sync, G: Gate, T: Tally>(
    rt: &R,
    alloc: Global,
    rounds: u32,
    gate: &G,
    tally: &mut T,
) -> Result<(Report, String), Fault>
    requires rounds { AreRounds rounds }
    ensures report { IfOk result (λ t. IsReplayed (generated rounds) t.0 (T.told tally.old) (T.told tally.new)) }
    ensures small { IfOk result (λ t. SumsAreSmall (shown t.0)) }
    ensures line { IfOk result (λ t. string_bytes t.1 ≡ summary rounds (shown t.0)) }
    ensures memory { IfErr result (λ fault. fault ≡ Fault.Memory) }
{
    let mut source = GenSource::new(rounds);
    let report = replayed_on_engine(rt, alloc, &mut source, gate, tally)?;
    let line = summary_line(alloc, rounds, &report)?;
    Ok((report, line))
}
