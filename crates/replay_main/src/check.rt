//! The counts of a script.

ghost use Rattle.std.specs.Prelude.{◌≤◌, IfOk, IfErr, IsErrOf};
ghost use Rattle.outside.specs.Outside.{Rose, ConsumesUpTo};
ghost use Rattle.replay_main.specs.declared.fault.Fault.{Fault as Faulty};
ghost use Rattle.replay_main.specs.Faults.{IsJudgingFault};
ghost use Rattle.replay_main.specs.Reached.{IsRead, IsCheckedAs};
ghost use Rattle.replay_main.specs.Run.{WasSo, DecidesOn, IsOfText};
ghost use Rattle.std.specs.Prelude.{List, ℕ};

use crate::fault::Fault;
use crate::incoming::{Counted, Incoming};
use captures::resolve;
use outside::Source;
use script_text::{Counts, script_by_parts};
use std::alloc::Global;

/// Judges the script that a source has, and gives its counts.
pub fn checked<S: Source>(alloc: Global, source: &mut S) -> Result<Counts, Fault>
    ensures counts { IfOk result (λ counts. (text : List ℕ) × IsRead (S.left source.old) (S.left source.new) text × IsCheckedAs text counts) }
    ensures bound { ConsumesUpTo (S.left source.old) (S.left source.new) 268435457 }
    ensures read_fault { IsErrOf result Fault.ReadFault → Rose (S.faults source.old) (S.faults source.new) }
    ensures decides { (f : Faulty) → IsErrOf result f → IsOfText f → WasSo (DecidesOn f) (S.left source.old) }
    ensures faults { IfErr result IsJudgingFault }
    ensures count { S.faults source.old ≤ S.faults source.new }
{
    script_by_parts();
    let (_, mut script) = Incoming::begin(alloc, source)?;
    while let Some(counted) = script.count(alloc, source)? {
        match counted {
            Counted::Alone => {}
            Counted::Kept(section) => {
                let _ = resolve(alloc, &section)?;
            }
        }
    }
    Ok(script.counts())
}
