//! A script's replay on one thread.

ghost use Rattle.std.specs.Prelude.{◌≡◌, ◌-◌, ◌<◌, ◌≤◌, ℕ, true, List, Option, IfOk, IfErr, OnOk, IsErrOf, IsTrue, IsFalse};
ghost use Rattle.outside.specs.Outside.{Rose, ConsumesUpTo};
ghost use Rattle.script_text.specs.declared.header.Header.{Header as Headed};
ghost use Rattle.captures.specs.Runs.{nothing_yet};
ghost use Rattle.acct_plain.specs.Kept.{Tables, Keeps};
ghost use Rattle.shelf.specs.Shown.{shown};
ghost use Rattle.dump_text.specs.Room.{AppsCoverDeletions};
ghost use Rattle.replay_main.specs.declared.fault.Fault.{Fault as Faulty};
ghost use Rattle.replay_main.specs.Bounds.{SumsAreSmall};
ghost use Rattle.replay_main.specs.Faults.{IsJudgingFault};
ghost use Rattle.replay_main.specs.Reached.{IsRead, IsPlain};
ghost use Rattle.replay_main.specs.Incoming.{ReplayedSoFar};
ghost use Rattle.replay_main.specs.Run.{WasSo, DecidesOn, IsOfText};

use crate::fault::Fault;
use crate::incoming::Incoming;
use crate::laws::{honest_sums_are_small, serial_deletions_are_covered};
use acct_plain::{Plain, serial_is_honest};
use captures::resolve;
use outside::Source;
use script_text::{Header, script_by_parts};
use shelf::{Report, SectionList};
use std::alloc::Global;

/// Judges and replays the script that a source has. Each section is run, and let go, before the next is read.
pub fn replayed<S: Source>(alloc: Global, source: &mut S) -> Result<Report, Fault>
    ensures report { IfOk result (λ r. (text : List ℕ) × IsRead (S.left source.old) (S.left source.new) text × IsPlain text r) }
    ensures small { IfOk result (λ r. SumsAreSmall (shown r)) }
    ensures covers { IfOk result (λ r. AppsCoverDeletions (shown r)) }
    ensures bound { ConsumesUpTo (S.left source.old) (S.left source.new) 268435457 }
    ensures read_fault { IsErrOf result Fault.ReadFault → Rose (S.faults source.old) (S.faults source.new) }
    ensures decides { (f : Faulty) → IsErrOf result f → IsOfText f → WasSo (DecidesOn f) (S.left source.old) }
    ensures faults { IfErr result IsJudgingFault }
{
    serial_is_honest();
    serial_deletions_are_covered();
    honest_sums_are_small();
    let (header, mut script) = Incoming::begin(alloc, source)?;
    let mut plain = Plain::new(alloc, header.privileged.as_slice(), &header.sizes)?;
    let mut sections = SectionList::new(alloc);
    while run_next(alloc, &mut script, source, &mut plain, &mut sections)? {}
    let Header { names, .. } = header;
    let report = plain.finish(alloc, names, sections)?;
    Ok(report)
}

// Reads the next section, runs it, and says whether there was one.
fn run_next<S: Source>(
    alloc: Global,
    script: &mut Incoming,
    source: &mut S,
    plain: &mut Plain,
    sections: &mut SectionList,
) -> Result<bool, Fault>
    requires so_far { (was : Option (List ℕ)) × ((header : Headed) × ((first : Tables) ×
        (Keeps first nothing_yet 0 × ReplayedSoFar was (S.left source.old) script.old header first plain.old sections.old))) }
    ensures goes_on { (was : Option (List ℕ)) (header : Headed) (first : Tables) → ReplayedSoFar was (S.left source.old) script.old header first plain.old sections.old →
        OnOk result (ReplayedSoFar was (S.left source.new) script.new header first plain.new sections.new) }
    ensures longer { IfOk result (λ ran. IsTrue ran → 268435456 - script.new.counts.bytes < 268435456 - script.old.counts.bytes) }
    ensures over { IfOk result (λ ran. IsFalse ran → script.new.is_over ≡ true) }
    ensures bound { (was : Option (List ℕ)) (header : Headed) (first : Tables) → ReplayedSoFar was (S.left source.old) script.old header first plain.old sections.old →
        ConsumesUpTo was (S.left source.new) 268435457 }
    ensures read_fault { IsErrOf result Fault.ReadFault → Rose (S.faults source.old) (S.faults source.new) }
    ensures decides { (was : Option (List ℕ)) (header : Headed) (first : Tables) → ReplayedSoFar was (S.left source.old) script.old header first plain.old sections.old →
        (f : Faulty) → IsErrOf result f → IsOfText f → WasSo (DecidesOn f) was }
    ensures faults { IfErr result IsJudgingFault }
    ensures count { S.faults source.old ≤ S.faults source.new }
{
    script_by_parts();
    match script.section(alloc, source)? {
        None => Ok(false),
        Some(section) => {
            let calls = resolve(alloc, &section)?;
            let out = plain.section(alloc, &calls)?;
            sections.push(out)?;
            Ok(true)
        }
    }
}
