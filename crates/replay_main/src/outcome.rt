//! What a run comes to, and the runs that need no other thread: a script is read from a source, judged and replayed on this one, and what was asked for is written to a sink.

ghost use Rattle.std.specs.Prelude.{◌≡◌, ◌≢◌, ◌⊎◌, ◌↔◌, List, ℕ, Some, None, IfOk, IfErr, IfSome, OnOk, IsErrOf, string_bytes};
ghost use Rattle.std.specs.Io.KnownBytes.{Appends};
ghost use Rattle.outside.specs.Generated.{generated};
ghost use Rattle.shelf.specs.Shown.{shown};
ghost use Rattle.outside.specs.Outside.{Rose, AppendsPrefix, ConsumesUpTo};
ghost use Rattle.replay_main.specs.declared.fault.Fault.{Fault as Faulty};
ghost use Rattle.replay_main.specs.declared.words.Form.{Form as Asks};
ghost use Rattle.replay_main.specs.declared.words.Form.TheVariants.{Plain, Check, Gen};
ghost use Rattle.replay_main.specs.Words.{AreRounds, AskFor, IsPlainForm, IsGenerated, AreNoPlainForm};
ghost use Rattle.replay_main.specs.Faults.{status_of, IsJudgingFault};
ghost use Rattle.replay_main.specs.Reached.{IsRead};
ghost use Rattle.replay_main.specs.Bounds.{SumsAreSmall};
ghost use Rattle.replay_main.specs.Run.{HasRun, Gives, WasSo, TellsSo, DecidesOn, LooksLikeScript, IsOfText, judged_text, check_text};

use crate::check::checked;
use crate::fault::Fault;
use crate::generate::write_generated;
use crate::replay::replayed;
use crate::words::{Form, form_of};
use dump_text::{DumpFault, write_dump};
use outside::{ArgList, GenSource, Sink, Source, write_all};
use script_text::Counts;
use shelf::Report;
use std::alloc::{AllocError, Global};
use std::fmt::Write;

/// What a run came to.
#[derive(Drop)]
pub struct Outcome {
    /// 0 where all was written, else the fault's.
    pub status: u8,
    pub fault: Option<Fault>,
    /// What was replayed: at status 0, and at a write fault.
    pub report: Option<Report>,
}

/// What a run comes to that refuses what it was asked.
pub(crate) fn refused(fault: Fault) -> Outcome
    ensures { result ≡ record { status = status_of (Some fault); fault = Some fault; report = None } }
{
    Outcome {
        status: fault.status(),
        fault: Some(fault),
        report: None,
    }
}

/// Judges the script that a source has, replays it on this thread, and writes its dump.
fn plain_to<S: Source, K: Sink>(
    alloc: Global,
    receipts: bool,
    source: &mut S,
    sink: &mut K,
) -> Outcome
    ensures done { result.fault ≡ None → HasRun (Plain receipts) (S.left source.old) (S.left source.new) None None result.report (Appends (K.written sink.old) (K.written sink.new)) }
    ensures cut_off { result.fault ≡ Some Fault.WriteFault → HasRun (Plain receipts) (S.left source.old) (S.left source.new) None None result.report (AppendsPrefix (K.written sink.old) (K.written sink.new)) }
    ensures bound { ConsumesUpTo (S.left source.old) (S.left source.new) 268435457 }
    ensures read_fault { result.fault ≡ Some Fault.ReadFault → Rose (S.faults source.old) (S.faults source.new) }
    ensures write_fault { result.fault ≡ Some Fault.WriteFault → Rose (K.faults sink.old) (K.faults sink.new) }
    ensures script { result.fault ≡ None → WasSo LooksLikeScript (S.left source.old) }
    ensures usage { result.fault ≢ Some Fault.Usage }
    ensures decides { (f : Faulty) → result.fault ≡ Some f → IsOfText f → WasSo (DecidesOn f) (S.left source.old) }
    ensures refused { (f : Faulty) → result.fault ≡ Some f → f ≢ Fault.WriteFault → (result.report ≡ None) × (sink.new ≡ sink.old) }
    ensures small { IfSome result.report (λ report. SumsAreSmall (shown report)) }
    ensures status { result.status ≡ status_of result.fault }
{
    let report = match replayed(alloc, source) {
        Ok(report) => report,
        Err(fault) => return refused(fault),
    };
    match write_dump(alloc, sink, &report, receipts) {
        Ok(()) => Outcome {
            status: 0,
            fault: None,
            report: Some(report),
        },
        Err(DumpFault::WriteFault) => Outcome {
            status: Fault::WriteFault.status(),
            fault: Some(Fault::WriteFault),
            report: Some(report),
        },
        Err(DumpFault::Memory) => refused(Fault::Memory),
    }
}

/// The line that tells the counts of a script.
fn check_line(alloc: Global, counts: &Counts) -> Result<String, AllocError>
    ensures { IfOk result (λ line. string_bytes line ≡ check_text counts.now) }
{
    let mut line = String::new(alloc);
    write!(
        line,
        "check lines {} sections {} hooks {} desk {}\n",
        counts.lines, counts.sections, counts.hooks, counts.desk_lines
    )?;
    Ok(line)
}

/// Judges the script that a source has, and gives the line with its counts.
fn line_of<S: Source>(alloc: Global, source: &mut S) -> Result<String, Fault>
    ensures gives { IfOk result (λ line. (script : List ℕ) × IsRead (S.left source.old) (S.left source.new) script × Gives Check script None None None (string_bytes line)) }
    ensures script { OnOk result (WasSo LooksLikeScript (S.left source.old)) }
    ensures bound { ConsumesUpTo (S.left source.old) (S.left source.new) 268435457 }
    ensures read_fault { IsErrOf result Fault.ReadFault → Rose (S.faults source.old) (S.faults source.new) }
    ensures decides { (f : Faulty) → IsErrOf result f → IsOfText f → WasSo (DecidesOn f) (S.left source.old) }
    ensures faults { IfErr result IsJudgingFault }
{
    let counts = checked(alloc, source)?;
    let line = check_line(alloc, &counts)?;
    Ok(line)
}

/// Judges the script that a source has, and writes its counts.
fn check_to<S: Source, K: Sink>(alloc: Global, source: &mut S, sink: &mut K) -> Outcome
    ensures done { result.fault ≡ None → HasRun Check (S.left source.old) (S.left source.new) None None result.report (Appends (K.written sink.old) (K.written sink.new)) }
    ensures cut_off { result.fault ≡ Some Fault.WriteFault → HasRun Check (S.left source.old) (S.left source.new) None None result.report (AppendsPrefix (K.written sink.old) (K.written sink.new)) }
    ensures bound { ConsumesUpTo (S.left source.old) (S.left source.new) 268435457 }
    ensures read_fault { result.fault ≡ Some Fault.ReadFault → Rose (S.faults source.old) (S.faults source.new) }
    ensures write_fault { result.fault ≡ Some Fault.WriteFault → Rose (K.faults sink.old) (K.faults sink.new) }
    ensures script { result.fault ≡ None → WasSo LooksLikeScript (S.left source.old) }
    ensures usage { result.fault ≢ Some Fault.Usage }
    ensures decides { (f : Faulty) → result.fault ≡ Some f → IsOfText f → WasSo (DecidesOn f) (S.left source.old) }
    ensures refused { (f : Faulty) → result.fault ≡ Some f → f ≢ Fault.WriteFault → (result.report ≡ None) × (sink.new ≡ sink.old) }
    ensures status { result.status ≡ status_of result.fault }
{
    let line = match line_of(alloc, source) {
        Ok(line) => line,
        Err(fault) => return refused(fault),
    };
    match write_all(sink, line.as_bytes()) {
        Ok(()) => Outcome {
            status: 0,
            fault: None,
            report: None,
        },
        Err(_) => Outcome {
            status: Fault::WriteFault.status(),
            fault: Some(Fault::WriteFault),
            report: None,
        },
    }
}

/// Writes so many rounds of the generated script.
fn gen_to<K: Sink>(rounds: u32, sink: &mut K) -> Outcome
    requires rounds { AreRounds rounds }
    ensures done { result.fault ≡ None → Appends (K.written sink.old) (K.written sink.new) (generated rounds) }
    ensures cut_off { result.fault ≡ Some Fault.WriteFault → AppendsPrefix (K.written sink.old) (K.written sink.new) (generated rounds) }
    ensures write_fault { result.fault ≡ Some Fault.WriteFault → Rose (K.faults sink.old) (K.faults sink.new) }
    ensures faults { (result.fault ≡ None) ⊎ (result.fault ≡ Some Fault.WriteFault) }
    ensures report { result.report ≡ None }
    ensures status { result.status ≡ status_of result.fault }
{
    match write_generated(&mut GenSource::new(rounds), sink) {
        Ok(()) => Outcome {
            status: 0,
            fault: None,
            report: None,
        },
        Err(_) => refused(Fault::WriteFault),
    }
}

/// Does what the words ask for that need no other thread: with `plain` it reads a script from the source to its end,
/// replays it and writes its dump to the sink; with `check` it judges the script and writes its counts; with `gen` it
/// reads nothing and writes the generated script.
///
/// The words of `replay` and `bulk` are none of its words. Want of memory is the one fault that needs no cause.
pub fn run_plain<S: Source, K: Sink>(
    alloc: Global,
    words: &ArgList,
    source: &mut S,
    sink: &mut K,
) -> Outcome
    // Without a fault all was read, replayed and written; after a write fault a front was written.
    ensures done { result.fault ≡ None → (form : Asks) × IsPlainForm form × AskFor words.now form
        × HasRun form (S.left source.old) (S.left source.new) None None result.report (Appends (K.written sink.old) (K.written sink.new)) }
    ensures cut_off { result.fault ≡ Some Fault.WriteFault → (form : Asks) × IsPlainForm form × AskFor words.now form
        × HasRun form (S.left source.old) (S.left source.new) None None result.report (AppendsPrefix (K.written sink.old) (K.written sink.new)) }

    // The causes of the faults. With `gen` only a write may fail.
    ensures usage { (result.fault ≡ Some Fault.Usage) ↔ AreNoPlainForm words.now }
    ensures read_fault { result.fault ≡ Some Fault.ReadFault → Rose (S.faults source.old) (S.faults source.new) }
    ensures write_fault { result.fault ≡ Some Fault.WriteFault → Rose (K.faults sink.old) (K.faults sink.new) }
    ensures decides { (form : Asks) (f : Faulty) → AskFor words.now form → result.fault ≡ Some f → IsOfText f → WasSo (DecidesOn f) (judged_text form (S.left source.old)) }
    ensures generates { (rounds : ℕ) → AskFor words.now (Gen rounds) → (result.fault ≡ None) ⊎ (result.fault ≡ Some Fault.WriteFault) }

    // Where nothing outside failed and memory was not wanting, a script is done, and another text has its fault.
    ensures complete { (form : Asks) → IsPlainForm form → AskFor words.now form → TellsSo LooksLikeScript (judged_text form (S.left source.old)) →
        (Rose (S.faults source.old) (S.faults source.new) → ⊥) → (Rose (K.faults sink.old) (K.faults sink.new) → ⊥) →
        (result.fault ≡ None) ⊎ (result.fault ≡ Some Fault.Memory) }
    ensures exact { (form : Asks) (f : Faulty) → IsPlainForm form → AskFor words.now form → TellsSo (DecidesOn f) (judged_text form (S.left source.old)) →
        (Rose (S.faults source.old) (S.faults source.new) → ⊥) → (Rose (K.faults sink.old) (K.faults sink.new) → ⊥) →
        (result.fault ≡ Some f) ⊎ (result.fault ≡ Some Fault.Memory) }

    // After every other fault there is no report, and the sink is as it was. Other words read nothing, and `gen` reads nothing.
    ensures refused { (f : Faulty) → result.fault ≡ Some f → f ≢ Fault.WriteFault → (result.report ≡ None) × (sink.new ≡ sink.old) }
    ensures unread { result.fault ≡ Some Fault.Usage → source.new ≡ source.old }
    ensures made { (form : Asks) → IsGenerated form → AskFor words.now form → source.new ≡ source.old }

    // Whatever it comes to, no more bytes are read than show that a script has too many. A read that gives bytes gives one at least, so there are no more of those.
    ensures bound { ConsumesUpTo (S.left source.old) (S.left source.new) 268435457 }
    // What a report adds up is far below what its words hold.
    ensures small { IfSome result.report (λ report. SumsAreSmall (shown report)) }

    ensures status { result.status ≡ status_of result.fault }
{
    match form_of(words) {
        None => refused(Fault::Usage),
        Some(Form::Replay { .. }) => refused(Fault::Usage),
        Some(Form::Plain { receipts }) => plain_to(alloc, receipts, source, sink),
        Some(Form::Check) => check_to(alloc, source, sink),
        Some(Form::Gen { rounds }) => gen_to(rounds, sink),
        Some(Form::Bulk { .. }) => refused(Fault::Usage),
    }
}
