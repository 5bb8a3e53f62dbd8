//! The top call: a script is replayed on an engine, or what the words ask for is done on this thread.

ghost use Rattle.std.specs.Prelude.{◌≡◌, ◌≢◌, ◌⊎◌, ◌↔◌, ℕ, List, Option, Some, None, IfSome};
ghost use Rattle.std.specs.Io.KnownBytes.{Appends};
ghost use Rattle.shelf.specs.Shown.{shown};
ghost use Rattle.outside.specs.Outside.{Rose, AppendsPrefix, ConsumesUpTo};
ghost use Rattle.replay_main.specs.declared.fault.Fault.{Fault as Faulty};
ghost use Rattle.replay_main.specs.declared.words.Form.{Form as Asks};
ghost use Rattle.replay_main.specs.declared.words.Form.TheVariants.{Replay, Gen, Bulk};
ghost use Rattle.replay_main.specs.Words.{AreRounds, AskFor, IsGenerated, AreNoForm};
ghost use Rattle.replay_main.specs.Faults.{status_of};
ghost use Rattle.replay_main.specs.Bounds.{SumsAreSmall};
ghost use Rattle.replay_main.specs.Run.{HasRun, WasSo, TellsSo, DecidesOn, LooksLikeScript, IsOfText, judged_text};

use crate::bulk::replayed_in_bulk;
use crate::fault::Fault;
use crate::on_engine::replayed_on_engine;
use crate::outcome::{Outcome, refused, run_plain};
use crate::words::{Form, form_of};
use dump_text::{DumpFault, write_dump};
use hook_engine::Tally;
use outside::{ArgList, Gate, Sink, Source, write_all};
use std::alloc::Global;
use std::sync::Wait;
use std::thread::Threads;

/// Judges the script that a source has, replays it on an engine, and writes its dump.
fn replay_to<R: Threads + Wait + Sync, S: Source, K: Sink, G: Gate, T: Tally>(
    rt: &R,
    alloc: Global,
    receipts: bool,
    source: &mut S,
    sink: &mut K,
    gate: &G,
    tally: &mut T,
) -> Outcome
    ensures done { result.fault ≡ None → HasRun (Replay receipts) (S.left source.old) (S.left source.new) (T.told tally.old) (T.told tally.new) result.report (Appends (K.written sink.old) (K.written sink.new)) }
    ensures cut_off { result.fault ≡ Some Fault.WriteFault → HasRun (Replay receipts) (S.left source.old) (S.left source.new) (T.told tally.old) (T.told tally.new) result.report (AppendsPrefix (K.written sink.old) (K.written sink.new)) }
    ensures bound { ConsumesUpTo (S.left source.old) (S.left source.new) 268435457 }
    ensures read_fault { result.fault ≡ Some Fault.ReadFault → Rose (S.faults source.old) (S.faults source.new) }
    ensures write_fault { result.fault ≡ Some Fault.WriteFault → Rose (K.faults sink.old) (K.faults sink.new) }
    ensures script { result.fault ≡ None → WasSo LooksLikeScript (S.left source.old) }
    ensures usage { result.fault ≢ Some Fault.Usage }
    ensures decides { (f : Faulty) → result.fault ≡ Some f → IsOfText f → WasSo (DecidesOn f) (S.left source.old) }
    ensures refused { (f : Faulty) → result.fault ≡ Some f → f ≢ Fault.WriteFault → (result.report ≡ None) × (sink.new ≡ sink.old) }
    ensures small { IfSome result.report (λ report. SumsAreSmall (shown report)) }
    ensures status { result.status ≡ status_of result.fault }
{
    let report = match replayed_on_engine(rt, alloc, source, gate, tally) {
        Ok(report) => report,
        Err(fault) => return refused(fault),
    };
    match write_dump(alloc, sink, &report, receipts) {
        Ok(()) => Outcome {
            status: 0,
            fault: None,
            report: Some(report),
        },
        Err(DumpFault::WriteFault) => Outcome {
            status: Fault::WriteFault.status(),
            fault: Some(Fault::WriteFault),
            report: Some(report),
        },
        Err(DumpFault::Memory) => refused(Fault::Memory),
    }
}

/// Replays so many rounds of the generated script on an engine, and writes the summary.
fn bulk_to<R: Threads + Wait + Sync, K: Sink, G: Gate, T: Tally>(
    rt: &R,
    alloc: Global,
    rounds: u32,
    sink: &mut K,
    gate: &G,
    tally: &mut T,
) -> Outcome
    requires rounds { AreRounds rounds }
    ensures done { (left : Option (List ℕ)) → result.fault ≡ None → HasRun (Bulk rounds) left left (T.told tally.old) (T.told tally.new) result.report (Appends (K.written sink.old) (K.written sink.new)) }
    ensures cut_off { (left : Option (List ℕ)) → result.fault ≡ Some Fault.WriteFault → HasRun (Bulk rounds) left left (T.told tally.old) (T.told tally.new) result.report (AppendsPrefix (K.written sink.old) (K.written sink.new)) }
    ensures faults { (f : Faulty) → result.fault ≡ Some f → (f ≡ Fault.WriteFault) ⊎ (f ≡ Fault.Memory) }
    ensures write_fault { result.fault ≡ Some Fault.WriteFault → Rose (K.faults sink.old) (K.faults sink.new) }
    ensures refused { (f : Faulty) → result.fault ≡ Some f → f ≢ Fault.WriteFault → (result.report ≡ None) × (sink.new ≡ sink.old) }
    ensures small { IfSome result.report (λ report. SumsAreSmall (shown report)) }
    ensures status { result.status ≡ status_of result.fault }
{
    let (report, line) = match replayed_in_bulk(rt, alloc, rounds, gate, tally) {
        Ok(told) => told,
        Err(fault) => return refused(fault),
    };
    match write_all(sink, line.as_bytes()) {
        Ok(()) => Outcome {
            status: 0,
            fault: None,
            report: Some(report),
        },
        Err(_) => Outcome {
            status: Fault::WriteFault.status(),
            fault: Some(Fault::WriteFault),
            report: Some(report),
        },
    }
}

/// Does what the words ask for: with `replay` or `plain` it reads a script from the source to its end, replays it and
/// writes its dump to the sink; with `check` it judges the script and writes its counts; with `gen` it reads nothing and
/// writes the generated script; with `bulk` it reads nothing, replays the generated script and writes its summary.
///
/// With `replay` and `bulk` the lanes of a section run side by side on an engine, beside its desk. The gate is told of
/// each call, and the tally, once all sections ran, of what the engine's tables got. Such a run may wait, and its return
/// is not promised; the others return. Want of memory is the one fault that needs no cause.
pub fn run<R: Threads + Wait + Sync, S: Source, K: Sink, G: Gate, T: Tally>(
    rt: &R,
    alloc: Global,
    words: &ArgList,
    source: &mut S,
    sink: &mut K,
    gate: &G,
    tally: &mut T,
) -> Outcome
    // Without a fault all was read, replayed and written; after a write fault a front was written.
    ensures done { result.fault ≡ None → (form : Asks) × AskFor words.now form
        × HasRun form (S.left source.old) (S.left source.new) (T.told tally.old) (T.told tally.new) result.report (Appends (K.written sink.old) (K.written sink.new)) }
    ensures cut_off { result.fault ≡ Some Fault.WriteFault → (form : Asks) × AskFor words.now form
        × HasRun form (S.left source.old) (S.left source.new) (T.told tally.old) (T.told tally.new) result.report (AppendsPrefix (K.written sink.old) (K.written sink.new)) }

    // The causes of the faults. With `gen` only a write may fail, and with `bulk` that or memory.
    ensures usage { (result.fault ≡ Some Fault.Usage) ↔ AreNoForm words.now }
    ensures read_fault { result.fault ≡ Some Fault.ReadFault → Rose (S.faults source.old) (S.faults source.new) }
    ensures write_fault { result.fault ≡ Some Fault.WriteFault → Rose (K.faults sink.old) (K.faults sink.new) }
    ensures decides { (form : Asks) (f : Faulty) → AskFor words.now form → result.fault ≡ Some f → IsOfText f → WasSo (DecidesOn f) (judged_text form (S.left source.old)) }
    ensures generates { (rounds : ℕ) → AskFor words.now (Gen rounds) → (result.fault ≡ None) ⊎ (result.fault ≡ Some Fault.WriteFault) }
    ensures in_bulk { (rounds : ℕ) (f : Faulty) → AskFor words.now (Bulk rounds) → result.fault ≡ Some f → (f ≡ Fault.WriteFault) ⊎ (f ≡ Fault.Memory) }

    // Where nothing outside failed and memory was not wanting, a script is done, and another text has its fault.
    ensures complete { (form : Asks) → AskFor words.now form → TellsSo LooksLikeScript (judged_text form (S.left source.old)) →
        (Rose (S.faults source.old) (S.faults source.new) → ⊥) → (Rose (K.faults sink.old) (K.faults sink.new) → ⊥) →
        (result.fault ≡ None) ⊎ (result.fault ≡ Some Fault.Memory) }
    ensures exact { (form : Asks) (f : Faulty) → AskFor words.now form → TellsSo (DecidesOn f) (judged_text form (S.left source.old)) →
        (Rose (S.faults source.old) (S.faults source.new) → ⊥) → (Rose (K.faults sink.old) (K.faults sink.new) → ⊥) →
        (result.fault ≡ Some f) ⊎ (result.fault ≡ Some Fault.Memory) }

    // After every other fault there is no report, and the sink is as it was. Other words read nothing, and `gen` and `bulk` read nothing.
    ensures refused { (f : Faulty) → result.fault ≡ Some f → f ≢ Fault.WriteFault → (result.report ≡ None) × (sink.new ≡ sink.old) }
    ensures unread { result.fault ≡ Some Fault.Usage → source.new ≡ source.old }
    ensures made { (form : Asks) → IsGenerated form → AskFor words.now form → source.new ≡ source.old }

    // Whatever it comes to, no more bytes are read than show that a script has too many. A read that gives bytes gives one at least, so there are no more of those.
    ensures bound { ConsumesUpTo (S.left source.old) (S.left source.new) 268435457 }
    // What a report adds up is far below what its words hold.
    ensures small { IfSome result.report (λ report. SumsAreSmall (shown report)) }

    ensures status { result.status ≡ status_of result.fault }
{
    match form_of(words) {
        None => refused(Fault::Usage),
        Some(Form::Replay { receipts }) => replay_to(
            rt, alloc, receipts, source, sink, gate, tally,
        ),
        Some(Form::Plain { .. }) => run_plain(alloc, words, source, sink),
        Some(Form::Check) => run_plain(alloc, words, source, sink),
        Some(Form::Gen { .. }) => run_plain(alloc, words, source, sink),
        Some(Form::Bulk { rounds }) => bulk_to(rt, alloc, rounds, sink, gate, tally),
    }
}
