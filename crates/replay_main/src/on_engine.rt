//! A script's replay on an engine: the lanes of a section run side by side, beside its desk.

ghost use Rattle.std.specs.Prelude.{◌≡◌, ◌+◌, ◌<◌, ◌≤◌, ◌^◌, ℕ, true, List, Option, length, IfOk, IfErr, IsErrOf};
ghost use Rattle.outside.specs.Outside.{Rose, ConsumesUpTo};
ghost use Rattle.script_text.specs.declared.header.Header.{Header as Headed};
ghost use Rattle.script_text.specs.Parts.{IsSection};
ghost use Rattle.script_text.specs.Script.{IsFirstHeader};
ghost use Rattle.captures.specs.Calls.{SectionCalls};
ghost use Rattle.captures.specs.Sections.{AreCalls, CaptureIsBad, NoPacketAt};
ghost use Rattle.shelf.specs.Shown.{shown};
ghost use Rattle.dump_text.specs.Room.{AppsCoverDeletions};
ghost use Rattle.hook_engine.specs.Ends.{EndedWhereTold, EngineClosed, room_for, Rest};
ghost use Rattle.hook_engine.specs.Passes.{IsSole};
ghost use Rattle.hook_engine.specs.Tables.{AreSeatsOf};
ghost use Rattle.lanes.specs.Crews.{IsReady, progress_of};
ghost use Rattle.replay_main.specs.declared.fault.Fault.{Fault as Faulty};
ghost use Rattle.replay_main.specs.Bounds.{SumsAreSmall};
ghost use Rattle.replay_main.specs.Faults.{IsJudgingFault};
ghost use Rattle.replay_main.specs.OnEngine.{IsOpened, MayRun, SectionAdds, RanSoFar, IsCallsFault};
ghost use Rattle.replay_main.specs.Reached.{IsRead};
ghost use Rattle.replay_main.specs.Replays.{report_of};
ghost use Rattle.replay_main.specs.Run.{WasSo, DecidesOn, IsOfText, IsReplayed};

use crate::fault::Fault;
use crate::incoming::Incoming;
use crate::laws::{honest_sums_are_small, replay_deletions_are_covered, replays_on_engines};
use acct_base::NameList;
use captures::resolve;
use collector::Collector;
use desk_core::Book;
use desk_regs::Desk;
use hook_engine::{CloseRoom, DeskSeats, Engine, EngineRest, Pass, Tally};
use lanes::{Crew, run_section};
use outside::{Gate, Source};
use script_text::{Header, Section, script_by_parts};
use shelf::{Report, SectionList};
use std::alloc::{AllocError, Global};
use std::sync::Wait;
use std::thread::Threads;

/// Judges and replays the script that a source has, on an engine of its own. Each section is run, and let go, before
/// the next is read. The gate is told of each call, and the tally of all that the engine's tables got.
///
/// It may wait, and its return is not promised.
pub fn replayed_on_engine<R: Threads + Wait + Sync, S: Source, G: Gate, T: Tally>(
    rt: &R,
    alloc: Global,
    source: &mut S,
    gate: &G,
    tally: &mut T,
) -> Result<Report, Fault>
    ensures report { IfOk result (λ r. (text : List ℕ) × IsRead (S.left source.old) (S.left source.new) text × IsReplayed text r (T.told tally.old) (T.told tally.new)) }
    ensures small { IfOk result (λ r. SumsAreSmall (shown r)) }
    ensures covers { IfOk result (λ r. AppsCoverDeletions (shown r)) }
    ensures bound { ConsumesUpTo (S.left source.old) (S.left source.new) 268435457 }
    ensures read_fault { IsErrOf result Fault.ReadFault → Rose (S.faults source.old) (S.faults source.new) }
    ensures decides { (f : Faulty) → IsErrOf result f → IsOfText f → WasSo (DecidesOn f) (S.left source.old) }
    ensures faults { IfErr result IsJudgingFault }
{
    replays_on_engines();
    replay_deletions_are_covered();
    honest_sums_are_small();
    let (header, mut script) = Incoming::begin(alloc, source)?;
    let (engine, crew, room) = opened(alloc, &header)?;
    let mut sections = SectionList::new(alloc);
    let crew = run_all(
        rt,
        alloc,
        &engine,
        crew,
        &mut script,
        source,
        &mut sections,
        gate,
    )?;
    let Header { names, .. } = header;
    Ok(ended(engine, crew, room, tally, names, sections))
}

// An engine for a script with this header, its crew, and room for what is left of it at the end.
fn opened(alloc: Global, header: &Header) -> Result<(Engine, Crew, CloseRoom), AllocError>
    requires header { IsFirstHeader header.now }
    ensures opened { IfOk result (λ t. IsOpened header.now t.0 t.1) }
    ensures room { IfOk result (λ t. t.2 ≡ room_for header.now.sizes) }
{
    let (engine, pass, seats) = Engine::new(alloc, &header.sizes)?;
    let DeskSeats {
        writer,
        collect,
        apps,
    } = seats;
    let book = Book::new(alloc, header.privileged.as_slice(), &header.sizes.regs)?;
    let room = CloseRoom::new(alloc, &header.sizes)?;
    let crew = Crew {
        pass,
        desk: Desk::new(writer, book),
        collector: Collector::new(alloc, collect, apps),
    };
    Ok((engine, crew, room))
}

// Reads and runs all sections of a script.
fn run_all<R: Threads + Wait + Sync, S: Source, G: Gate>(
    rt: &R,
    alloc: Global,
    engine: &Engine,
    crew: Crew,
    script: &mut Incoming,
    source: &mut S,
    sections: &mut SectionList,
    gate: &G,
) -> Result<Crew, Fault>
    requires so_far { (was : Option (List ℕ)) × ((header : Headed) × RanSoFar was (S.left source.old) script.old header engine.now crew sections.old) }
    ensures ran { (was : Option (List ℕ)) (header : Headed) → RanSoFar was (S.left source.old) script.old header engine.now crew sections.old →
        IfOk result (λ after. RanSoFar was (S.left source.new) script.new header engine.now after sections.new × (script.new.is_over ≡ true)) }
    ensures bound { (was : Option (List ℕ)) (header : Headed) → RanSoFar was (S.left source.old) script.old header engine.now crew sections.old →
        ConsumesUpTo was (S.left source.new) 268435457 }
    ensures read_fault { IsErrOf result Fault.ReadFault → Rose (S.faults source.old) (S.faults source.new) }
    ensures decides { (was : Option (List ℕ)) (header : Headed) → RanSoFar was (S.left source.old) script.old header engine.now crew sections.old →
        (f : Faulty) → IsErrOf result f → IsOfText f → WasSo (DecidesOn f) was }
    ensures faults { IfErr result IsJudgingFault }
    ensures count { S.faults source.old ≤ S.faults source.new }
{
    script_by_parts();
    let mut crew = crew;
    while let Some(section) = script.section(alloc, source)? {
        crew = run_one(rt, alloc, engine, crew, &section, sections, gate)?;
    }
    Ok(crew)
}

// Runs a section, and puts its receipts and replies behind those of the sections before.
fn run_one<R: Threads + Wait + Sync, G: Gate>(
    rt: &R,
    alloc: Global,
    engine: &Engine,
    crew: Crew,
    section: &Section,
    sections: &mut SectionList,
    gate: &G,
) -> Result<Crew, Fault>
    requires section { IsSection section.now }
    requires small { length section.now.capture ≤ 1048576 }
    requires numbered { section.now.first + 1 < 2 ^ 64 }
    requires crew { IsReady engine.now crew }
    requires room { (calls : SectionCalls) → AreCalls section.now calls → MayRun crew calls }
    ensures ran { IfOk result (λ after. SectionAdds engine.now crew section.now sections.old after sections.new) }
    ensures bad { (line place : ℕ) → IsErrOf result (Fault.CaptureBad line place) → CaptureIsBad section.now line place }
    ensures missing { (line : ℕ) → IsErrOf result (Fault.NoPacket line) → NoPacketAt section.now line }
    ensures faults { IfErr result IsCallsFault }
{
    let calls = resolve(alloc, section)?;
    let (crew, out) = run_section(rt, alloc, engine, crew, &calls, gate);
    sections.push(out?)?;
    Ok(crew)
}

// Tells the tally what the crew did, closes the engine, and makes the report.
fn ended<T: Tally>(
    engine: Engine,
    crew: Crew,
    room: CloseRoom,
    tally: &mut T,
    names: NameList,
    sections: SectionList,
) -> Report
    requires crew { IsReady engine crew }
    requires room { room ≡ room_for engine.sizes }
    ensures told { EndedWhereTold crew.pass.has crew.collector.seat.snapshots (T.told tally.old) (T.told tally.new) }
    ensures rest { (rest : Rest) × EngineClosed engine.sizes crew.pass.has crew.collector.seat.snapshots crew.desk.book.journal rest
        × (shown result ≡ report_of names sections (progress_of crew) rest) }
{
    let Crew {
        pass,
        desk,
        collector,
    } = crew;
    let mut collector = collector;
    tally.ended(&pass, collector.seat());
    let (collect, apps, shelf) = collector.into_parts();
    let seats = DeskSeats {
        writer: desk.into_writer(),
        collect,
        apps,
    };
    let EngineRest {
        live,
        journal,
        apps,
        ifaces,
    } = closed(engine, pass, seats, room);
    Report {
        names,
        sections,
        journal,
        shelf,
        live,
        apps,
        ifaces,
    }
}

// What is left of an engine whose crew is whole.
fn closed(engine: Engine, pass: Pass, seats: DeskSeats, room: CloseRoom) -> EngineRest
    requires pass { (pass.tables ≡ engine.tables) × IsSole engine.sizes.calls pass.has }
    requires seats { AreSeatsOf engine.tables seats.writer seats.collect seats.apps }
    requires room { room ≡ room_for engine.sizes }
    ensures { EngineClosed engine.sizes pass.has seats.collect.snapshots seats.writer.journal (record { live = result.live; journal = result.journal; apps = result.apps; ifaces = result.ifaces }) }
{
    match engine.close(pass, seats, room) {
        Ok(rest) => rest,
        // The crew's pass has all calls.
        Err(_) => unreachable!(),
    }
}
