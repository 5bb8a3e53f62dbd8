//! A section of a script: its capture, its lanes and its desk.

ghost use Rattle.std.specs.Prelude.{◌≡◌, ◌≤◌, ◌+◌, ◌^◌, ℕ, List, [], length, IfOk, OnOk, IsErrOf};
ghost use Rattle.script_text.specs.declared.fault.Which.{Which};
ghost use Rattle.script_text.specs.declared.place.Place.TheVariants.{Next};
ghost use Rattle.script_text.specs.Parts.{section_text};
ghost use Rattle.script_text.specs.Limits.{counts_after, IsWithinLimits, tally_before};
ghost use Rattle.script_text.specs.Faults.{BeginsSection, IsPart, FailsAt, SyntaxAt, LimitAt};
ghost use Rattle.script_text.specs.Script.{IsNextSection};
ghost use Rattle.script_text.specs.declared.limits.Tally.{Tally};
ghost use Rattle.script_text.specs.Limits.{IsSmall};
ghost use Rattle.script_text.specs.Drafts.{draft_lines, IsDraft, DraftAt, IsReadTo};

use crate::draft::Draft;
use crate::fault::ScriptFault;
use crate::lane::HookLineList;
use crate::limits::{Counts, tally_of};
use crate::place::Place;
use crate::reader::Reader;
use acct_base::{ByteList, List, NameList};
use desk_core::Command;
use std::alloc::{AllocError, Global};

/// The lanes of a section, in order.
pub type LaneLineList = List<HookLineList>;

/// The lines of a desk, in order, each with the number of its line in the script.
pub type DeskLineList = List<(u64, Command)>;

/// How many bytes the `cap` lines have, in order.
pub type CapList = List<u32>;

/// A section of a script.
#[derive(Debug, Drop)]
pub struct Section {
    /// The number of its line `section`, from 1.
    pub first: u64,
    /// Its capture: the bytes of its `cap` lines put together.
    pub capture: ByteList,
    /// How many bytes each `cap` line has.
    pub caps: CapList,
    /// Its lanes, whose lines have their numbers.
    pub lanes: LaneLineList,
    /// Its desk, if it has one, whose lines have their numbers.
    pub desk: Option<DeskLineList>,
}

/// Reads a section, from its line `section` up to the next such line or the end, behind what these counts are of,
/// and counts what was read with all that stands before it.
///
/// Syntax names the first line with which the bytes are no section any more, and Limit the first line that passes a
/// limit, whichever comes first; on one line the limits on bytes come before Syntax, and the others after it.
pub fn parse_section(
    alloc: Global,
    bytes: &[u8],
    before: &Counts,
) -> Result<(Section, Counts), ScriptFault>
    requires begins { BeginsSection bytes.now }
    requires limits { IsWithinLimits before.now }
    requires lines { before.now.lines ≤ before.now.bytes }
    ensures section { IfOk result (λ p. IsNextSection before.now p.0) }
    ensures counts { IfOk result (λ p. p.1 ≡ counts_after before.now p.0) }
    ensures limits { IfOk result (λ p. IsWithinLimits p.1) }
    ensures lines { IfOk result (λ p. p.1.lines ≤ p.1.bytes) }
    ensures spelled { IfOk result (λ p. IsPart (section_text p.0) bytes.now) }
    ensures syntax { (line : ℕ) → IsErrOf result (ScriptFault.Syntax line) →
        FailsAt Next (tally_before before.now) bytes.now (before.now.lines + 1) line SyntaxAt }
    ensures limit { (w : Which) (line : ℕ) → IsErrOf result (ScriptFault.Limit w line) →
        FailsAt Next (tally_before before.now) bytes.now (before.now.lines + 1) line (LimitAt w) }
{
    let first = before.lines + 1;
    let mut reader = Reader {
        place: Place::Next,
        tally: tally_of(before),
        number: first,
        rest: bytes,
    };
    let names = NameList::new(alloc);
    match reader.next_line(alloc, &names) {
        Err(fault) => return Err(fault),
        Ok(_) => {}
    }
    let mut draft = Draft::new(alloc, first);
    while !reader.is_at_end() {
        let number = reader.number;
        match reader.next_line(alloc, &names) {
            Err(fault) => return Err(fault),
            Ok(line) => draft.add(alloc, number, line)?,
        }
        take_packets(alloc, &mut reader, &mut draft)?;
    }
    let counts = reader.counts();
    let section = draft.finish()?;
    Ok((section, counts))
}

/// Takes the lines of packets that come next in a lane, up to a line that is none.
#[inline(never)]
fn take_packets(alloc: Global, reader: &mut Reader<'_>, draft: &mut Draft) -> Result<(), AllocError>
    requires small { IsSmall reader.old.tally }
    requires draft { IsDraft draft.old }
    requires at { DraftAt reader.old.place reader.old.number draft.old }
    requires next { reader.old.number ≡ draft.old.first + length (draft_lines draft.old) }
    requires room { reader.old.number ≤ reader.old.tally.bytes + 2 ^ 62 }
    ensures draft { OnOk result (IsDraft draft.new) }
    ensures first { OnOk result (draft.new.first ≡ draft.old.first) }
    ensures at { OnOk result (DraftAt reader.new.place reader.new.number draft.new) }
    ensures no_longer { OnOk result (length reader.new.rest.now ≤ length reader.old.rest.now) }
    ensures read { OnOk result ((t : Tally) (first : ℕ) (bytes : List ℕ) → IsReadTo Next t first bytes (draft_lines draft.old) [] reader.old →
        IsReadTo Next t first bytes (draft_lines draft.new) [] reader.new) }
{
    if !matches!(reader.place, Place::Lane) {
        return Ok(());
    }
    let mut number = reader.number;
    while let Some(hook) = reader.next_packet(alloc) {
        draft.add_hook(number, hook)?;
        number = reader.number;
    }
    Ok(())
}
