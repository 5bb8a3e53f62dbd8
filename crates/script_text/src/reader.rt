//! How far a part of a script has been read.

ghost use Rattle.std.specs.Prelude.{◌≡◌, ◌+◌, ◌<◌, ◌≤◌, ◌^◌, ℕ, List, length, IfOk, OnOk, IsErrOf, IfSome, IfNone, IsTrue, IsFalse};
ghost use Rattle.script_text.specs.declared.line.Line.TheVariants as lines;
ghost use Rattle.script_text.specs.declared.place.Place.TheVariants.{Lane};
ghost use Rattle.script_text.specs.declared.fault.Which.{Which};
ghost use Rattle.script_text.specs.Order.{place_of as place_of_line};
ghost use Rattle.script_text.specs.Limits.{IsSmall, counts_of};
ghost use Rattle.script_text.specs.Faults.{IsNextPart, SyntaxAt, LimitAt};
ghost use Rattle.script_text.specs.Drafts.{Takes, second_of};

use crate::fault::ScriptFault;
use crate::fields::after;
use crate::front::packet_at_front;
use crate::hook_line::HookLine;
use crate::limits::{Counts, MOST_HOOKS, Tally};
use crate::line::Line;
use crate::next::next_line;
use crate::place::{Place, place_of};
use acct_base::{ByteList, NameList};
use std::alloc::Global;

/// A cursor over the lines of a part.
#[derive(Drop)]
pub struct Reader<'a> {
    /// What may come next.
    pub place: Place,
    /// What was counted for the limits.
    pub tally: Tally,
    /// The number of the next line.
    pub number: u64,
    /// The bytes from the next line on.
    pub rest: &'a [u8],
}

impl<'a> Reader<'a> {
    /// Whether nothing is left, or a section begins.
    #[inline(always)]
    pub fn is_at_end(&self) -> bool
        ensures end { IsTrue result → IsNextPart self.now.rest.now }
        ensures more { IsFalse result → IsNextPart self.now.rest.now → ⊥ }
    {
        self.rest.is_empty() || after(self.rest, b"section\n").is_some()
    }

    /// Takes the next line, behind lines that give these names. After an `Err` the cursor stands where it stood.
    #[inline(always)]
    pub fn next_line(&mut self, alloc: Global, names: &NameList) -> Result<Line, ScriptFault>
        requires small { IsSmall self.old.tally }
        requires number { self.old.number + 1 < 2 ^ 64 }
        ensures found { IfOk result (λ l. Takes self.old.place (second_of names.now) self.old.tally self.old.rest.now l self.new.tally self.new.rest.now) }
        ensures place { IfOk result (λ l. self.new.place ≡ place_of_line l) }
        ensures number { OnOk result (self.new.number ≡ self.old.number + 1) }
        ensures syntax { (n : ℕ) → IsErrOf result (ScriptFault.Syntax n) →
            (n ≡ self.old.number) × SyntaxAt self.old.place (second_of names.now) self.old.tally self.old.rest.now }
        ensures limit { (w : Which) (n : ℕ) → IsErrOf result (ScriptFault.Limit w n) →
            (n ≡ self.old.number) × LimitAt w self.old.place (second_of names.now) self.old.tally self.old.rest.now }
    {
        match next_line(
            alloc,
            self.place,
            names,
            &self.tally,
            self.number,
            self.rest,
        ) {
            Err(fault) => Err(fault),
            Ok((line, tally, rest)) => {
                self.place = place_of(&line);
                self.tally = tally;
                self.number += 1;
                self.rest = rest;
                Ok(line)
            }
        }
    }

    /// Takes the next line of a lane, where it is a packet's. After a None the cursor stands where it stood, and the
    /// next line may be any.
    #[inline(always)]
    pub fn next_packet(&mut self, alloc: Global) -> Option<HookLine<ByteList>>
        requires lane { self.old.place ≡ Lane }
        requires small { IsSmall self.old.tally }
        requires number { self.old.number + 1 < 2 ^ 64 }
        ensures found { IfSome result (λ h. (names : List (List ℕ)) → Takes self.old.place names self.old.tally self.old.rest.now (lines.Hook h) self.new.tally self.new.rest.now) }
        ensures place { self.new.place ≡ Lane }
        ensures number { IfSome result (λ h. self.new.number ≡ self.old.number + 1) }
        ensures none { IfNone result (self.new ≡ self.old) }
    {
        let (line, behind) = packet_at_front(alloc, self.rest)?;
        let size = self.rest.len() - behind.len();
        if self.tally.hooks >= MOST_HOOKS {
            return None;
        }
        if self
            .tally
            .passed_by_bytes(size - 1, size, self.rest)
            .is_some()
        {
            return None;
        }
        self.tally.bytes += size as u64;
        self.tally.hooks += 1;
        self.number += 1;
        self.rest = behind;
        Some(line)
    }

    /// What has been read of the script, up to the next line.
    pub fn counts(&self) -> Counts
        requires { 0 < self.now.number }
        ensures { (n : ℕ) → n + 1 ≡ self.now.number → result ≡ counts_of self.now.tally n }
    {
        Counts {
            bytes: self.tally.bytes,
            lines: self.number - 1,
            sections: self.tally.sections,
            hooks: self.tally.hooks,
            desk_lines: self.tally.desk_lines,
            collections: self.tally.collections,
        }
    }
}
