//! A script that comes in part by part. Of its text only the part under way is held, and that only while it is read.

ghost use Rattle.std.specs.Prelude.{◌≡◌, ◌≢◌, ◌≤◌, ◌+◌, ℕ, true, false, Some, IfOk, IfErr, IfSome, IfNone, IsErrOf};
ghost use Rattle.outside.specs.Outside.{Rose, ConsumesUpTo};
ghost use Rattle.script_text.specs.declared.fault.Which.{Which};
ghost use Rattle.script_text.specs.declared.place.Place.TheVariants.{Next};
ghost use Rattle.script_text.specs.Parts.{header_text, section_text};
ghost use Rattle.script_text.specs.Faults.{BeginsSection, FailsAt, SyntaxAt, LimitAt};
ghost use Rattle.script_text.specs.Limits.{header_counts, counts_after, tally_before};
ghost use Rattle.script_text.specs.Script.{IsFirstHeader, IsNextSection};
ghost use Rattle.replay_main.specs.declared.fault.Fault.{Fault as Faulty};
ghost use Rattle.replay_main.specs.Faults.{IsJudgingFault};
ghost use Rattle.replay_main.specs.Incoming.{HasCome, HasTaken, IsComing, IsCountedPart, HasCounted, TakesPart, SectionFails};
ghost use Rattle.replay_main.specs.Reached.{IsWithin};
ghost use Rattle.replay_main.specs.Run.{WasSo, DecidesOn, IsOfText};

use crate::fault::Fault;
use crate::parts::Parts;
use outside::Source;
use script_text::{
    Counts, Header, ScriptFault, Section, count_section, parse_header, parse_section,
    script_by_parts,
};
use std::alloc::Global;

/// A section whose counts were asked for.
#[derive(Drop)]
pub enum Counted {
    /// It has nothing to do with a capture, and was not kept.
    Alone,
    /// It has a capture, or takes a packet of one, so it was kept: its packets are still to be found.
    Kept(Section),
}

// Counts the section at the front of some bytes, and keeps it where it has to do with a capture.
fn count_part(
    alloc: Global,
    bytes: &[u8],
    before: &Counts,
) -> Result<(Counted, Counts), ScriptFault>
    requires begins { BeginsSection bytes.now }
    requires within { IsWithin before.now }
    ensures counted { IfOk result (λ p. IsCountedPart before.now bytes.now p.0 p.1) }
    ensures syntax { (line : ℕ) → IsErrOf result (ScriptFault.Syntax line) →
        FailsAt Next (tally_before before.now) bytes.now (before.now.lines + 1) line SyntaxAt }
    ensures limit { (w : Which) (line : ℕ) → IsErrOf result (ScriptFault.Limit w line) →
        FailsAt Next (tally_before before.now) bytes.now (before.now.lines + 1) line (LimitAt w) }
{
    match count_section(alloc, bytes, before)? {
        Some(counts) => Ok((Counted::Alone, counts)),
        None => {
            let (section, counts) = parse_section(alloc, bytes, before)?;
            Ok((Counted::Kept(section), counts))
        }
    }
}

/// A script of which some parts were read.
#[derive(Drop)]
pub struct Incoming {
    parts: Parts,
    counts: Counts,
    // Whether the last part was read.
    is_over: bool,
}

impl Incoming {
    /// Reads the header of the script that a source has.
    pub fn begin<S: Source>(alloc: Global, source: &mut S) -> Result<(Header, Incoming), Fault>
        ensures header { IfOk result (λ p. IsFirstHeader p.0) }
        ensures counts { IfOk result (λ p. p.1.counts ≡ header_counts p.0) }
        ensures within { IfOk result (λ p. IsWithin p.1.counts) }
        ensures bound { ConsumesUpTo (S.left source.old) (S.left source.new) 268435457 }
        ensures come { IfOk result (λ p. HasCome (S.left source.old) (S.left source.new) p.1 (header_text p.0)) }
        ensures read_fault { IsErrOf result Fault.ReadFault → Rose (S.faults source.old) (S.faults source.new) }
        ensures decides { (f : Faulty) → IsErrOf result f → IsOfText f → WasSo (DecidesOn f) (S.left source.old) }
        ensures faults { IfErr result IsJudgingFault }
        ensures count { S.faults source.old ≤ S.faults source.new }
    {
        script_by_parts();
        let mut parts = Parts::new(alloc)?;
        let part = parts.next(alloc, source)?;
        let (header, counts) = parse_header(alloc, part.bytes.as_slice())?;
        Ok((
            header,
            Incoming {
                parts,
                counts,
                is_over: part.is_last,
            },
        ))
    }

    /// Reads the next section; None behind the last.
    pub fn section<S: Source>(
        &mut self,
        alloc: Global,
        source: &mut S,
    ) -> Result<Option<Section>, Fault>
        requires coming { IsComing self.old }
        requires within { IsWithin self.old.counts }
        ensures none { IfOk result (λ r. IfNone r ((self.old.is_over ≡ true) × (self.new ≡ self.old) × (source.new ≡ source.old))) }
        ensures section { IfOk result (λ r. IfSome r (IsNextSection self.old.counts)) }
        ensures counts { IfOk result (λ r. IfSome r (λ s. self.new.counts ≡ counts_after self.old.counts s)) }
        ensures within { IfOk result (λ r. IfSome r (λ s. IsWithin self.new.counts)) }
        ensures takes { IfOk result (λ r. IfSome r (λ s. TakesPart (S.left source.old) (S.left source.new) self.old.parts self.new.parts (section_text s) self.new.is_over)) }
        ensures taken { HasTaken (S.left source.old) (S.left source.new) self.old.parts self.new.parts }
        ensures was { IfOk result (λ r. IfSome r (λ s. self.old.is_over ≡ false)) }
        ensures read_fault { IsErrOf result Fault.ReadFault → Rose (S.faults source.old) (S.faults source.new) }
        ensures decides { (f : Faulty) → IsErrOf result f → IsOfText f → SectionFails (S.left source.old) (S.left source.new) self.old self.new.parts f }
        ensures faults { IfErr result IsJudgingFault }
        ensures count { S.faults source.old ≤ S.faults source.new }
    {
        if self.is_over {
            return Ok(None);
        }
        script_by_parts();
        let part = self.parts.next(alloc, source)?;
        let (section, counts) = parse_section(alloc, part.bytes.as_slice(), &self.counts)?;
        self.counts = counts;
        self.is_over = part.is_last;
        Ok(Some(section))
    }

    /// Reads the next section for its counts alone; None behind the last.
    pub fn count<S: Source>(
        &mut self,
        alloc: Global,
        source: &mut S,
    ) -> Result<Option<Counted>, Fault>
        requires coming { IsComing self.old }
        requires within { IsWithin self.old.counts }
        ensures none { IfOk result (λ r. IfNone r ((self.old.is_over ≡ true) × (self.new ≡ self.old) × (source.new ≡ source.old))) }
        ensures counted { IfOk result (λ r. IfSome r (HasCounted (S.left source.old) (S.left source.new) self.old self.new)) }
        ensures taken { HasTaken (S.left source.old) (S.left source.new) self.old.parts self.new.parts }
        ensures read_fault { IsErrOf result Fault.ReadFault → Rose (S.faults source.old) (S.faults source.new) }
        ensures decides { (f : Faulty) → IsErrOf result f → IsOfText f → SectionFails (S.left source.old) (S.left source.new) self.old self.new.parts f }
        ensures faults { IfErr result IsJudgingFault }
        ensures count { S.faults source.old ≤ S.faults source.new }
    {
        if self.is_over {
            return Ok(None);
        }
        script_by_parts();
        let part = self.parts.next(alloc, source)?;
        let (counted, counts) = count_part(alloc, part.bytes.as_slice(), &self.counts)?;
        self.counts = counts;
        self.is_over = part.is_last;
        Ok(Some(counted))
    }

    /// What was counted so far.
    pub fn counts(&self) -> Counts
        ensures { result ≡ self.now.counts }
    {
        self.counts
    }
}
