//! A section as far as it was read.

ghost use Rattle.std.specs.Prelude.{◌≡◌, ◌+◌, ◌<◌, ◌≤◌, ◌^◌, [], ◌∷◌, ◌++◌, Some, None, length, IfOk, OnOk, option_to_list};
ghost use Rattle.script_text.specs.declared.line.Line.TheVariants as lines;
ghost use Rattle.script_text.specs.Lines.{IsLine};
ghost use Rattle.script_text.specs.Order.{place_of};
ghost use Rattle.script_text.specs.Parts.{section_lines};
ghost use Rattle.script_text.specs.Drafts.{draft_lines, IsDraft, DraftTakes, DraftAt, IsBare, IsWhole};

use crate::hook_line::HookLine;
use crate::lane::HookLineList;
use crate::line::Line;
use crate::section::{CapList, DeskLineList, LaneLineList, Section};
use acct_base::{ByteList, List};
use std::alloc::{AllocError, Global};

/// What the lines of a section said so far. The lane under way stands apart from those before it.
#[derive(Drop)]
pub struct Draft {
    pub first: u64,
    pub capture: Vec<u8>,
    pub caps: CapList,
    pub lanes: LaneLineList,
    pub lane: Option<HookLineList>,
    pub desk: Option<DeskLineList>,
}

impl Draft {
    /// The section that has its first line alone.
    pub fn new(alloc: Global, first: u64) -> Draft
        ensures lines { draft_lines result ≡ lines.Section ∷ [] }
        ensures first { result.first ≡ first }
        ensures draft { IsDraft result }
        ensures at { DraftAt (place_of lines.Section) (first + 1) result }
    {
        Draft {
            first,
            capture: Vec::new(alloc),
            caps: List::new(alloc),
            lanes: List::new(alloc),
            lane: None,
            desk: None,
        }
    }

    /// Takes the next line of the section, which has this number.
    #[inline(always)]
    pub fn add(&mut self, alloc: Global, number: u64, line: Line) -> Result<(), AllocError>
        requires draft { IsDraft self.old }
        requires takes { DraftTakes self.old number line }
        requires fits { IsLine line }
        requires next { number ≡ self.old.first + length (draft_lines self.old) }
        requires room { number + 1 < 2 ^ 64 }
        ensures lines { OnOk result (draft_lines self.new ≡ draft_lines self.old ++ line ∷ []) }
        ensures first { OnOk result (self.new.first ≡ self.old.first) }
        ensures draft { OnOk result (IsDraft self.new) }
        ensures at { OnOk result (DraftAt (place_of line) (number + 1) self.new) }
    {
        match line {
            Line::Hook(hook) => self.add_hook(number, hook),
            Line::Command(command) => match &mut self.desk {
                Some(desk) => desk.push((number, command)),
                None => unreachable!(),
            },
            Line::Lane => self.begin_lane(alloc),
            Line::Desk => {
                self.desk = Some(DeskLineList::new(alloc));
                Ok(())
            }
            Line::Cap(bytes) => self.add_capture(bytes.as_slice()),
            Line::Section | Line::Version | Line::Map(_, _) | Line::Priv(_) | Line::If(_, _) => {
                unreachable!()
            }
        }
    }

    /// Takes the next line of the lane under way, which has this number.
    #[inline(always)]
    pub fn add_hook(&mut self, number: u64, hook: HookLine<ByteList>) -> Result<(), AllocError>
        requires draft { IsDraft self.old }
        requires takes { DraftTakes self.old number (lines.Hook hook) }
        requires next { number ≡ self.old.first + length (draft_lines self.old) }
        requires room { number + 1 < 2 ^ 64 }
        ensures lines { OnOk result (draft_lines self.new ≡ draft_lines self.old ++ lines.Hook hook ∷ []) }
        ensures first { OnOk result (self.new.first ≡ self.old.first) }
        ensures draft { OnOk result (IsDraft self.new) }
        ensures at { OnOk result (DraftAt (place_of (lines.Hook hook)) (number + 1) self.new) }
    {
        match &mut self.lane {
            Some(lane) => lane.push(number, hook),
            None => unreachable!(),
        }
    }

    // Takes a line `lane`, which ends the lane before it.
    fn begin_lane(&mut self, alloc: Global) -> Result<(), AllocError>
        requires draft { IsDraft self.old }
        requires no_desk { self.old.desk ≡ None }
        ensures lines { OnOk result (draft_lines self.new ≡ draft_lines self.old ++ lines.Lane ∷ []) }
        ensures first { OnOk result (self.new.first ≡ self.old.first) }
        ensures draft { OnOk result (IsDraft self.new) }
        ensures lane { OnOk result (self.new.lane ≡ Some []) }
        ensures desk { OnOk result (self.new.desk ≡ None) }
    {
        let empty = HookLineList::new(alloc);
        match self.lane.replace(empty) {
            None => Ok(()),
            Some(lane) => self.lanes.push(lane),
        }
    }

    // Takes a line with some bytes of the capture.
    fn add_capture(&mut self, bytes: &[u8]) -> Result<(), AllocError>
        requires draft { IsDraft self.old }
        requires first { IsBare self.old }
        requires few { length bytes.now ≤ 512 }
        ensures lines { OnOk result (draft_lines self.new ≡ draft_lines self.old ++ lines.Cap bytes.now ∷ []) }
        ensures first { OnOk result (self.new.first ≡ self.old.first) }
        ensures draft { OnOk result (IsDraft self.new) }
        ensures bare { OnOk result (IsBare self.new) }
    {
        self.capture.extend_from_slice(bytes)?;
        self.caps.push(bytes.len() as u32)
    }

    /// The section that was read.
    pub fn finish(self) -> Result<Section, AllocError>
        requires { IsDraft self }
        ensures section { IfOk result (λ s. IsWhole s) }
        ensures first { IfOk result (λ s. s.first ≡ self.first) }
        ensures lines { IfOk result (λ s. section_lines s ≡ draft_lines self) }
    {
        let Draft {
            first,
            capture,
            caps,
            lanes,
            lane,
            desk,
        } = self;
        let lanes = with_last(lanes, lane)?;
        Ok(Section {
            first,
            capture: ByteList::from_vec(capture),
            caps,
            lanes,
            desk,
        })
    }
}

// The lanes, and the one that was under way.
fn with_last(lanes: LaneLineList, lane: Option<HookLineList>) -> Result<LaneLineList, AllocError>
    ensures { IfOk result (λ all. all ≡ lanes ++ option_to_list lane) }
{
    let mut lanes = lanes;
    match lane {
        None => Ok(lanes),
        Some(lane) => {
            lanes.push(lane)?;
            Ok(lanes)
        }
    }
}
