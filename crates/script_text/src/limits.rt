//! The limits of a script, and what is counted for them.

ghost use Rattle.std.specs.Prelude.{◌≡◌, ◌+◌, ◌<◌, ◌≤◌, ◌^◌, IfNone, length};
ghost use Rattle.script_text.specs.Lines.{spelled, IsLine};
ghost use Rattle.script_text.specs.Limits.{added as added_by, passed as passed_by, passed_by_bytes as passed_by_bytes_of, tally_before, first_line, before_feed, uids_in as uids_of};
ghost use Rattle.script_text.specs.Limits.{IsSmall};

use crate::fault::Which;
use crate::line::Line;
use desk_core::Command;

/// The most bytes that a script may have.
pub const MOST_BYTES: u64 = 268_435_456;

/// The most hook lines that a script may have.
pub const MOST_HOOKS: u32 = 1_048_576;

/// How much of a script has been read, up to the end of a part of it.
#[derive(Clone, Copy, Debug, PartialEq, Eq)]
pub struct Counts {
    /// Bytes, line feeds among them.
    pub bytes: u64,
    /// Lines.
    pub lines: u64,
    /// Lines `section`.
    pub sections: u32,
    /// Lines of lanes, without the lines `lane`.
    pub hooks: u32,
    /// Lines of desks, without the lines `desk`.
    pub desk_lines: u32,
    /// Those of them that ask for a collection.
    pub collections: u32,
}

/// What is limited, counted up to a line of a part.
#[derive(Clone, Copy, Debug)]
pub struct Tally {
    /// Bytes of the script.
    pub bytes: u64,
    /// Lines `priv`.
    pub privs: u32,
    /// Lines `if`.
    pub ifs: u32,
    /// Lines `section` of the script.
    pub sections: u32,
    /// Bytes of the section's capture.
    pub capture: u64,
    /// Lines `lane` of the section.
    pub lanes: u32,
    /// Hook lines of the script.
    pub hooks: u32,
    /// Desk lines of the script.
    pub desk_lines: u32,
    /// Lines of the script that ask for a collection.
    pub collections: u32,
}

/// Before a script nothing is counted.
pub const NO_TALLY: Tally = Tally {
    bytes: 0,
    privs: 0,
    ifs: 0,
    sections: 0,
    capture: 0,
    lanes: 0,
    hooks: 0,
    desk_lines: 0,
    collections: 0,
};

/// The tally before a section, behind what these counts are of.
pub fn tally_of(before: &Counts) -> Tally
    ensures { result ≡ tally_before before.now }
{
    Tally {
        bytes: before.bytes,
        sections: before.sections,
        hooks: before.hooks,
        desk_lines: before.desk_lines,
        collections: before.collections,
        ..NO_TALLY
    }
}

// The uids of a `replace` line.
#[inline(always)]
fn uids_in(line: &Line) -> usize
    ensures { result ≡ uids_of line.now }
{
    match line {
        Line::Command(Command::Replace { uids, .. }) => uids.len(),
        _ => 0,
    }
}

impl Tally {
    /// The tally with a line more, which has so many bytes with its line feed.
    #[inline(always)]
    pub fn added(&self, line: &Line, size: usize) -> Tally
        requires small { IsSmall self.now }
        requires size { size ≡ length (spelled line.now) }
        requires room { self.now.bytes + size ≤ 268435456 }
        requires fits { IsLine line.now }
        ensures { result ≡ added_by self.now line.now }
    {
        let mut tally = *self;
        tally.bytes += size as u64;
        match line {
            Line::Hook(_) => tally.hooks += 1,
            Line::Lane => tally.lanes += 1,
            Line::Command(command) => {
                tally.desk_lines += 1;
                if command.collects() {
                    tally.collections += 1;
                }
            }
            Line::Cap(bytes) => tally.capture += bytes.len() as u64,
            Line::Section => tally.sections += 1,
            Line::Priv(_) => tally.privs += 1,
            Line::If(_, _) => tally.ifs += 1,
            Line::Version | Line::Map(_, _) | Line::Desk => {}
        }
        tally
    }

    /// The first of the limits that are not on bytes that this line passes, with which the tally is.
    #[inline(always)]
    pub fn passed(&self, line: &Line) -> Option<Which>
        ensures { result ≡ passed_by self.now line.now }
    {
        if self.privs > 64 {
            Some(Which::Privs)
        } else if self.ifs > 1_000 {
            Some(Which::Ifs)
        } else if self.sections > 4_096 {
            Some(Which::Sections)
        } else if self.capture > 1_048_576 {
            Some(Which::CaptureBytes)
        } else if self.lanes > 16 {
            Some(Which::Lanes)
        } else if self.hooks > MOST_HOOKS {
            Some(Which::Hooks)
        } else if self.desk_lines > 65_536 {
            Some(Which::DeskLines)
        } else if self.collections > 1_024 {
            Some(Which::Collections)
        } else if uids_in(line) > 2_000 {
            Some(Which::Uids)
        } else {
            None
        }
    }

    /// The limit on bytes that the first line of a text passes, whose bytes without the line feed, and with it, are so many.
    #[inline(always)]
    pub fn passed_by_bytes(&self, bare: usize, whole: usize, rest: &[u8]) -> Option<Which>
        requires small { IsSmall self.now }
        requires bare { bare ≡ length (before_feed rest.now) }
        requires whole { whole ≡ length (first_line rest.now) }
        ensures which { result ≡ passed_by_bytes_of self.now rest.now }
        ensures room { IfNone result (self.now.bytes + whole ≤ 268435456) }
    {
        if whole as u64 > MOST_BYTES - self.bytes {
            Some(Which::ScriptBytes)
        } else if bare > 65_536 {
            Some(Which::LineBytes)
        } else {
            None
        }
    }
}
