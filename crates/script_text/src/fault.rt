//! Why a part of a script is refused.

ghost use Rattle.std.specs.Prelude.{◌≡◌};
ghost use Rattle.script_text.specs.declared.fault.LineFault.TheVariants.{Memory};
ghost use Rattle.script_text.specs.declared.fault.ScriptFault.TheVariants as faults;

use std::alloc::{AllocError, AllocFailed};
use std::fmt;

/// A limit of a script, in the order in which they are looked at.
#[derive(Clone, Copy, Debug, PartialEq, Eq)]
pub enum Which {
    /// Bytes of the script.
    ScriptBytes,
    /// Bytes of a line, without its line feed.
    LineBytes,
    /// Lines `priv`.
    Privs,
    /// Lines `if`.
    Ifs,
    /// Lines `section`.
    Sections,
    /// Bytes of a section's capture.
    CaptureBytes,
    /// Lines `lane` of a section.
    Lanes,
    /// Lines of lanes of the script.
    Hooks,
    /// Lines of desks of the script.
    DeskLines,
    /// Lines `collect` and `del` of the script.
    Collections,
    /// Uids of a line `replace`.
    Uids,
}

impl fmt::Display for Which {
    fn fmt<W: fmt::Write>(&self, f: &mut fmt::Formatter<W>) -> fmt::Result {
        let word = match self {
            Which::ScriptBytes => "script-bytes",
            Which::LineBytes => "line-bytes",
            Which::Privs => "privs",
            Which::Ifs => "ifs",
            Which::Sections => "sections",
            Which::CaptureBytes => "capture-bytes",
            Which::Lanes => "lanes",
            Which::Hooks => "hooks",
            Which::DeskLines => "desk-lines",
            Which::Collections => "collections",
            Which::Uids => "uids",
        };
        f.write_str(word)
    }
}

/// Why a part of a script was not read.
#[derive(Clone, Copy, Debug, PartialEq, Eq)]
pub enum ScriptFault {
    /// With this line the text is no script any more.
    Syntax { line: u64 },
    /// This line passes a limit.
    Limit { which: Which, line: u64 },
    /// Memory was wanting.
    Memory,
}

impl From<AllocError> for ScriptFault {
    ghost from_gives = { λ _ e. e ≡ faults.Memory };

    fn from(_: AllocError) -> Self {
        ScriptFault::Memory
    }
}

impl<T: Drop> From<AllocFailed<T>> for ScriptFault {
    ghost from_gives = { λ _ e. e ≡ faults.Memory };

    fn from(_: AllocFailed<T>) -> Self {
        ScriptFault::Memory
    }
}

/// Why a line was not read.
#[derive(Clone, Copy, Debug, PartialEq, Eq)]
pub enum LineFault {
    /// It is in no form, or it may not stand there.
    Syntax,
    /// Memory was wanting.
    Memory,
}

impl From<AllocError> for LineFault {
    ghost from_gives = { λ _ e. e ≡ Memory };

    fn from(_: AllocError) -> Self {
        LineFault::Memory
    }
}

impl<T: Drop> From<AllocFailed<T>> for LineFault {
    ghost from_gives = { λ _ e. e ≡ Memory };

    fn from(_: AllocFailed<T>) -> Self {
        LineFault::Memory
    }
}
