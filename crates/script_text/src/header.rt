//! The header of a script: what its lines before the first section say.

ghost use Rattle.std.specs.Prelude.{◌≡◌, ◌≤◌, ◌++◌, ◌∷◌, [], ℕ, length, IfOk, OnOk, IsErrOf};
ghost use Rattle.script_text.specs.declared.fault.Which.{Which};
ghost use Rattle.script_text.specs.declared.place.Place.TheVariants.{Start};
ghost use Rattle.script_text.specs.declared.line.Line.TheVariants as lines;
ghost use Rattle.script_text.specs.Order.{place_of, names_in};
ghost use Rattle.script_text.specs.Parts.{header_lines, header_text, default_sizes, with_size, with_sizes};
ghost use Rattle.script_text.specs.Limits.{header_counts, IsWithinLimits, no_tally};
ghost use Rattle.script_text.specs.Faults.{IsPart, FailsAt, SyntaxAt, LimitAt};
ghost use Rattle.script_text.specs.Script.{IsFirstHeader};
ghost use Rattle.script_text.specs.Drafts.{HeaderTakes, HeaderAt, second_of};

use crate::fault::ScriptFault;
use crate::limits::{Counts, NO_TALLY};
use crate::line::Line;
use crate::map_name::MapName;
use crate::place::Place;
use crate::reader::Reader;
use acct_base::{List, NameList, RegSizes, Sizes};
use std::alloc::{AllocError, Global};

/// The sizes of all tables, where a script does not give others. They are this project's own.
pub const DEFAULT_SIZES: Sizes = Sizes {
    rows: 5_000,
    regs: RegSizes {
        cookies: 10_000,
        sets: 2_000,
        owners: 2_000,
        writes: 262_144,
    },
    apps: 10_000,
    ifaces: 1_000,
    calls: 1_048_576,
};

/// The `map` lines of a header, in order.
pub type MapLineList = List<(MapName, u32)>;

/// App ids, in order.
pub type IdList = List<u32>;

/// What the lines of a script before its first section say.
#[derive(Debug, Drop)]
pub struct Header {
    /// The sizes of the tables, and how many calls an engine may make.
    pub sizes: Sizes,
    /// The `map` lines, which give some of the sizes.
    pub maps: MapLineList,
    /// The privileged app ids, ascending.
    pub privileged: IdList,
    /// The names of interfaces, ascending by interface.
    pub names: NameList,
}

impl Header {
    // The header whose only line is its first one.
    fn without_lines(alloc: Global) -> Header
        ensures lines { header_lines result ≡ lines.Version ∷ [] }
        ensures sizes { result.sizes ≡ with_sizes default_sizes result.maps }
        ensures names { result.names ≡ [] }
        ensures at { HeaderAt (place_of lines.Version) result }
    {
        Header {
            sizes: DEFAULT_SIZES,
            maps: List::new(alloc),
            privileged: List::new(alloc),
            names: List::new(alloc),
        }
    }

    // Takes the next line.
    fn add(&mut self, line: Line) -> Result<(), AllocError>
        requires takes { HeaderTakes self.old line }
        requires sizes { self.old.sizes ≡ with_sizes default_sizes self.old.maps }
        ensures lines { OnOk result (header_lines self.new ≡ header_lines self.old ++ line ∷ []) }
        ensures sizes { OnOk result (self.new.sizes ≡ with_sizes default_sizes self.new.maps) }
        ensures names { OnOk result (second_of self.new.names ≡ second_of self.old.names ++ names_in (line ∷ [])) }
        ensures at { OnOk result (HeaderAt (place_of line) self.new) }
    {
        match line {
            Line::Map(name, size) => {
                self.maps.push((name, size))?;
                self.sizes = with_size_of(self.sizes, name, size);
                Ok(())
            }
            Line::Priv(app) => self.privileged.push(app),
            Line::If(iface, name) => self.names.push((iface, name)),
            Line::Version
            | Line::Section
            | Line::Cap(_)
            | Line::Lane
            | Line::Hook(_)
            | Line::Desk
            | Line::Command(_) => unreachable!(),
        }
    }
}

// The sizes, with this one for a table.
fn with_size_of(sizes: Sizes, name: MapName, size: u32) -> Sizes
    ensures { result ≡ with_size sizes name size }
{
    let mut sizes = sizes;
    match name {
        MapName::Rows => sizes.rows = size,
        MapName::Cookies => sizes.regs.cookies = size,
        MapName::Sets => sizes.regs.sets = size,
        MapName::Owners => sizes.regs.owners = size,
        MapName::Writes => sizes.regs.writes = size,
        MapName::Apps => sizes.apps = size,
        MapName::Ifaces => sizes.ifaces = size,
    }
    sizes
}

/// Reads the header of a script, from its first byte up to the next line `section` or the end, and counts what was
/// read. The first line belongs to the header whatever it says.
///
/// Syntax names the first line with which the bytes are no header any more, and Limit the first line that passes a
/// limit, whichever comes first; on one line the limits on bytes come before Syntax, and the others after it.
pub fn parse_header(alloc: Global, bytes: &[u8]) -> Result<(Header, Counts), ScriptFault>
    ensures header { IfOk result (λ p. IsFirstHeader p.0) }
    ensures counts { IfOk result (λ p. p.1 ≡ header_counts p.0) }
    ensures limits { IfOk result (λ p. IsWithinLimits p.1) }
    ensures lines { IfOk result (λ p. p.1.lines ≤ p.1.bytes) }
    ensures spelled { IfOk result (λ p. IsPart (header_text p.0) bytes.now) }
    ensures syntax { (line : ℕ) → IsErrOf result (ScriptFault.Syntax line) →
        FailsAt Start no_tally bytes.now 1 line SyntaxAt }
    ensures limit { (w : Which) (line : ℕ) → IsErrOf result (ScriptFault.Limit w line) →
        FailsAt Start no_tally bytes.now 1 line (LimitAt w) }
{
    let mut reader = Reader {
        place: Place::Start,
        tally: NO_TALLY,
        number: 1,
        rest: bytes,
    };
    let mut header = Header::without_lines(alloc);
    match reader.next_line(alloc, &header.names) {
        Err(fault) => return Err(fault),
        Ok(_) => {}
    }
    while !reader.is_at_end() {
        match reader.next_line(alloc, &header.names) {
            Err(fault) => return Err(fault),
            Ok(line) => header.add(line)?,
        }
    }
    let counts = reader.counts();
    Ok((header, counts))
}
