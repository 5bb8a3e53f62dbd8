//! A line of a script.

ghost use Rattle.std.specs.Prelude.{◌≡◌, ◌≢◌, ◌++◌, ◌∷◌, [], ℕ, List, codes, IfOk, IsErrOf};
ghost use Rattle.desk_core.specs.declared.command.Chain.{Chain};
ghost use Rattle.script_text.specs.declared.map_name.MapName.{MapName};
ghost use Rattle.script_text.specs.Pieces.{parts};
ghost use Rattle.script_text.specs.Lines.{IsLine, Spells, SpellsNone, AllFit, Word, Number, Hex, texts, map_rest, name_rest, most_of as most_of_map};

use crate::desk_line::{
    add_line, chain_line, del_line, fw_line, remove_line, replace_line, set_line, tag_line,
    untag_line,
};
use crate::digits::number_of;
use crate::fault::LineFault;
use crate::fields::Fields;
use crate::hook_line::{
    HookLine, MOST_IFACE, allow_line, deny_line, hook_line, iface_line, packet_line,
};
use crate::kind::{Kind, kind_of};
use crate::map_name::MapName;
use crate::words::{hex_of, map_of, name_of};
use acct_base::{ByteList, Dir, Iface};
use desk_core::Command;
use std::alloc::Global;

/// A line of a script.
#[derive(Debug, Drop)]
pub enum Line {
    /// `netacct 1`, the first line.
    Version,
    /// `map NAME N`: the size of a table.
    Map(MapName, u32),
    /// `priv APP`: a privileged app.
    Priv(u32),
    /// `if IFACE NAME`: the name of an interface.
    If(Iface, ByteList),
    /// `section`, the first line of a section.
    Section,
    /// `cap HEX`: bytes of a section's capture.
    Cap(ByteList),
    /// `lane`, the first line of a lane.
    Lane,
    /// A line of a lane.
    Hook(HookLine<ByteList>),
    /// `desk`, the first line of a desk.
    Desk,
    /// A line of a desk.
    Command(Command),
}

// The greatest size that a script may give a table.
fn most_of(name: MapName) -> u64
    ensures { result ≡ most_of_map name }
{
    match name {
        MapName::Rows => 5_000,
        MapName::Cookies => 262_144,
        MapName::Sets => 65_536,
        MapName::Owners => 65_536,
        MapName::Writes => 262_144,
        MapName::Apps => 65_536,
        MapName::Ifaces => 65_536,
    }
}

// `map NAME N`, behind its word.
fn map_line(fields: &mut Fields<'_>) -> Result<Line, LineFault>
    ensures found { IfOk result (λ l. Spells l (codes "map" ∷ fields.old)) }
    ensures syntax { IsErrOf result LineFault.Syntax → (name : MapName) (n : ℕ) →
        AllFit (map_rest name n) → fields.old ≢ texts (map_rest name n) }
{
    let (name, number) = fields.two()?;
    let name = map_of(name)?;
    let number = number_of(number, 1, most_of(name))? as u32;
    Ok(Line::Map(name, number))
}

// `priv APP`, behind its word.
fn priv_line(fields: &mut Fields<'_>) -> Result<Line, LineFault>
    ensures found { IfOk result (λ l. Spells l (codes "priv" ∷ fields.old)) }
    ensures syntax { IsErrOf result LineFault.Syntax → (app : ℕ) →
        AllFit (Number 0 99999 app ∷ []) → fields.old ≢ texts (Number 0 99999 app ∷ []) }
{
    let app = number_of(fields.one()?, 0, 99_999)? as u32;
    Ok(Line::Priv(app))
}

// `if IFACE NAME`, behind its word.
fn if_line(alloc: Global, fields: &mut Fields<'_>) -> Result<Line, LineFault>
    ensures found { IfOk result (λ l. Spells l (codes "if" ∷ fields.old)) }
    ensures syntax { IsErrOf result LineFault.Syntax → (iface : ℕ) (name : List ℕ) →
        AllFit (name_rest iface name) → fields.old ≢ texts (name_rest iface name) }
{
    let (iface, name) = fields.two()?;
    let iface = number_of(iface, 1, MOST_IFACE)? as u32;
    let name = name_of(alloc, name)?;
    Ok(Line::If(iface, name))
}

// `cap HEX`, behind its word.
fn cap_line(alloc: Global, fields: &mut Fields<'_>) -> Result<Line, LineFault>
    ensures found { IfOk result (λ l. Spells l (codes "cap" ∷ fields.old)) }
    ensures syntax { IsErrOf result LineFault.Syntax → (bytes : List ℕ) →
        AllFit (Hex 512 bytes ∷ []) → fields.old ≢ texts (Hex 512 bytes ∷ []) }
{
    let bytes = hex_of(alloc, fields.one()?, 512)?;
    Ok(Line::Cap(bytes))
}

// A line of one word, behind it.
fn bare_line(line: Line, fields: &mut Fields<'_>) -> Result<Line, LineFault>
    ensures found { IfOk result (λ l. (l ≡ line) × (fields.old ≡ [])) }
    ensures syntax { IsErrOf result LineFault.Syntax → fields.old ≢ [] }
{
    fields.end()?;
    Ok(line)
}

// The version, behind the first word.
fn version_line(fields: &mut Fields<'_>) -> Result<Line, LineFault>
    ensures found { IfOk result (λ l. Spells l (codes "netacct" ∷ fields.old)) }
    ensures syntax { IsErrOf result LineFault.Syntax → fields.old ≢ texts (Word (codes "1") ∷ []) }
{
    fields.word(b"1")?;
    fields.end()?;
    Ok(Line::Version)
}

impl Line {
    /// What a line says, without its line feed.
    #[inline(always)]
    pub fn parse(alloc: Global, text: &[u8]) -> Result<Line, LineFault>
        ensures found { IfOk result (λ l. Spells l (parts 32 text.now)) }
        ensures syntax { IsErrOf result LineFault.Syntax → SpellsNone (parts 32 text.now) }
    {
        let mut fields = Fields::of(text);
        let Some(word) = fields.next() else {
            return Err(LineFault::Syntax);
        };
        let Some(kind) = kind_of(word) else {
            return Err(LineFault::Syntax);
        };
        match kind {
            Kind::In => hook_line(alloc, Dir::Ingress, &mut fields),
            Kind::Out => hook_line(alloc, Dir::Egress, &mut fields),
            Kind::Rin => packet_line(Dir::Ingress, &mut fields),
            Kind::Rout => packet_line(Dir::Egress, &mut fields),
            Kind::Iin => iface_line(Dir::Ingress, &mut fields),
            Kind::Iout => iface_line(Dir::Egress, &mut fields),
            Kind::Allow => allow_line(&mut fields),
            Kind::Deny => deny_line(&mut fields),
            Kind::Section => bare_line(Line::Section, &mut fields),
            Kind::Lane => bare_line(Line::Lane, &mut fields),
            Kind::Cap => cap_line(alloc, &mut fields),
            Kind::Desk => bare_line(Line::Desk, &mut fields),
            Kind::Tag => tag_line(&mut fields),
            Kind::Untag => untag_line(&mut fields),
            Kind::Set => set_line(&mut fields),
            Kind::Del => del_line(&mut fields),
            Kind::Add => add_line(&mut fields),
            Kind::Remove => remove_line(&mut fields),
            Kind::Chain => chain_line(&mut fields),
            Kind::Fw => fw_line(&mut fields),
            Kind::Replace => replace_line(alloc, &mut fields),
            Kind::Collect => bare_line(Line::Command(Command::Collect), &mut fields),
            Kind::Netacct => version_line(&mut fields),
            Kind::Map => map_line(&mut fields),
            Kind::Priv => priv_line(&mut fields),
            Kind::If => if_line(alloc, &mut fields),
        }
    }
}
