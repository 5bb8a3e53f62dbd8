//! The order of the lines of a part.

ghost use Rattle.std.specs.Prelude.{◌≡◌};
ghost use Rattle.script_text.specs.Order.{follows as follows_by, map_rank, place_of as place_of_line};

use crate::line::Line;
use crate::map_name::MapName;

/// Where a part of a script stands: what its last line was, as far as the next one depends on it.
#[derive(Clone, Copy, Debug)]
pub enum Place {
    /// Before the first line of a script.
    Start,
    /// Before the line `section` of a section.
    Next,
    /// Behind the line `netacct 1`.
    Version,
    /// Behind a `map` line.
    Map(MapName),
    /// Behind a `priv` line.
    Priv(u32),
    /// Behind an `if` line.
    If(u32),
    /// Behind the line `section` or a `cap` line.
    Section,
    /// In a lane.
    Lane,
    /// In a desk.
    Desk,
}

// The place of a `map` line among the others.
fn rank(name: MapName) -> u8
    ensures { result ≡ map_rank name }
{
    match name {
        MapName::Rows => 0,
        MapName::Cookies => 1,
        MapName::Sets => 2,
        MapName::Owners => 3,
        MapName::Writes => 4,
        MapName::Apps => 5,
        MapName::Ifaces => 6,
    }
}

/// Whether a line may stand at a place.
#[inline(always)]
pub fn follows(place: Place, line: &Line) -> bool
    ensures { result ≡ follows_by place line.now }
{
    match line {
        Line::Hook(_) => matches!(place, Place::Lane),
        Line::Command(_) => matches!(place, Place::Desk),
        Line::Lane => matches!(place, Place::Section | Place::Lane),
        Line::Desk => matches!(place, Place::Section | Place::Lane),
        Line::Cap(_) => matches!(place, Place::Section),
        Line::Section => matches!(place, Place::Next),
        Line::Version => matches!(place, Place::Start),
        Line::Map(name, _) => match place {
            Place::Version => true,
            Place::Map(last) => rank(last) < rank(*name),
            _ => false,
        },
        Line::Priv(app) => match place {
            Place::Version | Place::Map(_) => true,
            Place::Priv(last) => last < *app,
            _ => false,
        },
        Line::If(iface, _) => match place {
            Place::Version | Place::Map(_) | Place::Priv(_) => true,
            Place::If(last) => last < *iface,
            _ => false,
        },
    }
}

/// The place behind a line.
#[inline(always)]
pub fn place_of(line: &Line) -> Place
    ensures { result ≡ place_of_line line.now }
{
    match line {
        Line::Hook(_) => Place::Lane,
        Line::Command(_) => Place::Desk,
        Line::Lane => Place::Lane,
        Line::Desk => Place::Desk,
        Line::Cap(_) => Place::Section,
        Line::Section => Place::Section,
        Line::Version => Place::Version,
        Line::Map(name, _) => Place::Map(*name),
        Line::Priv(app) => Place::Priv(*app),
        Line::If(iface, _) => Place::If(*iface),
    }
}
