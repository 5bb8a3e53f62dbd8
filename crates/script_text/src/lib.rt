//! The text of a script: its one spelling as a definition, the parsers and printers of its parts, and the cutter
//! that gives the parts while the text comes in.
//!
//! A reader starts in `specs/`: `Lines` has a table of the lines, with the spelling and the range of each field;
//! `Order` says which line may stand where, `Parts` of which lines a header and a section are made, `Limits` what is
//! counted and how far, `Faults` which line decides on a part, `Script` what a whole script is and where a text is
//! none, `Counted` what is told of a section that is not kept, and `Cuts` where a text is cut into its parts. `laws`
//! shows that these definitions mean what they say.
#![tactic(auto)]

mod counting;
mod cutter;
mod desk_line;
mod digits;
mod draft;
mod fault;
mod fields;
mod front;
mod header;
mod hex_digits;
mod hook_line;
mod kind;
mod lane;
mod laws;
mod limits;
mod line;
mod map_name;
mod next;
mod place;
mod print;
mod reader;
mod section;
mod spell;
mod words;

pub use counting::count_section;
pub use cutter::{Cutter, Fed};
pub use fault::{ScriptFault, Which};
pub use header::{DEFAULT_SIZES, Header, IdList, MapLineList, parse_header};
pub use hook_line::HookLine;
pub use lane::HookLineList;
pub use laws::{one_reading, parts_of_text, script_by_parts};
pub use limits::Counts;
pub use map_name::MapName;
pub use print::{print_header, print_section};
pub use section::{CapList, DeskLineList, LaneLineList, Section, parse_section};

#[cfg(test)]
mod tests;
