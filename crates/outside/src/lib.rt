//! The outside of the programs: where they read from and write to, and the words that they are
//! called with.
//!
//! A fault of reading or writing is never made up. A source and a sink each have a count of their
//! faults, of which contracts speak, and an answer that blames one of them comes only where its count
//! rose in that call. Where a source tells the bytes that it has left, and a sink those that it got,
//! the contracts name them too.
#![tactic(auto)]

mod arguments;
mod gate;
mod generated;
mod memory;
mod sink;
mod source;
mod standard;
mod whole;

pub use arguments::ArgList;
pub use gate::{Gate, NoGate};
pub use generated::GenSource;
pub use memory::{MemSink, MemSource};
pub use sink::Sink;
pub use source::{Failed, Source};
pub use standard::{StdSink, StdSource};
pub use whole::{ReadError, read_all, write_all};
