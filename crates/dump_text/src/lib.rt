//! The dump: the text that a replay prints of its report, line by line.
//!
//! `specs/Dump` is the format. The text goes to the sink through one small buffer (`Page`), so that a dump
//! of any size takes no memory once its first line is written.
#![tactic(auto)]

mod buffer;
mod counts;
mod dump;
mod fault;
mod page;
mod phases;
mod receipts;
mod replies;
mod room;
mod rows;
mod totals;

pub use counts::report_counts;
pub use dump::{stream_dump, write_dump};
pub use fault::{DumpFault, WriteFailed};
pub use receipts::receipt_line;
pub use room::DumpRoom;

#[cfg(test)]
mod tests;
