//! The registers that the packet programs look up: the tags of sockets, the counter sets and rules of uids, and
//! the enabled chains. In netd.c these are four eBPF maps, which the daemon writes while packets read them.
//!
//! One writer appends writes to a journal, and any number of readers read the last write to a key. Nobody waits
//! for anybody: a call is a few atomic steps on one table of words, without a loop that tries again. A reader
//! knows a prefix of the journal that only grows, and each of its reads is true of what it knows. `specs/Seats`
//! says how the seats are seen, and `specs/Registers` what the calls promise.
#![tactic(auto)]

mod lifecycle;
mod loads;
mod map_rows;
mod place;
mod reader;
mod reads;
mod regs;
mod room;
mod seats;
mod steps;
mod stores;
mod subject;
#[cfg(test)]
mod tests;
mod view;
mod words;
mod writer;
mod writes;

pub use reader::Reader;
pub use regs::Regs;
pub use room::JournalRoom;
pub use writer::Writer;
pub use writes::WriteError;
