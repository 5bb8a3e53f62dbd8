//! A replay on one thread, and the report that it gives.
//!
//! A reader starts in `specs/`: `Serial` is a walk that keeps the whole lists of what happened and asks them
//! each time, `Kept` says what `Plain` keeps in place of these lists, and `Walks` what its calls promise of
//! lanes, desks and sections. The law in `laws` says that the walk's report is honest.
#![tactic(auto)]

mod charging;
mod commands;
mod laws;
mod ledger;
mod look;
mod plain;
mod rows;
mod section;

pub use laws::serial_is_honest;
pub use plain::Plain;
