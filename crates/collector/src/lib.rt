//! Collections: the collector ends a phase while hooks count on, waits until all have left it, and puts what it
//! counted on a shelf. A deletion takes its rows out on the way.
//!
//! `specs/Collectors` says what a collector is seen as, and when it is level: then its shelf tells all that its
//! seats gave. `specs/Collections` says what the calls leave, `specs/Deletions` what a deletion records.
#![tactic(auto)]

mod collecting;
mod collector;
mod deleting;
mod dividing;
mod ready;
mod waiting;

pub use collecting::Collecting;
pub use collector::{CollectError, Collector};
pub use deleting::delete_tag_data;
pub use waiting::collect;

#[cfg(test)]
mod tests;
