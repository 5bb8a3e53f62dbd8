//! The hook programs on threads: each packet reads the registers, is judged, and is charged, without a lock.
//!
//! An engine has the registers, the two maps of statistics, and the totals by app and by interface. A pass is
//! the leave to make calls on it: whoever has one makes calls, and passes are split for threads and joined
//! again. `specs/Passes` says what a pass is seen as and what each call on it promises: its receipt obeys the
//! rules on its own reads, these are true of what the pass knows afterwards, and what it charged is appended to
//! the pass's lists. `specs/Ends` says what closing gives, by these lists. They stand in proofs alone: a call
//! stores nothing but its atomic steps and its receipt, takes no memory, and waits for nobody.
#![tactic(auto)]

mod close;
mod count;
mod engine;
mod hooks;
mod look;
mod pass;
mod room;
mod seats;
mod tally;

pub use close::{EngineRest, SeatsOut};
pub use engine::{DeskSeats, Engine};
pub use pass::Pass;
pub use room::CloseRoom;
pub use tally::{NoTally, Tally};

#[cfg(test)]
mod tests;
