//! Totals by uid or by interface: a table of rows that grows without a lock. Many seats add to it side by
//! side, none waits for another, and no addition is lost.
//!
//! `specs/Seats` says what a seat is seen as: its adds, where they landed, and what it knows of each key.
//! `specs/Rule` is the rule that the words of the table keep between any two steps.
#![tactic(auto)]

mod about;
mod adding;
mod closing;
mod laws;
mod plan;
mod plays;
mod reading;
mod room;
mod seat;
mod seats;
mod steps;
mod totals;
mod turns;

pub use acct_base::Landed;
pub use closing::TotalUnclosed;
pub use laws::seats_know_their_own_adds;
pub use room::TotalRoom;
pub use seat::TotalSeat;
pub use totals::Totals;

#[cfg(test)]
mod tests;
