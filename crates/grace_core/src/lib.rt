//! The two maps of statistics as a pure machine: states, the events of the hooks and of the collector, and what
//! is true after any list of events.
//!
//! A reader starts in `specs/`: `Machine` says what each event makes of a state, `Good` what is true after any
//! events (with `Sums`, what the hooks add up to, and `Rows`, the rows of one phase), and `Phases` what follows
//! for who is inside which phase, which side is written, and what a snapshot holds. `laws` has the theorems.
#![tactic(auto)]

mod collector_steps;
mod event;
mod hook_steps;
mod job;
mod laws;
mod machine;
mod rows;
mod state;
mod view;

pub use acct_base::{Charge, ChargeList, Job, SnapshotList, WordList};
pub use event::Event;
pub use laws::{
    a_label_has_one_row, every_state_is_good, hooks_leave_the_other_side,
    old_phase_is_left_for_good, snapshots_hold_their_charges,
};
pub use machine::step;
pub use state::{CollectAt, CollectView, State, Words, start};
pub use view::{At, HookView, HookViewList};

#[cfg(test)]
mod tests;
