//! A section of a replay on threads: its lanes run side by side, each on a pass of its own, beside its desk.
//!
//! `specs/Sections` says what a section does to its crew, whatever the order in which lanes and desk took their
//! steps; `specs/Progress` what a crew did so far. It follows from what each lane and the desk do by themselves
//! (`specs/Lanes`, `specs/Desks`) and from the meetings before and after (`specs/Working`).
#![tactic(auto)]

mod crew;
mod desk;
mod lane;
mod rooms;
mod seating;
mod section;

pub use crew::Crew;
pub use section::run_section;
