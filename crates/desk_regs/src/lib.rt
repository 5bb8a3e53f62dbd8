//! The commands of the controller on live registers: a book decides, and what it decides is written to the
//! registers and published.
//!
//! `specs/Desks` says what a desk is seen as, and when it is level: then the registers' journal is the book's.
#![tactic(auto)]

mod desk;
mod writing;

pub use desk::Desk;

#[cfg(test)]
mod tests;
