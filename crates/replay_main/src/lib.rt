//! The top call: a script is read from a source, judged and replayed, and its dump or its counts are written to a sink.
#![tactic(auto)]

mod bulk;
mod check;
mod fault;
mod generate;
mod incoming;
mod laws;
mod on_engine;
mod outcome;
mod parts;
mod replay;
mod runs;
mod summary;
mod words;

pub use fault::Fault;
pub use laws::{
    generated_is_a_script, one_judgement, replay_deletions_are_covered, replays_on_engines,
    serial_deletions_are_covered,
};
pub use outcome::{Outcome, run_plain};
pub use runs::run;
pub use words::{Form, form_of};
