//! Captured packets, the calls of a script's sections, and what an honest report of them is.
//!
//! A reader starts in `specs/`: `Pcap` says what a capture is and where bytes break off, `Calls` what a
//! script asks for, `Honest` when a report is honest to it, and `Runs` how an honest report comes about,
//! section after section. `laws` shows that it does.
#![tactic(auto)]

mod calls;
mod capture;
mod file;
mod laws;
mod link;
mod packet;
mod section;

ghost use Rattle.captures.specs.Runs.{RunIsHonest};

pub use calls::{CallLaneList, CallList, Calls, LineCall};
pub use capture::{Capture, CaptureError};
pub use laws::{one_capture_reading, one_section_outcome};
pub use packet::Packet;
pub use section::{ResolveFault, resolve};

/// A replay that runs its sections one after another, and closes its tables, has an honest report.
pub fn run_is_honest()
    ensures { RunIsHonest }
{}

#[cfg(test)]
mod tests;
