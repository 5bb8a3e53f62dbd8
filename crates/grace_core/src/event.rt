//! The steps of the machine.

use acct_base::Job;

/// One atomic step of a hook, by the number of its view, or of the collector.
#[derive(Clone, Copy, Debug, PartialEq, Eq)]
pub enum Event {
    /// A call begins: it counts in the phase that is live.
    Enter { hook: u32 },
    /// The first key of a row is claimed for a job, which begins with that.
    ClaimFirst { hook: u32, job: Job },
    /// The second key is claimed.
    ClaimSecond { hook: u32 },
    /// Packets are added to a row, or bytes.
    Add { hook: u32 },
    /// The call ends.
    Exit { hook: u32 },
    /// A new hook gets `n` of the calls.
    Split { hook: u32, n: u64 },
    /// One hook takes what another has.
    Join { hook: u32, other: u32 },
    /// The collector makes the next phase the live one.
    Flip,
    /// It looks whether all that entered the old phase have left it.
    LoadExits,
    /// It takes the next word of the old side.
    TakeWord,
    /// It gives the old side back.
    Reopen,
}
