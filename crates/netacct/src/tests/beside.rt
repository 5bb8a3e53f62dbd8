//! The desk runs beside the lanes: a lane that waits between two calls reads what the desk wrote meanwhile.

use super::replay_with_gate;
use acct_base::LineReceipt;
use outside::Gate;
use replay_main::Outcome;
use std::test::Fail;
use std::thread::yield_now;

/// How often a lane that is held lets other threads run. A desk's command takes far less.
const TURNS: u32 = 1_000_000;

/// Holds the first lane between its first two calls.
#[derive(Drop)]
struct Held;

impl Gate for Held {
    fn before(&self, lane: u32, k: u32) {
        if lane == 0 && k == 1 {
            for _ in 0..TURNS {
                yield_now();
            }
        }
    }

    fn after(&self, _lane: u32, _k: u32) {}
}

// The version of the tag that the second packet of the first lane read.
fn second_version(outcome: &Outcome) -> Option<u32> {
    let report = outcome.report.as_ref()?;
    match report.sections.get(0)?.lanes.get(0)?.get(1)? {
        (_, LineReceipt::Hook(receipt)) => Some(receipt.tag_read.version),
        _ => None,
    }
}

// A desk that came after the lanes would have written nothing yet.
#[test]
fn a_lane_reads_what_the_desk_writes_beside_it(rt: HostRuntime) -> Result<(), Fail> {
    let script =
        b"netacct 1\nsection\nlane\nin 10050 77 2 4 60 -\nin 10050 77 2 4 60 -\ndesk\ntag 1000 77 10060 7\n";
    let outcome = replay_with_gate(&rt, rt.alloc(), script, &Held)?;
    assert_eq!(rt; second_version(&outcome), Some(1));
    Ok(())
}
