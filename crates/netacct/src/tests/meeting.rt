//! Lanes run beside one another: each of two waits for the other before its first call.

use super::replay_with_gate;
use crossbeam_utils::CachePadded;
use outside::Gate;
use std::alloc::{AllocError, Global};
use std::sync::Wait;
use std::sync::atomic::AtomicU64;
use std::sync::atomic::Ordering::SeqCst;
use std::test::Fail;
use std::thread::Threads;

/// How often a lane looks for the other one before it gives up.
const TURNS: u32 = 100_000_000;

/// Where two lanes meet.
#[derive(Drop)]
struct Meeting {
    // 1 once the lane of this number is there.
    first: CachePadded<AtomicU64>,
    second: CachePadded<AtomicU64>,
    // How many lanes saw the other one, and how many gave up.
    met: CachePadded<AtomicU64>,
    missed: CachePadded<AtomicU64>,
}

impl Meeting {
    fn new() -> Meeting {
        Meeting {
            first: CachePadded::new(AtomicU64::new(0)),
            second: CachePadded::new(AtomicU64::new(0)),
            met: CachePadded::new(AtomicU64::new(0)),
            missed: CachePadded::new(AtomicU64::new(0)),
        }
    }

    // Tells that a lane is there, and looks for the other one.
    fn meet(&self, own: &AtomicU64, other: &AtomicU64) {
        own.store(1, SeqCst);
        for _ in 0..TURNS {
            if other.load(SeqCst) == 1 {
                self.met.fetch_add(1, SeqCst);
                return;
            }
        }
        self.missed.fetch_add(1, SeqCst);
    }
}

impl Gate for Meeting {
    fn before(&self, lane: u32, k: u32) {
        match (lane, k) {
            (0, 0) => self.meet(&self.first, &self.second),
            (1, 0) => self.meet(&self.second, &self.first),
            _ => {}
        }
    }

    fn after(&self, _lane: u32, _k: u32) {}
}

// Replays two lanes of one packet each that meet: the status, and how many lanes saw the other one and gave up.
fn replay_meeting<R: Threads + Wait + Sync>(
    rt: &R,
    alloc: Global,
) -> Result<(u8, u64, u64), AllocError> {
    let script = b"netacct 1\nsection\nlane\nin 10050 0 2 4 60 -\nlane\nout 10050 0 2 4 60 -\n";
    let meeting = Meeting::new();
    let outcome = replay_with_gate(rt, alloc, script, &meeting)?;
    let met = meeting.met.load(SeqCst);
    Ok((outcome.status, met, meeting.missed.load(SeqCst)))
}

#[test]
fn two_lanes_meet(rt: HostRuntime) -> Result<(), Fail> {
    let seen = replay_meeting(&rt, rt.alloc())?;
    assert_eq!(rt; seen, (0, 2, 0));
    Ok(())
}
