use super::*;
use acct_base::{Amount, Charge, Dir, Label, Row};
use std::alloc::AllocError;

fn job() -> Job {
    Job {
        label: Label {
            uid: 10050,
            tag: 0,
            set: 0,
            iface: 2,
        },
        dir: Dir::Ingress,
        packets: 1,
        bytes: 60,
    }
}

/// A hook is inside while the collector flips, and is waited for.
#[test]
fn a_collector_waits_for_the_hook_inside(rt: HostRuntime) -> Result<(), AllocError> {
    let mut state = start(rt.alloc(), 2, 4)?;
    let events = [
        Event::Enter { hook: 0 },
        Event::Flip,
        Event::LoadExits,
        Event::ClaimFirst {
            hook: 0,
            job: job(),
        },
        Event::ClaimSecond { hook: 0 },
        Event::Add { hook: 0 },
        Event::Add { hook: 0 },
        Event::Exit { hook: 0 },
        Event::LoadExits,
    ];
    for event in &events {
        assert!(rt; step(rt.alloc(), &mut state, event)?, "{event:?}");
    }
    for _ in 0..12 {
        assert!(rt; step(rt.alloc(), &mut state, &Event::TakeWord)?);
    }
    assert!(rt; !step(rt.alloc(), &mut state, &Event::TakeWord)?);
    assert!(rt; step(rt.alloc(), &mut state, &Event::Reopen)?);
    assert!(rt; step(rt.alloc(), &mut state, &Event::Enter { hook: 0 })?);
    assert_eq!(rt; state.choice, 4294967297);
    let Some(snapshot) = state.snapshots.get(0) else {
        panic!(rt; "no snapshot");
    };
    let amount = Amount {
        rx_packets: 1,
        rx_bytes: 60,
        tx_packets: 0,
        tx_bytes: 0,
    };
    let row = Row {
        label: job().label,
        amount,
    };
    assert_eq!(rt; snapshot.phase, 0);
    assert_eq!(rt; snapshot.rows.as_slice(), [row].as_slice());
    Ok(())
}

/// A call charges two labels: the first takes the one row, and the second meets a full map. A third is none.
#[test]
fn a_second_label_meets_a_full_map(rt: HostRuntime) -> Result<(), AllocError> {
    let mut state = start(rt.alloc(), 1, 4)?;
    let first = job();
    let mut second = job();
    second.label.tag = 7;
    let events = [
        Event::Enter { hook: 0 },
        Event::ClaimFirst {
            hook: 0,
            job: first,
        },
        Event::ClaimSecond { hook: 0 },
        Event::Add { hook: 0 },
        Event::Add { hook: 0 },
        Event::ClaimFirst {
            hook: 0,
            job: second,
        },
    ];
    for event in &events {
        assert!(rt; step(rt.alloc(), &mut state, event)?, "{event:?}");
    }
    let third = Event::ClaimFirst {
        hook: 0,
        job: first,
    };
    assert!(rt; !step(rt.alloc(), &mut state, &third)?);
    assert!(rt; step(rt.alloc(), &mut state, &Event::Exit { hook: 0 })?);
    let Some(view) = state.hooks.get(0) else {
        panic!(rt; "no view");
    };
    let charges = [
        Charge {
            phase: 0,
            job: first,
            landed: true,
        },
        Charge {
            phase: 0,
            job: second,
            landed: false,
        },
    ];
    assert_eq!(rt; view.list.as_slice(), charges.as_slice());
    Ok(())
}

/// A hook that was split off is joined again only when it is in no call.
#[test]
fn a_hook_inside_is_not_joined(rt: HostRuntime) -> Result<(), AllocError> {
    let mut state = start(rt.alloc(), 1, 4)?;
    assert!(rt; !step(rt.alloc(), &mut state, &Event::Split { hook: 0, n: 5 })?);
    assert!(rt; step(rt.alloc(), &mut state, &Event::Split { hook: 0, n: 3 })?);
    assert!(rt; step(rt.alloc(), &mut state, &Event::Enter { hook: 1 })?);
    let join = Event::Join { hook: 0, other: 1 };
    assert!(rt; !step(rt.alloc(), &mut state, &join)?);
    assert!(rt; step(rt.alloc(), &mut state, &Event::Exit { hook: 1 })?);
    assert!(rt; step(rt.alloc(), &mut state, &join)?);
    assert!(rt; !step(rt.alloc(), &mut state, &Event::Enter { hook: 1 })?);
    let Some(view) = state.hooks.get(0) else {
        panic!(rt; "no view");
    };
    assert_eq!(rt; (view.left, view.made), (3, 1));
    Ok(())
}
