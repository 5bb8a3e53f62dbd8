ghost use Rattle.std.specs.Prelude.{◌≡◌, IfOk};

use super::*;
use acct_base::{
    Amount, IfaceReceipt, Label, LineReceipt, List, ListReceipt, Mark, Receipt, Row, Seen,
    Snapshot, Verdict,
};
use std::alloc::{AllocError, Global};

const UNREAD: Seen = Seen {
    version: 0,
    value: None,
};

const LABEL: Label = Label {
    uid: 10050,
    tag: 0,
    set: 0,
    iface: 2,
};

const ROW: Row = Row {
    label: LABEL,
    amount: Amount {
        rx_packets: 1,
        rx_bytes: 60,
        tx_packets: 0,
        tx_bytes: 0,
    },
};

fn snapshot_of(alloc: Global, phase: u32, rows: &[Row]) -> Result<Snapshot, AllocError>
    ensures { IfOk result (λ s. s.rows ≡ rows.now) }
{
    Ok(Snapshot {
        phase,
        rows: List::from_vec(Vec::from_slice(alloc, rows)?),
    })
}

#[test]
fn phases_are_kept_with_their_deletions(rt: HostRuntime) -> Result<(), AllocError> {
    let alloc = rt.alloc();
    let mut shelf = Shelf::new(alloc);
    assert!(rt; shelf.is_empty());
    shelf.reserve()?;
    assert!(rt; shelf.spare() >= 1);
    let taken = Deletion {
        phase: 0,
        uid: 10050,
        tag: 7,
        rows: List::new(alloc),
        app: None,
    };
    shelf.put(snapshot_of(alloc, 0, &[])?, Some(taken));
    shelf.reserve()?;
    shelf.put(snapshot_of(alloc, 1, &[])?, None);
    assert_eq!(rt; shelf.len(), 2);
    assert!(rt; matches!(shelf.snapshot(1), Some(snapshot) if snapshot.phase == 1));
    assert!(rt; matches!(shelf.deletion(0), Some(deletion) if deletion.tag == 7));
    assert!(rt; shelf.deletion(1).is_none());
    assert!(rt; shelf.snapshot(2).is_none());
    Ok(())
}

#[test]
fn live_rows_alone_are_the_total(rt: HostRuntime) -> Result<(), AllocError> {
    let alloc = rt.alloc();
    let shelf = Shelf::new(alloc);
    assert_eq!(rt; shelf.sum(&LABEL), Amount::zero());
    let live = snapshot_of(alloc, 0, &[ROW])?;
    let total = shelf.merged(alloc, &live)?;
    assert_eq!(rt; total.as_slice(), [ROW].as_slice());
    Ok(())
}

#[test]
fn receipts_are_kept_whole(rt: HostRuntime) -> Result<(), AllocError> {
    let tagged = LineReceipt::Hook(Receipt {
        front: 3,
        tag_read: Seen {
            version: 1,
            value: Some(43164421324807),
        },
        rules_read: Some(Seen {
            version: 3,
            value: Some(4),
        }),
        owner_read: Some(UNREAD),
        set_read: None,
        phase: None,
        label: None,
        verdict: Verdict::Drop,
        landed_tag: None,
        landed_plain: None,
        landed_app: None,
    });
    let list = LineReceipt::List(ListReceipt {
        front: 3,
        owner_read: Some(Seen {
            version: 2,
            value: None,
        }),
        matched: false,
    });
    let mut recent = RecentFinds::new();
    let mut lane = ReceiptList::new(rt.alloc());
    assert!(rt; lane.is_empty());
    lane.push((9, tagged), &mut recent)?;
    lane.push((10, list), &mut recent)?;
    lane.push((11, tagged), &mut recent)?;
    assert_eq!(rt; lane.len(), 3);
    assert_eq!(rt; lane.get(0), Some((9, tagged)));
    assert_eq!(rt; lane.get(1), Some((10, list)));
    assert_eq!(rt; lane.get(2), Some((11, tagged)));
    assert_eq!(rt; lane.get(3), None);
    // In another list the places are of other finds.
    let mut other = ReceiptList::new(rt.alloc());
    other.push((9, list), &mut recent)?;
    other.push((10, tagged), &mut recent)?;
    assert_eq!(rt; other.get(0), Some((9, list)));
    assert_eq!(rt; other.get(1), Some((10, tagged)));
    Ok(())
}

// Takes what may go to another thread, and nothing else.
fn goes_to_threads<T: Send>(_value: &T) {}

#[test]
fn a_room_ends_as_a_list(rt: HostRuntime) -> Result<(), AllocError> {
    let receipt = LineReceipt::Iface(IfaceReceipt {
        matched: true,
        landed: Some(Mark::Full),
    });
    let mut room = ReceiptRoom::new(rt.alloc(), 1)?;
    goes_to_threads(&room);
    room.push((9, receipt));
    let mut lane = room.into_list();
    lane.push((10, receipt), &mut RecentFinds::new())?;
    assert_eq!(rt; lane.get(0), Some((9, receipt)));
    assert_eq!(rt; lane.get(1), Some((10, receipt)));
    let counts = CallCounts {
        calls: 2,
        passed: 0,
        dropped: 0,
        full: 2,
    };
    assert_eq!(rt; lane.counts(), counts);
    Ok(())
}
