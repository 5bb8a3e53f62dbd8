//! Two lanes of one socket beside a desk that tags the socket and deletes the tag's data, again and again.

use super::replay_with_gate;
use acct_base::{LineReceipt, Mark, RowList, Tag, TotalList};
use desk_core::Reply;
use outside::NoGate;
use replay_main::Outcome;
use shelf::{ReceiptList, ReplyList, SectionOut, Shelf};
use std::alloc::{AllocError, Global};
use std::test::Fail;

// Puts a text behind another, so many times.
fn put_often(text: &mut Vec<u8>, lines: &[u8], times: u32) -> Result<(), AllocError> {
    for _ in 0..times {
        text.extend_from_slice(lines)?;
    }
    Ok(())
}

// Two lanes of 40 packets each, and a desk that ten times tags their socket and deletes the tag's data.
fn script(alloc: Global) -> Result<Vec<u8>, AllocError> {
    let mut text = Vec::from_slice(alloc, b"netacct 1\nsection\n")?;
    for _ in 0..2 {
        text.extend_from_slice(b"lane\n")?;
        put_often(&mut text, b"in 10050 77 2 4 60 -\n", 40)?;
    }
    text.extend_from_slice(b"desk\n")?;
    put_often(&mut text, b"tag 1000 77 10060 7\ndel 1000 10060 7\n", 10)?;
    Ok(text)
}

// How many commands were done.
fn done(replies: &ReplyList) -> u32 {
    let mut count = 0_u32;
    for (_, reply) in replies.as_slice() {
        if *reply == Reply::Done {
            count = count.wrapping_add(1);
        }
    }
    count
}

// How many packets of a lane were charged to a tag.
fn tagged(lane: &ReceiptList) -> u64 {
    let mut count = 0_u64;
    for place in 0..lane.len() {
        if let Some((_, LineReceipt::Hook(receipt))) = lane.get(place)
            && receipt.landed_tag == Some(Mark::Landed)
        {
            count = count.wrapping_add(1);
        }
    }
    count
}

// The same of both lanes.
fn tagged_in(out: &SectionOut) -> Option<u64> {
    let first = tagged(out.lanes.get(0)?);
    Some(first.wrapping_add(tagged(out.lanes.get(1)?)))
}

// How many packets were received by rows with a tag.
fn received(rows: &RowList, tag: Tag) -> u64 {
    let mut sum = 0_u64;
    for row in rows.as_slice() {
        if row.label.tag == tag {
            sum = sum.wrapping_add(row.amount.rx_packets);
        }
    }
    sum
}

// How many the collections took, into snapshots and deletions.
fn collected(shelf: &Shelf, tag: Tag) -> u64 {
    let mut sum = 0_u64;
    for (snapshot, deletion) in shelf.phases() {
        sum = sum.wrapping_add(received(&snapshot.rows, tag));
        if let Some(deletion) = deletion {
            sum = sum.wrapping_add(received(&deletion.rows, tag));
        }
    }
    sum
}

// How many packets were received in all.
fn received_by_apps(apps: &TotalList) -> u64 {
    let mut sum = 0_u64;
    for (_, amount) in apps.as_slice() {
        sum = sum.wrapping_add(amount.rx_packets);
    }
    sum
}

/// What a replay comes to.
#[derive(Clone, Copy, Debug, PartialEq, Eq)]
struct Sums {
    /// How many commands were done, and how many phases ended.
    done: u32,
    phases: u32,
    /// How many packets the rows have, those that are left and those that were collected.
    plain: u64,
    tagged: u64,
    /// How many packets the receipts charged to the tag.
    receipts_tagged: u64,
    /// How many packets the apps have.
    apps: u64,
}

// The sums of a report with a section of two lanes.
fn sums_of(outcome: &Outcome) -> Option<Sums> {
    let report = outcome.report.as_ref()?;
    let out = report.sections.get(0)?;
    let live = &report.live.rows;
    Some(Sums {
        done: done(&out.replies),
        phases: report.shelf.len(),
        plain: received(live, 0).wrapping_add(collected(&report.shelf, 0)),
        tagged: received(live, 7).wrapping_add(collected(&report.shelf, 7)),
        receipts_tagged: tagged_in(out)?,
        apps: received_by_apps(&report.apps),
    })
}

// The packets of the tag and of the plain rows stand in snapshots, in deletions and in the rows that are left, each
// once, however the lanes fell between the deletions.
#[test]
fn sums_are_exact_beside_deletions(rt: HostRuntime) -> Result<(), Fail> {
    let script = script(rt.alloc())?;
    let outcome = replay_with_gate(&rt, rt.alloc(), &script, &NoGate)?;
    let sums = sums_of(&outcome).ok_or("a report of two lanes")?;
    assert_eq!(rt; sums.tagged, sums.receipts_tagged);
    let exact = Sums {
        done: 20,
        phases: 10,
        plain: 80,
        apps: 80,
        ..sums
    };
    assert_eq!(rt; sums, exact);
    Ok(())
}
