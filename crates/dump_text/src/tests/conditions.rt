//! Whether a report has a dump, tried at run time, so that no report of a test needs a proof of its own.

ghost use Rattle.std.specs.Prelude.{◌≡◌, ◌==◌, ℕ, true, IfSome};
ghost use Rattle.std.specs.List.Sorted.{IsStrictlySortedBy};
ghost use Rattle.std.specs.Ordering.{nat_cmp};
ghost use Rattle.acct_base.specs.Amounts.{HasRoom, IsAtMost, amount_if, plus, total_by};
ghost use Rattle.acct_base.specs.Sums.{total_at, total_keys};
ghost use Rattle.acct_base.specs.declared.amount.Row.{Row as RowView};
ghost use Rattle.shelf.specs.Phases.{deleted_app, recorded_app, snapshot_rows};
ghost use Rattle.shelf.specs.Shown.{shown};
ghost use Rattle.dump_text.specs.Room.{AppsCoverDeletions, SumsFit};

use acct_base::{Amount, Row, Snapshot, Uid};
use shelf::{Deletion, Report};

// The sum of two amounts, where no number passes its word.
fn sum_of(a: Amount, b: Amount) -> Option<Amount>
    ensures value { IfSome result (λ sum. sum ≡ plus a b) }
    ensures room { IfSome result (λ sum. HasRoom sum) }
{
    Some(Amount {
        rx_packets: a.rx_packets.checked_add(b.rx_packets)?,
        rx_bytes: a.rx_bytes.checked_add(b.rx_bytes)?,
        tx_packets: a.tx_packets.checked_add(b.tx_packets)?,
        tx_bytes: a.tx_bytes.checked_add(b.tx_bytes)?,
    })
}

// Whether no number of an amount is above the other's.
fn is_at_most(a: Amount, b: Amount) -> bool
    ensures { result ≡ true → IsAtMost a b }
{
    a.rx_packets <= b.rx_packets
        && a.rx_bytes <= b.rx_bytes
        && a.tx_packets <= b.tx_packets
        && a.tx_bytes <= b.tx_bytes
}

// ---- the sums of labels

// What rows come to, of whatever labels, begun with what came before.
fn sum_of_rows(before: Amount, rows: &[Row]) -> Option<Amount>
    ensures { IfSome result (λ sum. sum ≡ plus before (total_by (λ (row : RowView). row.amount) rows.now)) }
{
    let mut sum = before;
    for row in rows {
        sum = sum_of(sum, row.amount)?;
    }
    Some(sum)
}

fn sum_of_snapshots(phases: &[(Snapshot, Option<Deletion>)]) -> Option<Amount>
    ensures { IfSome result (λ sum. sum ≡ total_by (λ (row : RowView). row.amount) (snapshot_rows phases.now)) }
{
    let mut sum = Amount::zero();
    for phase in phases {
        sum = sum_of_rows(sum, phase.0.rows.as_slice())?;
    }
    Some(sum)
}

// No label's rows come to more than all rows do.
fn sums_fit(report: &Report) -> Option<()>
    ensures { IfSome result (λ _. SumsFit (shown report.now)) }
{
    let ended = sum_of_snapshots(report.shelf.phases())?;
    let all = sum_of_rows(ended, report.live.rows.as_slice())?;
    sum_of(all, Amount::zero())?;
    Some(())
}

// ---- apps and deletions

// What a phase's deletion recorded of a uid's app.
fn recorded(phase: &(Snapshot, Option<Deletion>), uid: Uid) -> Amount
    ensures { result ≡ recorded_app uid phase.now }
{
    match &phase.1 {
        Some(deletion) if deletion.uid == uid => deletion.app.unwrap_or(Amount::zero()),
        _ => Amount::zero(),
    }
}

fn sum_of_recorded(phases: &[(Snapshot, Option<Deletion>)], uid: Uid) -> Option<Amount>
    ensures { IfSome result (λ sum. sum ≡ deleted_app phases.now uid) }
{
    let mut sum = Amount::zero();
    for phase in phases {
        sum = sum_of(sum, recorded(phase, uid))?;
    }
    Some(sum)
}

// What a total holds for a uid.
fn held(total: &(Uid, Amount), uid: Uid) -> Amount
    ensures { result ≡ amount_if (total.now.0 == uid) total.now.1 }
{
    if total.0 == uid {
        total.1
    } else {
        Amount::zero()
    }
}

fn sum_of_held(totals: &[(Uid, Amount)], uid: Uid) -> Option<Amount>
    ensures { IfSome result (λ sum. sum ≡ total_at totals.now uid) }
{
    let mut sum = Amount::zero();
    for total in totals {
        sum = sum_of(sum, held(total, uid))?;
    }
    Some(sum)
}

// Whether deletions recorded no more of a deletion's uid than its total.
fn covers(
    totals: &[(Uid, Amount)],
    phases: &[(Snapshot, Option<Deletion>)],
    deletion: &Option<Deletion>,
) -> bool
    ensures { result ≡ true → IfSome deletion.now (λ d. IsAtMost (deleted_app phases.now d.uid) (total_at totals.now d.uid)) }
{
    match deletion {
        None => true,
        Some(deletion) => covers_uid(totals, phases, deletion.uid),
    }
}

fn covers_uid(totals: &[(Uid, Amount)], phases: &[(Snapshot, Option<Deletion>)], uid: Uid) -> bool
    ensures { result ≡ true → IsAtMost (deleted_app phases.now uid) (total_at totals.now uid) }
{
    match (sum_of_recorded(phases, uid), sum_of_held(totals, uid)) {
        (Some(recorded), Some(held)) => is_at_most(recorded, held),
        _ => false,
    }
}

fn covers_all(totals: &[(Uid, Amount)], phases: &[(Snapshot, Option<Deletion>)]) -> Option<()>
    ensures { IfSome result (λ _. (uid : ℕ) → IsAtMost (deleted_app phases.now uid) (total_at totals.now uid)) }
{
    for phase in phases {
        if !covers(totals, phases, &phase.1) {
            return None;
        }
    }
    Some(())
}

fn ascend(totals: &[(Uid, Amount)]) -> Option<()>
    ensures { IfSome result (λ _. IsStrictlySortedBy nat_cmp (total_keys totals.now)) }
{
    // Below it are all uids so far.
    let mut least = 0;
    for total in totals {
        let uid = u64::from(total.0);
        if uid < least {
            return None;
        }
        least = uid + 1;
    }
    Some(())
}

/// Answers Some only where a report has a dump: no sum of it passes its word, its totals by uid ascend, and
/// deletions recorded no more than them.
pub fn has_dump(report: &Report) -> Option<()>
    ensures sums { IfSome result (λ _. SumsFit (shown report.now)) }
    ensures apps { IfSome result (λ _. AppsCoverDeletions (shown report.now)) }
{
    sums_fit(report)?;
    ascend(report.apps.as_slice())?;
    covers_all(report.apps.as_slice(), report.shelf.phases())?;
    Some(())
}
