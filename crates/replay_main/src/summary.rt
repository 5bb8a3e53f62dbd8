//! The summary of a replay of the generated script: the counts of its dump, and the sums of its rows.

ghost use Rattle.std.specs.Prelude.{◌≡◌, ◌+◌, IfOk, string_bytes};
ghost use Rattle.acct_base.specs.Amounts.{plus};
ghost use Rattle.shelf.specs.Phases.{kept_rows};
ghost use Rattle.shelf.specs.Shown.{shown};
ghost use Rattle.replay_main.specs.Summary.{is_row_of, row_amount, rows_sum, sums_of, sums_text, summary};

use acct_base::{Amount, Row};
use dump_text::report_counts;
use shelf::{CallCounts, Report};
use std::alloc::{AllocError, Global};
use std::fmt::Write;

/// What a summary tells of a report.
#[derive(Clone, Copy, Debug, PartialEq, Eq)]
pub struct Sums {
    pub counts: CallCounts,
    pub writes: u64,
    pub phase: u32,
    /// What the rows without a tag hold.
    pub plain: Amount,
    /// What the rows with a tag hold, in both directions together.
    pub tagged_packets: u64,
    pub tagged_bytes: u64,
}

// The sum of two numbers. Where it passes its word, memory for what was counted has long run out.
fn sum(a: u64, b: u64) -> Result<u64, AllocError>
    ensures { IfOk result (λ s. s ≡ a + b) }
{
    a.checked_add(b).ok_or(AllocError)
}

// Both amounts together.
fn amounts_together(a: &Amount, b: &Amount) -> Result<Amount, AllocError>
    ensures { IfOk result (λ s. s ≡ plus a.now b.now) }
{
    Ok(Amount {
        rx_packets: sum(a.rx_packets, b.rx_packets)?,
        rx_bytes: sum(a.rx_bytes, b.rx_bytes)?,
        tx_packets: sum(a.tx_packets, b.tx_packets)?,
        tx_bytes: sum(a.tx_bytes, b.tx_bytes)?,
    })
}

// What a row holds, if it is one with a tag, or one without.
fn row_amount(tagged: bool, row: &Row) -> Amount
    ensures { result ≡ row_amount tagged row.now }
{
    if (row.label.tag != 0) == tagged {
        row.amount
    } else {
        Amount::zero()
    }
}

// What the rows with a tag hold together, or those without one.
fn rows_sum(tagged: bool, rows: &[Row]) -> Result<Amount, AllocError>
    ensures { IfOk result (λ s. s ≡ rows_sum tagged rows.now) }
{
    let mut sum = Amount::zero();
    for row in rows {
        sum = amounts_together(&sum, &row_amount(tagged, row))?;
    }
    Ok(sum)
}

// The same of all rows that a dump's total has.
fn report_sum(tagged: bool, report: &Report) -> Result<Amount, AllocError>
    ensures { IfOk result (λ s. s ≡ rows_sum tagged (kept_rows report.now.shelf.phases report.now.live)) }
{
    let mut sum = Amount::zero();
    for (snapshot, _) in report.shelf.phases() {
        let rows = rows_sum(tagged, snapshot.rows.as_slice())?;
        sum = amounts_together(&sum, &rows)?;
    }
    let live = rows_sum(tagged, report.live.rows.as_slice())?;
    amounts_together(&sum, &live)
}

// What the summary tells of a report.
fn report_sums(report: &Report) -> Result<Sums, AllocError>
    ensures { IfOk result (λ s. s ≡ sums_of (shown report.now)) }
{
    let tagged = report_sum(true, report)?;
    Ok(Sums {
        counts: report_counts(report)?,
        writes: report.journal.len() as u64,
        phase: report.live.phase,
        plain: report_sum(false, report)?,
        tagged_packets: sum(tagged.rx_packets, tagged.tx_packets)?,
        tagged_bytes: sum(tagged.rx_bytes, tagged.tx_bytes)?,
    })
}

// The line of these counts and sums.
fn sums_line(alloc: Global, rounds: u32, sums: &Sums) -> Result<String, AllocError>
    ensures { IfOk result (λ line. string_bytes line ≡ sums_text rounds sums.now) }
{
    let Sums { counts, plain, .. } = sums;
    let mut line = String::new(alloc);
    write!(
        line,
        "bulk {rounds} calls {} pass {} drop {} full {} writes {} phase {} rx {} {} tx {} {} tagged {} {}\n",
        counts.calls,
        counts.passed,
        counts.dropped,
        counts.full,
        sums.writes,
        sums.phase,
        plain.rx_packets,
        plain.rx_bytes,
        plain.tx_packets,
        plain.tx_bytes,
        sums.tagged_packets,
        sums.tagged_bytes
    )?;
    Ok(line)
}

/// The summary of a replay of so many rounds of the generated script. A sum that passes its word is told as a
/// want of memory, which has long run out by then.
pub fn summary_line(alloc: Global, rounds: u32, report: &Report) -> Result<String, AllocError>
    ensures { IfOk result (λ line. string_bytes line ≡ summary rounds (shown report.now)) }
{
    let sums = report_sums(report)?;
    sums_line(alloc, rounds, &sums)
}
