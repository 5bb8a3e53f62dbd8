//! The counts of receipts.

ghost use Rattle.std.specs.Prelude.{◌≡◌, ◌≤◌, [], IfSome, IfNone};
ghost use Rattle.shelf.specs.Counted.{passed, dropped, full_mark, line_counts, counts_of, counts_together, CountsFit};

use acct_base::{LineReceipt, Mark, Receipt, Verdict};

/// How many receipts there are, how many of them passed a packet and how many dropped one, and how many
/// marks say that a table was full.
#[derive(Clone, Copy, Debug, PartialEq, Eq)]
pub struct CallCounts {
    pub calls: u64,
    pub passed: u64,
    pub dropped: u64,
    pub full: u64,
}

const NONE: CallCounts = CallCounts {
    calls: 0,
    passed: 0,
    dropped: 0,
    full: 0,
};

impl CallCounts {
    /// The counts of no receipts.
    pub fn none() -> CallCounts
        ensures { result ≡ counts_of [] }
    {
        NONE
    }

    /// These counts with those of one receipt more, which may not pass their words.
    // Each receipt that is kept is counted, and what its program did is known where it is.
    #[inline(always)]
    pub fn with(self, receipt: &LineReceipt) -> CallCounts
        requires fits { CountsFit (counts_together self (line_counts receipt.now)) }
        ensures { result ≡ counts_together self (line_counts receipt.now) }
    {
        let one = line_counts(receipt);
        CallCounts {
            calls: self.calls + one.calls,
            passed: self.passed + one.passed,
            dropped: self.dropped + one.dropped,
            full: self.full + one.full,
        }
    }

    /// Both counts together; None where one of them passes its word.
    pub fn checked_add(self, other: CallCounts) -> Option<CallCounts>
        ensures some { IfSome result (λ c. c ≡ counts_together self other) }
        ensures none { IfNone result (CountsFit (counts_together self other) → ⊥) }
    {
        Some(CallCounts {
            calls: self.calls.checked_add(other.calls)?,
            passed: self.passed.checked_add(other.passed)?,
            dropped: self.dropped.checked_add(other.dropped)?,
            full: self.full.checked_add(other.full)?,
        })
    }
}

#[inline(always)]
fn full_mark(mark: Option<Mark>) -> u64
    ensures value { result ≡ full_mark mark }
    ensures at_most_one { result ≤ 1 }
{
    match mark {
        Some(Mark::Full) => 1,
        Some(Mark::Landed) | None => 0,
    }
}

// What a hook's receipt counts for.
#[inline(always)]
fn hook_counts(receipt: &Receipt) -> CallCounts
    ensures { result ≡ line_counts (LineReceipt.Hook receipt.now) }
{
    let (passed, dropped) = match receipt.verdict {
        Verdict::Pass => (1, 0),
        Verdict::Drop => (0, 1),
    };
    let full = full_mark(receipt.landed_tag)
        + full_mark(receipt.landed_plain)
        + full_mark(receipt.landed_app);
    CallCounts {
        calls: 1,
        passed,
        dropped,
        full,
    }
}

// What a receipt counts for.
#[inline(always)]
fn line_counts(receipt: &LineReceipt) -> CallCounts
    ensures { result ≡ line_counts receipt.now }
{
    match receipt {
        LineReceipt::Hook(receipt) => hook_counts(receipt),
        LineReceipt::Iface(receipt) => CallCounts {
            calls: 1,
            full: full_mark(receipt.landed),
            ..NONE
        },
        LineReceipt::List(_) => CallCounts { calls: 1, ..NONE },
    }
}
