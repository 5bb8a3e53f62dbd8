//! Rows and totals out of the ledgers, and rows divided by a deletion.

ghost use Rattle.std.specs.Prelude.{◌≡◌, ◌==◌, ◌&&◌, ◌||◌, not, map, filter, IfOk, List as Listed};
ghost use Rattle.std.specs.Ordering.{nat_cmp};
ghost use Rattle.std.specs.List.Sorted.{IsStrictlySortedBy};
ghost use Rattle.acct_base.specs.Amounts.{IsAtMost};
ghost use Rattle.shelf.specs.Phases.{is_deleted};
ghost use Rattle.acct_plain.specs.Serial.{less};

use crate::ledger::Ledger;
use acct_base::{Amount, List, Row, RowList, Tag, TotalList, Uid};
use std::alloc::{AllocError, Global};

/// The totals of a ledger, ascending by key.
pub(crate) fn totals_of(alloc: Global, ledger: &Ledger<u32>) -> Result<TotalList, AllocError>
    ensures totals { IfOk result (λ totals. totals ≡ ledger.now) }
    ensures ordered { IsStrictlySortedBy nat_cmp (map (λ e. e.0) ledger.now) }
{
    let pairs = ledger.pairs(alloc)?;
    Ok(List::from_vec(pairs))
}

/// The difference of two amounts, number by number.
pub(crate) fn less(a: Amount, b: Amount) -> Amount
    requires { IsAtMost b a }
    ensures { result ≡ less a b }
{
    Amount {
        rx_packets: a.rx_packets - b.rx_packets,
        rx_bytes: a.rx_bytes - b.rx_bytes,
        tx_packets: a.tx_packets - b.tx_packets,
        tx_bytes: a.tx_bytes - b.tx_bytes,
    }
}

// A deletion takes this row.
fn is_taken(row: &Row, uid: Uid, tag: Tag) -> bool
    ensures { result ≡ is_deleted uid tag row.now }
{
    row.label.uid == uid && (tag == 0 || row.label.tag == tag)
}

/// Divides rows by a deletion: those that it leaves, and those that it takes.
pub(crate) fn divide(
    alloc: Global,
    rows: &[Row],
    uid: Uid,
    tag: Tag,
) -> Result<(RowList, RowList), AllocError>
    ensures left { IfOk result (λ parts. parts.0 ≡ filter (λ row. not (is_deleted uid tag row)) rows.now) }
    ensures taken { IfOk result (λ parts. parts.1 ≡ filter (is_deleted uid tag) rows.now) }
{
    // Nearly all rows are left.
    let mut left = Vec::with_capacity(alloc, rows.len())?;
    let mut taken = RowList::new(alloc);
    for row in rows {
        if is_taken(row, uid, tag) {
            taken.push(*row)?;
        } else {
            left.push(*row)?;
        }
    }
    Ok((RowList::from_vec(left), taken))
}
