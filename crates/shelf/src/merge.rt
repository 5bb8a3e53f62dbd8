//! Rows of many phases, those of one label added.

ghost use Rattle.std.specs.Prelude.{◌≡◌, ◌++◌, List, map, IfOk, OnOk};
ghost use Rattle.std.specs.List.Sorted.{IsStrictlySortedBy};
ghost use Rattle.acct_base.specs.Amounts.{HasRoom, plus, amount_at, label_cmp};
ghost use Rattle.acct_base.specs.declared.amount.Row.{Row as RowView};
ghost use Rattle.acct_base.specs.declared.label.Label.{Label as LabelView};
ghost use Rattle.shelf.specs.Merged.{IsMerged, AddsAmount, amount_of, row_of};

use acct_base::{Amount, Label, Row, RowList};
use std::alloc::{AllocError, Global};
use std::collections::BTreeMap;

// Adds a row to the sum of its label.
fn add_row(sums: &mut BTreeMap<Label, Amount>, row: &Row) -> Result<(), AllocError>
    requires room { HasRoom (plus (amount_of sums.old.entries row.now.label) row.now.amount) }
    ensures { OnOk result (AddsAmount sums.old.entries sums.new.entries row.now.label row.now.amount) }
{
    match sums.get_mut(&row.label) {
        Some(amount) => {
            *amount = amount.plus(&row.amount);
        }
        None => {
            sums.insert(row.label, row.amount)?;
        }
    }
    Ok(())
}

/// Adds rows to the sums of their labels. No sum may pass its word.
pub(crate) fn add_rows(sums: &mut BTreeMap<Label, Amount>, rows: &[Row]) -> Result<(), AllocError>
    requires room { (label : LabelView) → HasRoom (plus (amount_of sums.old.entries label) (amount_at rows.now label)) }
    ensures { (before : List RowView) → IsMerged sums.old.entries before → OnOk result (IsMerged sums.new.entries (before ++ rows.now)) }
{
    for row in rows {
        add_row(sums, row)?;
    }
    Ok(())
}

/// The rows of a map, in its order.
pub(crate) fn rows_of(alloc: Global, sums: &BTreeMap<Label, Amount>) -> Result<RowList, AllocError>
    ensures rows { IfOk result (λ rows. rows ≡ map row_of sums.now.entries) }
    ensures ordered { IsStrictlySortedBy label_cmp (map (λ e. e.0) sums.now.entries) }
{
    let mut rows = Vec::with_capacity(alloc, sums.len())?;
    for (label, amount) in sums {
        rows.push(Row {
            label: *label,
            amount: *amount,
        })?;
    }
    Ok(RowList::from_vec(rows))
}
