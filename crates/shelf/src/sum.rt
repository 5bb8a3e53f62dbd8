//! What rows hold for one label.

ghost use Rattle.std.specs.Prelude.{◌≡◌};
ghost use Rattle.acct_base.specs.Amounts.{HasRoom, plus, amount_at, amount_if, same_label};

use acct_base::{Amount, Label, Row};

// What a row holds for a label.
fn amount_for(row: &Row, label: &Label) -> Amount
    ensures { result ≡ amount_if (same_label row.now.label label.now) row.now.amount }
{
    if row.label.is_same(label) {
        row.amount
    } else {
        Amount::zero()
    }
}

/// A sum with what rows hold for a label. No number may pass its word.
pub(crate) fn sum_with(before: Amount, rows: &[Row], label: &Label) -> Amount
    requires room { HasRoom (plus before (amount_at rows.now label.now)) }
    ensures { result ≡ plus before (amount_at rows.now label.now) }
{
    let mut sum = before;
    for row in rows {
        sum = sum.plus(&amount_for(row, label));
    }
    sum
}
