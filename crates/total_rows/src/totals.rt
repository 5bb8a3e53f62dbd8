//! The table of totals.

ghost use Rattle.std.specs.Prelude.{◌≡◌, ◌*◌, ◌≤◌, [], replicate, IfOk, ◌^◌};

use crate::plan::{Plan, Ruled, View};
use crate::seat::TotalSeat;
use atomic_table::Table;
use row_probe::Rows;
use std::alloc::{AllocError, Global};
use std::marker::Model;

pub(crate) type TotalTable = Table<(), View, Plan, Ruled, Global>;

/// Totals by key. Word p of their table is the key of row p plus 1, or 0 where the row is free; behind the key
/// words stand four numbers a row: packets and bytes received, packets and bytes sent.
#[derive(Drop)]
pub struct Totals {
    pub(crate) table: TotalTable,
    pub(crate) plan: Plan,
    // The rows of the plan, by which hashes are divided.
    pub(crate) rows: Rows,
}

impl Model for Totals {
    ghost use Rattle.total_rows.specs.Seats.{TotalsState};

    ghost Value = { TotalsState };

    ghost use Rattle.total_rows.specs.TotalsInside.{totals_state, IsTotals};

    ghost view = { totals_state };

    ghost invariant = { IsTotals };
}

// Words that are all 0.
fn zeros(alloc: Global, count: usize) -> Result<Vec<u64>, AllocError>
    ensures { IfOk result (λ words. words.items ≡ replicate count 0) }
{
    vec![in alloc; 0; count]
}

impl Totals {
    /// Totals with so many rows, whose seats may make so many adds in all, and their first seat, which has
    /// these calls. All memory that the totals ever need is taken here.
    pub fn new(alloc: Global, rows: u32, calls: u64) -> Result<(Totals, TotalSeat), AllocError>
        requires rows { (1 ≤ rows) × (rows ≤ 65536) }
        requires calls { (1 ≤ calls) × (calls ≤ 2 ^ 28) }
        ensures totals { IfOk result (λ t. (t.0.rows ≡ rows) × (t.0.calls ≡ calls)) }
        ensures seat { IfOk result (λ t. t.1 ≡ record { table = t.0.table; left = calls; made = 0; adds = []; places = []; notes = [] }) }
    {
        let plan = Plan { rows, calls };
        let words = zeros(alloc, 5 * rows as usize)?;
        let (table, seat) = Table::of_words(alloc, words.as_slice(), &plan)?;
        let seat = TotalSeat {
            seat,
            left: calls,
            made: 0,
        };
        let rows = Rows::new(rows);
        Ok((Totals { table, plan, rows }, seat))
    }
}
