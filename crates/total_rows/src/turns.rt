//! Where a key's row is looked for: turn by turn, each time at the row behind the last.

ghost use Rattle.std.specs.Prelude.{◌≡◌, ◌+◌, ◌<◌, ℕ};
ghost use Rattle.total_rows.specs.Rows.{code, IsTry};

use crate::totals::Totals;
use row_probe::{first_place, next_place};

/// A turn of the search for a key's row, and the row that is tried at it.
#[derive(Clone, Copy)]
pub struct Try {
    pub turn: u32,
    pub row: u32,
}

/// The word of a key, which is not 0.
pub(crate) fn code_of(key: u32) -> u64
    ensures { result ≡ code key }
{
    u64::from(key) + 1
}

impl Totals {
    /// The first turn of the search for a key's row.
    pub(crate) fn first_try(&self, key: u32) -> Try
        ensures first { result.turn ≡ 0 }
        ensures row { IsTry self.now.rows key result }
    {
        Try {
            turn: 0,
            row: first_place(code_of(key), 1, &self.rows),
        }
    }

    /// The turn behind a turn.
    pub(crate) fn next_try(&self, at: Try) -> Try
        requires inside { at.row < self.now.rows }
        requires more { at.turn + 1 < self.now.rows }
        ensures next { result.turn ≡ at.turn + 1 }
        ensures row { (key : ℕ) → IsTry self.now.rows key at → IsTry self.now.rows key result }
    {
        let rows = self.plan.rows;
        Try {
            turn: at.turn + 1,
            row: next_place(at.row, rows),
        }
    }
}
