//! The room for a list of totals.

ghost use Rattle.std.specs.Prelude.{◌≡◌, IfOk};

use acct_base::Amount;
use std::alloc::{AllocError, Global};
use std::marker::Model;

/// Room for a list of totals. It is seen as the length of the longest list that it holds.
#[derive(Debug, Drop)]
pub struct TotalRoom {
    pub(crate) totals: Vec<(u32, Amount)>,
    rows: u32,
}

impl Model for TotalRoom {
    ghost use Rattle.std.specs.Prelude.{ℕ, ◌≡◌, ◌≤◌, [], vec_capacity};

    ghost Value = { ℕ };

    ghost view = { λ room. room.rows };

    ghost invariant = { λ room. (room.totals.items ≡ []) × (room.rows ≤ vec_capacity room.totals) };
}

impl TotalRoom {
    /// Room for every list of up to so many totals. It takes its memory here.
    pub fn new(alloc: Global, rows: u32) -> Result<TotalRoom, AllocError>
        ensures { IfOk result (λ room. room ≡ rows) }
    {
        Ok(TotalRoom {
            totals: Vec::with_capacity(alloc, rows as usize)?,
            rows,
        })
    }

    /// The length of the longest list that it holds.
    pub fn rows(&self) -> u32
        ensures { result ≡ self.now }
    {
        self.rows
    }
}
