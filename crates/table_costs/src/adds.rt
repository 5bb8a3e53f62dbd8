//! Adds to totals.

ghost use Rattle.std.specs.Prelude.{◌≡◌, ◌≤◌, IfOk};

use crate::charges::row_of;
use crate::plan::Plan;
use crate::table::{Table, fill};
use acct_base::Dir;
use std::alloc::{AllocError, Global};
use total_rows::{TotalSeat, Totals};

/// How many calls the totals are made for.
const CALLS: u64 = 268_435_456;

/// Totals, with the one seat that adds.
#[derive(Drop)]
pub struct Adds {
    totals: Totals,
    seat: TotalSeat,
    ghost from: { seat.table ≡ totals.table },
}

impl Adds {
    /// Totals in which each key of the plan has a row.
    pub fn new(alloc: Global, plan: &Plan) -> Result<Adds, AllocError>
        requires { plan.now.rows ≤ 65536 }
        ensures { IfOk result (λ a. plan.now.calls ≤ a.seat.left) }
    {
        let (totals, seat) = Totals::new(alloc, plan.rows, CALLS)?;
        let mut adds = Adds { totals, seat };
        fill(&mut adds, plan);
        Ok(adds)
    }
}

impl Table for Adds {
    ghost left = { λ a. a.seat.left };

    /// A packet is added to the total of the key.
    fn turn(&mut self, key: u32) -> Option<u32> {
        row_of(self.totals.add(&mut self.seat, key, Dir::Ingress, 1, 60))
    }
}
