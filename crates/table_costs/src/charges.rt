//! Charges to the maps of statistics.

ghost use Rattle.std.specs.Prelude.{◌≡◌, ◌+◌, ◌≤◌, None, IfOk};

use crate::plan::Plan;
use crate::table::{Table, fill};
use acct_base::{Dir, Label, Landed};
use grace_rows::{HookSeat, Paired};
use std::alloc::{AllocError, Global};

/// How many calls the maps are made for.
const CALLS: u64 = 268_435_456;

/// The maps, with the one seat that charges.
#[derive(Drop)]
pub struct Charges {
    paired: Paired,
    seat: HookSeat,
    ghost from: { seat.table ≡ paired.table },
    ghost outside: { seat.entry ≡ None },
}

impl Charges {
    /// Maps in which each key of the plan has a row.
    pub fn new(alloc: Global, plan: &Plan) -> Result<Charges, AllocError>
        requires { plan.now.rows ≤ 5000 }
        ensures { IfOk result (λ c. plan.now.calls ≤ c.seat.left) }
    {
        let (paired, seat, _) = Paired::new(alloc, plan.rows, CALLS)?;
        let mut charges = Charges { paired, seat };
        fill(&mut charges, plan);
        Ok(charges)
    }
}

/// The row where a charge landed.
pub fn row_of(landed: Landed) -> Option<u32> {
    match landed {
        Landed::Row(row) => Some(row),
        Landed::Full => None,
    }
}

impl Table for Charges {
    ghost left = { λ c. c.seat.left };

    /// A packet's call, with one charge to the label whose uid is the key.
    fn turn(&mut self, key: u32) -> Option<u32> {
        let label = Label {
            uid: key,
            tag: 0,
            set: 0,
            iface: 1,
        };
        let mut entry = self.paired.enter(&mut self.seat);
        let landed = self
            .paired
            .charge(&mut self.seat, &mut entry, label, Dir::Ingress, 1, 60);
        self.paired.exit(&mut self.seat, entry);
        row_of(landed)
    }
}
