//! A table to whose keys calls go.

ghost use Rattle.std.specs.Prelude.{◌≡◌, ℕ, ◌+◌, ◌-◌, ◌^◌, ◌<◌, ◌≤◌};

use crate::keys::{Order, key_at};
use crate::plan::Plan;

/// A table to whose keys calls go.
pub trait Table {
    /// How many calls may still be made.
    ghost left: { Self → ℕ };

    /// Makes a call, and says where the key was found, or what was found there. None means that it was
    /// not found.
    fn turn(&mut self, key: u32) -> Option<u32>
        requires left { 0 < left self.old }
        requires key { (1 ≤ key) × (key ≤ 2147483648) }
        ensures { left self.old ≤ left self.new + 1 };
}

/// How many calls found their key, how many did not, and the sum of what the others gave, as a u64
/// wraps.
#[derive(Clone, Copy, Debug, PartialEq, Eq)]
pub struct Tally {
    pub hits: u64,
    pub misses: u64,
    pub sum: u64,
}

impl Tally {
    // Counts a call.
    fn note(&mut self, found: Option<u32>)
        requires { self.old.hits + self.old.misses < 2 ^ 64 - 1 }
        ensures { self.new.hits + self.new.misses ≡ self.old.hits + self.old.misses + 1 }
    {
        match found {
            Some(number) => {
                self.hits += 1;
                self.sum = self.sum.wrapping_add(u64::from(number));
            }
            None => self.misses += 1,
        }
    }
}

/// Makes a call to each key of the plan, so that the table has them all.
pub fn fill<T: Table>(table: &mut T, plan: &Plan)
    requires { plan.now.keys ≤ T.left table.old }
    ensures { T.left table.old ≤ T.left table.new + plan.now.keys }
{
    for index in 0..plan.keys {
        let _ = table.turn(key_at(plan.spread, index));
    }
}

/// Makes the calls of the plan, in a scattered order.
pub fn all_turns<T: Table>(table: &mut T, plan: &Plan) -> Tally
    requires { plan.now.calls ≤ T.left table.old }
    ensures { result.hits + result.misses ≡ plan.now.calls }
{
    let mut order = Order::new();
    let mut tally = Tally {
        hits: 0,
        misses: 0,
        sum: 0,
    };
    for _made in 0..plan.calls {
        let index = order.next(plan.keys);
        tally.note(table.turn(key_at(plan.spread, index)));
    }
    tally
}
