//! Which keys a table gets, and in which order they are asked for.

ghost use Rattle.std.specs.Prelude.{◌<◌, ◌≤◌};

use crate::plan::Spread;

/// The first of the keys that lie near. It is Android's first uid of an app.
const FIRST: u32 = 10_000;

/// All keys are at most this.
const MOST: u32 = 2_147_483_648;

// A number below 2^31 for each number below 2^31, and no two get the same: both factors are odd, and
// what the shift adds to the lower bits, the upper ones tell.
fn scattered(index: u32) -> u32
    ensures { result < 2147483648 }
{
    let upper = index.wrapping_mul(739_982_445) % MOST;
    (upper ^ (upper >> 15)).wrapping_mul(695_872_825) % MOST
}

/// The key of an index. No two indices have the same.
pub fn key_at(spread: Spread, index: u32) -> u32
    requires { index < 262144 }
    ensures some { 1 ≤ result }
    ensures few { result ≤ 2147483648 }
{
    match spread {
        Spread::Near => FIRST + index,
        Spread::Far => 1 + scattered(index),
    }
}

/// A scattered order of indices, the same at each run.
#[derive(Drop)]
pub struct Order {
    state: u64,
}

impl Order {
    /// The order's start.
    pub fn new() -> Order {
        Order { state: 1 }
    }

    /// The next index below a count.
    pub fn next(&mut self, count: u32) -> u32
        requires { 1 ≤ count }
        ensures { result < count }
    {
        self.state = self
            .state
            .wrapping_mul(6_364_136_223_846_793_005)
            .wrapping_add(1_442_695_040_888_963_407);
        ((self.state >> 33) % u64::from(count)) as u32
    }
}
