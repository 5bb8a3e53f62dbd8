//! The number of rows of a table, by which a hash is divided without a division.

ghost use Rattle.std.specs.Prelude.{◌≡◌, ◌<◌, ◌≤◌, ◌%◌};

use std::marker::Model;

/// What a reciprocal counts in: it is so much over a number of rows.
const WHOLE: u64 = 4_294_967_296;

/// The number of rows of a table, at least 1, with its reciprocal, which is made once. It is seen as the number.
#[derive(Debug, Drop)]
pub struct Rows {
    count: u32,
    reciprocal: u64,
}

impl Model for Rows {
    ghost use Rattle.std.specs.Prelude.{ℕ, ◌≡◌, ◌≤◌, ◌/◌};

    ghost Value = { ℕ };

    ghost view = { λ rows. rows.count };

    ghost invariant = { λ rows. (1 ≤ rows.count) × (rows.reciprocal ≡ 4294967296 / rows.count) };
}

impl Rows {
    /// So many rows. The one division is made here.
    pub fn new(count: u32) -> Rows
        requires { 1 ≤ count }
        ensures { result ≡ count }
    {
        Rows {
            count,
            reciprocal: WHOLE / u64::from(count),
        }
    }

    /// How many there are.
    pub fn count(&self) -> u32
        ensures count { result ≡ self.now }
        ensures some { 1 ≤ result }
    {
        self.count
    }

    /// What is left of a number when it is divided by the number of rows.
    pub fn remainder(&self, number: u32) -> u32
        ensures value { result ≡ number % self.now }
        ensures within { result < self.now }
    {
        let count = u64::from(self.count);
        let number = u64::from(number);
        // The reciprocal is rounded down, so the quotient may be one too small.
        let quotient = number * self.reciprocal / WHOLE;
        let rest = number - quotient * count;
        if rest < count {
            rest as u32
        } else {
            (rest - count) as u32
        }
    }
}
