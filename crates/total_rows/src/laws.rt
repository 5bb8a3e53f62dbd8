//! A law of what seats know. It is the contract of a function with nothing to do.

ghost use Rattle.std.specs.Prelude.{ℕ};
ghost use Rattle.acct_base.specs.Amounts.{IsAtMost};
ghost use Rattle.acct_base.specs.Sums.{added};
ghost use Rattle.total_rows.specs.Seats.{SeatState, known};

/// A seat knows of a key at least the sum of its own landed adds.
pub fn seats_know_their_own_adds()
    ensures { (seat : SeatState) (key : ℕ) → IsAtMost (added seat.adds key) (known seat key) }
{}
