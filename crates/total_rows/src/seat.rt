//! A seat at the totals.

ghost use Rattle.std.specs.Prelude.{◌≡◌, ◌+◌, ◌≤◌, ◌^◌};

use crate::plan::View;
use atomic_table::Seat;
use std::marker::Model;

pub(crate) type TableSeat = Seat<(), View>;

/// A seat of the totals, with calls of its own. It is seen as the calls that are left to it, those that it made,
/// the list of its adds with the rows where they landed, and what it learned of other seats' adds.
#[derive(Drop)]
pub struct TotalSeat {
    pub(crate) seat: TableSeat,
    pub(crate) left: u64,
    pub(crate) made: u64,
}

impl Model for TotalSeat {
    ghost use Rattle.total_rows.specs.Seats.{SeatState};

    ghost Value = { SeatState };

    ghost use Rattle.total_rows.specs.SeatInside.{seat_state, IsTotalSeat};

    ghost view = { seat_state };

    ghost invariant = { IsTotalSeat };
}

impl TotalSeat {
    /// The calls that the seat may still make.
    pub fn left(&self) -> u64
        ensures value { result ≡ self.now.left }
        ensures few { self.now.left + self.now.made ≤ 2 ^ 28 }
    {
        self.left
    }

    /// The calls that the seat made.
    pub fn made(&self) -> u64
        ensures value { result ≡ self.now.made }
        ensures few { self.now.left + self.now.made ≤ 2 ^ 28 }
    {
        self.made
    }
}
