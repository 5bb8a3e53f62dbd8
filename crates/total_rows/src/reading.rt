//! The call that reads.

ghost use Rattle.std.specs.Prelude.{◌≡◌, ◌≢◌, ◌+◌, ◌<◌, ℕ};
ghost use Rattle.acct_base.specs.Amounts.{IsAtMost};
ghost use Rattle.acct_base.specs.Sums.{added as total_of};
ghost use Rattle.total_rows.specs.Seats.{IsSole, IsWithin, KnowsAll, KnowsItsOwn, known};
ghost use Rattle.total_rows.specs.Plays.{Settled};
ghost use Rattle.total_rows.specs.Rows.{IsTry};
ghost use Rattle.total_rows.specs.SeatSteps.{IsSameSeat};
ghost use Rattle.total_rows.specs.ReadSteps.{Finds, ReadsRow, ReadsKey};
ghost use Rattle.total_rows.specs.declared.plan.Stage.TheVariants.{Idle, Reading};

use crate::seat::{TableSeat, TotalSeat};
use crate::totals::Totals;
use crate::turns::{Try, code_of};
use acct_base::Amount;
use std::marker::Brand;

impl Totals {
    /// The total of a key, as far as its adds are seen: packets and bytes, each number at least what the seat
    /// knows of it. The seat knows the answer afterwards. It takes no memory and waits for nobody.
    pub fn read(&self, seat: &mut TotalSeat, key: u32) -> Amount
        requires from { seat.old.table ≡ self.now.table }
        ensures seat { seat.new ≡ record seat.old { notes = seat.new.notes } }
        ensures known { result ≡ known seat.new key }
        ensures least { IsAtMost (known seat.old key) result }
        ensures grows { KnowsAll seat.old seat.new }
        ensures others { (other : ℕ) → other ≢ key → known seat.new other ≡ known seat.old other }
        // A seat that has all calls reads the sum of its own landed adds.
        ensures sole { IsSole self.now seat.old → result ≡ total_of seat.old.adds key }
        ensures own { KnowsItsOwn self.now seat.new }
        ensures within { IsWithin self.now seat.new }
    {
        self.read_key(&mut seat.seat, key)
    }

    fn read_key(&self, seat: &mut TableSeat, key: u32) -> Amount
        requires from { seat.old.table_id ≡ self.now.table }
        requires rests { seat.old.me.0.stage ≡ Idle }
        ensures seat { IsSameSeat seat.old seat.new }
        ensures read { ReadsKey self.now.calls key seat.old.me.0 result seat.new.me.0 }
        ensures settled { Settled self.now.calls seat.old.me.0 }
    {
        match self.find(seat, key) {
            None => Amount::zero(),
            Some(at) => self.read_row(seat, key, at),
        }
    }

    // Looks for the row of a key, and stands at it where there is one.
    fn find(&self, seat: &mut TableSeat, key: u32) -> Option<Try>
        requires from { seat.old.table_id ≡ self.now.table }
        requires rests { seat.old.me.0.stage ≡ Idle }
        ensures seat { IsSameSeat seat.old seat.new }
        ensures found { Finds self.now.rows key seat.old.me.0 result seat.new.me.0 }
        ensures settled { Settled self.now.calls seat.old.me.0 }
    {
        let code = code_of(key);
        let mut at = self.first_try(key);
        loop {
            let found = self.look_at_row::<Brand>(seat, key, at);
            if found == code {
                return Some(at);
            }
            if found == 0 || at.turn + 1 == self.plan.rows {
                return None;
            }
            at = self.next_try(at);
        }
    }

    fn read_row(&self, seat: &mut TableSeat, key: u32, at: Try) -> Amount
        requires from { seat.old.table_id ≡ self.now.table }
        requires row { (seat.old.me.0.stage ≡ Reading key at.turn) × IsTry self.now.rows key at }
        ensures seat { IsSameSeat seat.old seat.new }
        ensures read { ReadsRow self.now.calls key seat.old.me.0 result seat.new.me.0 }
    {
        let rx_packets = self.read_number::<Brand>(seat, key, at, 0);
        let rx_bytes = self.read_number::<Brand>(seat, key, at, 1);
        let tx_packets = self.read_number::<Brand>(seat, key, at, 2);
        let tx_bytes = self.read_number::<Brand>(seat, key, at, 3);
        Amount {
            rx_packets,
            rx_bytes,
            tx_packets,
            tx_bytes,
        }
    }
}
