//! The call that adds.

ghost use Rattle.std.specs.Prelude.{◌≡◌, ◌+◌, ◌-◌, ◌<◌, ◌∷◌, ◌++◌, [], map};
ghost use Rattle.acct_base.specs.Landings.{is_row, IsBelow, add_lands};
ghost use Rattle.acct_base.specs.Length.{IsChargeable};
ghost use Rattle.total_rows.specs.Rows.{IsTry};
ghost use Rattle.total_rows.specs.Rule.{IsJob, calls};
ghost use Rattle.total_rows.specs.Plays.{begun, Trying, Tried, Settled};
ghost use Rattle.total_rows.specs.Seats.{IsSole, IsWithin, IsOneToOne, KnowsAll, KnowsItsOwn, placed};
ghost use Rattle.total_rows.specs.SeatSteps.{IsSameSeat};
ghost use Rattle.total_rows.specs.Shown.{shown, places_of};
ghost use Rattle.total_rows.specs.declared.plan.Stage.TheVariants.{Idle};

use crate::plan::Job;
use crate::seat::{TableSeat, TotalSeat};
use crate::totals::Totals;
use crate::turns::{Try, code_of};
use acct_base::{Dir, Landed};
use std::marker::Brand;

impl Totals {
    /// Adds packets and bytes, each from 1 to 524,287, to the total of a key below 4294967295.
    ///
    /// It answers the key's row, where they landed, or `Full` where every row belongs to another key. All adds of
    /// a key land in one row, and no two keys share a row. It spends one call of the seat either way, takes no
    /// memory and waits for nobody.
    pub fn add(&self, seat: &mut TotalSeat, key: u32, dir: Dir, packets: u64, bytes: u64) -> Landed
        requires from { seat.old.table ≡ self.now.table }
        requires left { 0 < seat.old.left }
        requires key { key < 4294967295 }
        requires amounts { IsChargeable packets bytes }
        ensures seat { seat.new ≡ record seat.old {
          left = seat.old.left - 1;
          made = seat.old.made + 1;
          adds = seat.old.adds ++ record { key = key; dir = dir; packets = packets; bytes = bytes; landed = is_row result } ∷ [];
          places = seat.new.places;
        } }
        ensures places { seat.new.places ≡ seat.old.places ++ placed key result }
        ensures one_to_one { IsOneToOne seat.new.places }
        ensures row { IsBelow self.now.rows result }
        // For a seat that has all calls, the answer follows from its own adds.
        ensures in_turn { IsSole self.now seat.old → is_row result ≡ add_lands self.now.rows seat.old.adds key }
        ensures grows { KnowsAll seat.old seat.new }
        ensures own { KnowsItsOwn self.now seat.new }
        ensures within { IsWithin self.now seat.new }
    {
        let job = Job {
            key,
            dir,
            packets,
            bytes,
        };
        let landed = self.add_job(&mut seat.seat, job);
        seat.left -= 1;
        seat.made += 1;
        landed
    }

    // Tries row after row, until one is the key's or all are others'.
    fn add_job(&self, seat: &mut TableSeat, job: Job) -> Landed
        requires from { seat.old.table_id ≡ self.now.table }
        requires left { (0 < seat.old.me.0.left) × (seat.old.me.0.stage ≡ Idle) }
        requires job { IsJob job }
        ensures seat { IsSameSeat seat.old seat.new }
        ensures view { seat.new.me.0 ≡ record (begun seat.old.me.0 Idle) { adds = seat.old.me.0.adds ++ record { job = job; landed = result } ∷ [] } }
        ensures row { IsBelow self.now.rows result }
        ensures one_to_one { IsOneToOne (places_of seat.new.me.0.adds) }
        ensures in_turn { calls seat.old.me.0 ≡ self.now.calls → is_row result ≡ add_lands self.now.rows (map shown seat.old.me.0.adds) job.key }
        ensures settled { Settled self.now.calls (begun seat.old.me.0 Idle) }
    {
        let code = code_of(job.key);
        let mut at = self.first_try(job.key);
        loop {
            let found = self.try_row(seat, job, at);
            if found == 0 || found == code {
                self.add_packets::<Brand>(seat, job, at);
                self.add_bytes::<Brand>(seat, job, at);
                return Landed::Row(at.row);
            }
            if at.turn + 1 == self.plan.rows {
                return Landed::Full;
            }
            at = self.next_try(at);
        }
    }

    // Looks whose row it is, and claims it where it is free. A look alone leaves the row with all who look.
    fn try_row(&self, seat: &mut TableSeat, job: Job, at: Try) -> u64
        requires from { seat.old.table_id ≡ self.now.table }
        requires job { IsJob job × IsTry self.now.rows job.key at }
        requires trying { Trying self.now.rows job.key at.turn seat.old.me.0 }
        ensures seat { IsSameSeat seat.old seat.new }
        ensures view { Tried self.now.rows self.now.calls job at.turn seat.old.me.0 result seat.new.me.0 }
    {
        let found = self.peek_at_row::<Brand>(seat, job, at);
        if found != 0 {
            return found;
        }
        self.claim_row::<Brand>(seat, job, at)
    }
}
