//! The atomic steps on the table, one function each. Each takes a bare seat of the table, since a seat that is
//! under way is not at rest.

ghost use Rattle.std.specs.Prelude.{◌≡◌, ◌+◌, ◌*◌, ◌<◌, ◌∷◌, ◌++◌, []};
ghost use Rattle.total_rows.specs.Rows.{IsTry};
ghost use Rattle.total_rows.specs.Sums.{side};
ghost use Rattle.total_rows.specs.Rule.{IsJob, calls};
ghost use Rattle.total_rows.specs.Seats.{IsOneToOne};
ghost use Rattle.total_rows.specs.Shown.{places_of};
ghost use Rattle.total_rows.specs.Plays.{Peeked, Tried, Trying, Looked, Seeking, Noted, Settled, landed};
ghost use Rattle.total_rows.specs.SeatSteps.{IsSameSeat, GoesOnReading};
ghost use Rattle.total_rows.specs.declared.plan.Stage.TheVariants.{Idle, Row, Half, Reading};

use crate::about::About;
use crate::plan::Job;
use crate::plays::{AddBytes, AddPackets, ClaimRow, LookAtRow, PeekAtRow, ReadNumber, Settle};
use crate::seat::TableSeat;
use crate::totals::Totals;
use crate::turns::{Try, code_of};
use acct_base::Dir;

/// The number of a direction's packets in a row; its bytes come next.
fn column_of(dir: Dir) -> u64
    ensures value { result ≡ 2 * side dir }
    ensures within { result < 3 }
{
    match dir {
        Dir::Ingress => 0,
        Dir::Egress => 2,
    }
}

impl Totals {
    /// The word of a number of a row.
    fn number_word(&self, row: u32, number: u64) -> usize
        requires row { row < self.now.rows }
        requires number { number < 4 }
        ensures value { result ≡ self.now.rows + 4 * row + number }
        ensures within { result < self.now.rows + 4 * self.now.rows }
    {
        let rows = u64::from(self.plan.rows);
        (rows + 4 * u64::from(row) + number) as usize
    }

    /// Loads the key word of the row that is tried for the job.
    pub(crate) fn peek_at_row<B: About>(&self, seat: &mut TableSeat, job: Job, at: Try) -> u64
        requires about { (B.job ≡ job) × (B.number ≡ at.turn) × (B.plan.rows ≡ self.now.rows) × (B.plan.calls ≡ self.now.calls) }
        requires table { seat.old.table_id ≡ self.now.table }
        requires job { IsJob job × IsTry self.now.rows job.key at }
        requires trying { Trying self.now.rows job.key at.turn seat.old.me.0 }
        ensures seat { IsSameSeat seat.old seat.new }
        ensures view { Peeked self.now.rows self.now.calls job at.turn seat.old.me.0 result seat.new.me.0 }
    {
        self.table
            .shared
            .load::<PeekAtRow<B>>(seat, at.row as usize)
    }

    /// Claims the row that is tried for the job's key, or finds whose it is.
    pub(crate) fn claim_row<B: About>(&self, seat: &mut TableSeat, job: Job, at: Try) -> u64
        requires about { (B.job ≡ job) × (B.number ≡ at.turn) × (B.plan.rows ≡ self.now.rows) × (B.plan.calls ≡ self.now.calls) }
        requires table { seat.old.table_id ≡ self.now.table }
        requires job { IsJob job × IsTry self.now.rows job.key at }
        requires trying { Trying self.now.rows job.key at.turn seat.old.me.0 }
        ensures seat { IsSameSeat seat.old seat.new }
        ensures view { Tried self.now.rows self.now.calls job at.turn seat.old.me.0 result seat.new.me.0 }
    {
        self.table
            .shared
            .compare_exchange::<ClaimRow<B>>(seat, at.row as usize, 0, code_of(job.key))
    }

    pub(crate) fn add_packets<B: About>(&self, seat: &mut TableSeat, job: Job, at: Try)
        requires about { (B.job ≡ job) × (B.number ≡ at.turn) }
        requires table { seat.old.table_id ≡ self.now.table }
        requires row { (seat.old.me.0.stage ≡ Row job at.turn) × IsTry self.now.rows job.key at }
        ensures seat { IsSameSeat seat.old seat.new }
        ensures view { seat.new.me.0 ≡ record seat.old.me.0 { stage = Half job at.turn } }
    {
        let word = self.number_word(at.row, column_of(job.dir));
        self.table
            .shared
            .fetch_add::<AddPackets<B>>(seat, word, job.packets);
    }

    pub(crate) fn add_bytes<B: About>(&self, seat: &mut TableSeat, job: Job, at: Try)
        requires about { (B.job ≡ job) × (B.number ≡ at.row) }
        requires table { seat.old.table_id ≡ self.now.table }
        requires row { (seat.old.me.0.stage ≡ Half job at.turn) × IsTry self.now.rows job.key at }
        ensures seat { IsSameSeat seat.old seat.new }
        ensures view { seat.new.me.0 ≡ record seat.old.me.0 { stage = Idle; adds = seat.old.me.0.adds ++ landed job at.row ∷ [] } }
        ensures one_to_one { IsOneToOne (places_of (seat.old.me.0.adds ++ landed job at.row ∷ [])) }
    {
        let word = self.number_word(at.row, column_of(job.dir) + 1);
        self.table
            .shared
            .fetch_add::<AddBytes<B>>(seat, word, job.bytes);
    }

    /// Loads the key word of the row that is tried for a key that is read.
    pub(crate) fn look_at_row<B: About>(&self, seat: &mut TableSeat, key: u32, at: Try) -> u64
        requires about { (B.key ≡ key) × (B.number ≡ at.turn) × (B.plan.rows ≡ self.now.rows) × (B.plan.calls ≡ self.now.calls) }
        requires table { seat.old.table_id ≡ self.now.table }
        requires turn { IsTry self.now.rows key at }
        requires seeking { Seeking self.now.rows key at.turn seat.old.me.0 }
        ensures seat { IsSameSeat seat.old seat.new }
        ensures view { Looked self.now.rows self.now.calls key at.turn seat.old.me.0 result seat.new.me.0 }
    {
        self.table
            .shared
            .load::<LookAtRow<B>>(seat, at.row as usize)
    }

    /// Reads a number of the row that the seat is at. Behind the last one it rests.
    pub(crate) fn read_number<B: About>(
        &self,
        seat: &mut TableSeat,
        key: u32,
        at: Try,
        number: u64,
    ) -> u64
        requires about { (B.key ≡ key) × (B.number ≡ number) × (B.plan.calls ≡ self.now.calls) }
        requires next { GoesOnReading key at.turn B.next }
        requires table { seat.old.table_id ≡ self.now.table }
        requires row { (seat.old.me.0.stage ≡ Reading key at.turn) × IsTry self.now.rows key at × (number < 4) }
        ensures seat { IsSameSeat seat.old seat.new }
        ensures view { Noted self.now.calls key number B.next seat.old.me.0 result seat.new.me.0 }
    {
        let word = self.number_word(at.row, number);
        self.table.shared.load::<ReadNumber<B>>(seat, word)
    }

    /// A load that only tells what the rule says of a seat at rest.
    pub(crate) fn settle<B: About>(&self, seat: &mut TableSeat)
        requires about { B.plan.calls ≡ self.now.calls }
        requires table { seat.old.table_id ≡ self.now.table }
        requires rests { seat.old.me.0.stage ≡ Idle }
        ensures seat { (seat.new.table_id ≡ seat.old.table_id) × (seat.new.id ≡ seat.old.id) × (seat.new.me ≡ seat.old.me) }
        ensures settled { Settled self.now.calls seat.old.me.0 }
    {
        self.table.shared.load::<Settle<B>>(seat, 0);
    }
}
