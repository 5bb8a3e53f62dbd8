//! How seats are split and joined.

ghost use Rattle.std.specs.Prelude.{◌≡◌, ◌+◌, ◌-◌, ◌≤◌, ◌++◌, [], ℕ};
ghost use Rattle.acct_base.specs.Sums.{added as total_of};
ghost use Rattle.total_rows.specs.Plays.{split_left, split_right, joined, Settled};
ghost use Rattle.total_rows.specs.Seats.{IsWithin, IsOneToOne, KnowsAll, KnowsItsOwn, known, greater};
ghost use Rattle.total_rows.specs.declared.plan.Stage.TheVariants.{Idle};

use crate::about::About;
use crate::plays::{Cut, Merge};
use crate::seat::{TableSeat, TotalSeat};
use crate::totals::Totals;
use std::marker::Brand;

impl Totals {
    /// A new seat with `n` of the seat's calls, none made, and all that the seat knows. With 0 calls it is a
    /// note, which teaches another seat what this one knows. It takes no memory and waits for nobody.
    pub fn split(&self, seat: &mut TotalSeat, n: u64) -> TotalSeat
        requires from { seat.old.table ≡ self.now.table }
        requires calls { n ≤ seat.old.left }
        ensures first { seat.new ≡ record seat.old { left = seat.old.left - n } }
        ensures other { result ≡ record { table = seat.old.table; left = n; made = 0; adds = []; places = []; notes = result.notes } }
        ensures knows { (key : ℕ) → known result key ≡ known seat.old key }
        ensures own { KnowsItsOwn self.now seat.old × KnowsItsOwn self.now result }
        ensures within { IsWithin self.now seat.old }
    {
        self.settle::<Brand>(&mut seat.seat);
        let other = self.cut::<Brand>(&mut seat.seat, n);
        seat.left -= n;
        TotalSeat {
            seat: other,
            left: n,
            made: 0,
        }
    }

    /// Takes another seat in: its calls, its adds, and what it knows. It takes no memory and waits for nobody.
    pub fn join(&self, seat: &mut TotalSeat, other: TotalSeat)
        requires from { seat.old.table ≡ self.now.table }
        requires other { other.table ≡ self.now.table }
        ensures seat { seat.new ≡ record {
          table = seat.old.table;
          left = seat.old.left + other.left;
          made = seat.old.made + other.made;
          adds = seat.old.adds ++ other.adds;
          places = seat.new.places;
          notes = seat.new.notes;
        } }
        ensures knows { (key : ℕ) → known seat.new key ≡ greater (greater (known seat.old key) (known other key)) (total_of seat.new.adds key) }
        ensures grows { KnowsAll seat.old seat.new }
        ensures learns { KnowsAll other seat.new }
        ensures places { seat.new.places ≡ seat.old.places ++ other.places }
        ensures one_to_one { IsOneToOne seat.new.places }
        ensures own { KnowsItsOwn self.now seat.new }
        ensures within { IsWithin self.now seat.new }
    {
        let TotalSeat {
            seat: its,
            left,
            made,
        } = other;
        self.merge(&mut seat.seat, its);
        seat.left += left;
        seat.made += made;
    }

    fn cut<B: About>(&self, seat: &mut TableSeat, n: u64) -> TableSeat
        requires about { B.number ≡ n }
        requires from { seat.old.table_id ≡ self.now.table }
        requires rests { (seat.old.me.0.stage ≡ Idle) × (seat.old.me.1 ≡ []) }
        requires calls { n ≤ seat.old.me.0.left }
        ensures first { (seat.new.table_id ≡ seat.old.table_id) × (seat.new.id ≡ seat.old.id) × (seat.new.me ≡ (split_left n seat.old.me.0, [])) }
        ensures other { (result.table_id ≡ seat.old.table_id) × (result.me ≡ (split_right n seat.old.me.0, [])) }
    {
        self.table.shared.split_seat::<Cut<B>>(seat)
    }

    // Joins the other's view, and looks at the rule, which tells that the sums of calls fit their words.
    fn merge(&self, seat: &mut TableSeat, other: TableSeat)
        requires from { (seat.old.table_id ≡ self.now.table) × (other.table_id ≡ self.now.table) }
        requires rests { (seat.old.me.0.stage ≡ Idle) × (other.me.0.stage ≡ Idle) }
        requires slotless { (seat.old.me.1 ≡ []) × (other.me.1 ≡ []) }
        ensures seat { (seat.new.table_id ≡ seat.old.table_id) × (seat.new.id ≡ seat.old.id) × (seat.new.me ≡ (joined seat.old.me.0 other.me.0, [])) }
        ensures settled { Settled self.now.calls (joined seat.old.me.0 other.me.0) }
    {
        self.table.shared.join_seat::<Merge>(seat, other);
        self.settle::<Brand>(seat);
    }
}
