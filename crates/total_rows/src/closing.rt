//! How totals end.

ghost use Rattle.std.specs.Prelude.{◌≡◌, ◌+◌, ◌*◌, ◌<◌, ◌≤◌, ◌++◌, ◌↔◌, [], IsOk, IfOk, IfErr, vec_capacity, vec_len, slice_index};
ghost use Rattle.std.specs.Mem.Slots.{slots_items, slots_len, IsFull};
ghost use Rattle.std.specs.List.Sorted.{IsPermutation, IsNonDecreasingBy};
ghost use Rattle.acct_base.specs.Sums.{AreTotals};
ghost use Rattle.total_rows.specs.Closed.{row_pair, rows_below, AreKeys, key_of};
ghost use Rattle.total_rows.specs.Seats.{IsSole};

use crate::room::TotalRoom;
use crate::seat::TotalSeat;
use crate::totals::Totals;
use acct_base::{Amount, List, TotalList};
use atomic_table::Closed;
use std::alloc::Global;

/// Totals that were not closed, since the seat has not all calls: some are at other seats. All comes back.
#[derive(Drop)]
pub struct TotalUnclosed {
    /// The totals, as they were.
    pub totals: Totals,
    /// The seat, as it was.
    pub seat: TotalSeat,
    /// The room, as it was.
    pub room: TotalRoom,
    /// How many calls the seat lacks, at least 1.
    pub missing: u64,
}

impl Totals {
    /// The totals of all adds, in packets and bytes, ascending by key.
    ///
    /// It wants the seat that has all calls, and else hands everything back. It takes no memory and waits for
    /// nobody.
    pub fn close(self, seat: TotalSeat, room: TotalRoom) -> Result<TotalList, TotalUnclosed>
        requires from { seat.table ≡ self.table }
        requires room { self.rows ≤ room }
        ensures totals { IfOk result (λ totals. AreTotals self.rows seat.adds totals) }
        ensures closed { IsOk result ↔ IsSole self seat }
        ensures unclosed { IfErr result (λ u. (0 < u.missing) × (seat.left + seat.made + u.missing ≡ self.calls)) }
        ensures back { IfErr result (λ u. (u.totals ≡ self) × (u.seat ≡ seat) × (u.room ≡ room)) }
    {
        let calls = seat.left + seat.made;
        if calls < self.plan.calls {
            let missing = self.plan.calls - calls;
            return Err(TotalUnclosed {
                totals: self,
                seat,
                room,
                missing,
            });
        }
        let TotalRoom { totals, .. } = room;
        Ok(List::from_vec(self.end(seat, totals)))
    }

    // The rows of the table, once no other seat is left, ascending by key.
    fn end(self, seat: TotalSeat, totals: Vec<(u32, Amount)>) -> Vec<(u32, Amount)>
        requires from { seat.table ≡ self.table }
        requires all { self.calls ≤ seat.left + seat.made }
        requires room { (totals.items ≡ []) × (self.rows ≤ vec_capacity totals) }
        ensures totals { AreTotals self.rows seat.adds result.items }
        ensures sole { IsSole self seat }
    {
        let Totals { table, plan, .. } = self;
        let TotalSeat { seat, .. } = seat;
        let closed = table.close_with(seat);
        let totals = collected(&closed, plan.rows, totals);
        closed.free();
        sorted_by_key(totals)
    }
}

// The rows that belong to a key, in the order of the table.
fn collected(
    closed: &Closed<(), Global>,
    rows: u32,
    totals: Vec<(u32, Amount)>,
) -> Vec<(u32, Amount)>
    requires words { (slots_len closed.now.words ≡ rows + 4 * rows) × IsFull closed.now.words }
    requires keys { AreKeys rows (slots_items closed.now.words) }
    requires room { (totals.items ≡ []) × (rows ≤ vec_capacity totals) }
    ensures { result.items ≡ rows_below rows (slots_items closed.now.words) rows }
{
    let mut totals = totals;
    for row in 0..rows {
        push_row(closed, rows, row, &mut totals);
    }
    totals
}

fn push_row(closed: &Closed<(), Global>, rows: u32, row: u32, totals: &mut Vec<(u32, Amount)>)
    requires words { (slots_len closed.now.words ≡ rows + 4 * rows) × IsFull closed.now.words }
    requires keys { AreKeys rows (slots_items closed.now.words) }
    requires row { row < rows }
    requires room { vec_len totals.old < vec_capacity totals.old }
    ensures items { totals.new.items ≡ totals.old.items ++ row_pair rows (slots_items closed.now.words) row }
    ensures room { (vec_capacity totals.new ≡ vec_capacity totals.old) × (vec_len totals.new ≤ vec_len totals.old + 1) }
{
    let key = word_at(closed, row as usize);
    if key != 0 {
        let first = rows as usize + 4 * row as usize;
        let amount = Amount {
            rx_packets: word_at(closed, first),
            rx_bytes: word_at(closed, first + 1),
            tx_packets: word_at(closed, first + 2),
            tx_bytes: word_at(closed, first + 3),
        };
        totals.push_reserved(((key - 1) as u32, amount));
    }
}

fn word_at(closed: &Closed<(), Global>, i: usize) -> u64
    requires { (i < slots_len closed.now.words) × IsFull closed.now.words }
    ensures { result ≡ slice_index (slots_items closed.now.words) i }
{
    closed.word(i)
}

fn sorted_by_key(totals: Vec<(u32, Amount)>) -> Vec<(u32, Amount)>
    ensures same { IsPermutation totals.items result.items }
    ensures ascends { IsNonDecreasingBy key_of result.items }
{
    let mut totals = totals;
    totals.sort_unstable_by_key(|total| total.0);
    totals
}
