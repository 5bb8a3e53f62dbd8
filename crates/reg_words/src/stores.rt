//! The writer's stores.

ghost use Rattle.std.specs.Prelude.{◌≡◌, ◌≢◌, ◌+◌, ◌<◌, ◌++◌, ◌∷◌, [], length, slice_index, slice_set, Some, None, ℕ, IfSome};
ghost use Rattle.acct_base.specs.declared.register.Write.{Write};
ghost use Rattle.reg_words.specs.Finds.{IsFound};
ghost use Rattle.reg_words.specs.Journal.{has};
ghost use Rattle.reg_words.specs.Origins.{IsSeatOf, IsSameSeat};
ghost use Rattle.reg_words.specs.Places.{code, rows, total, spot, AllDecided, At, Stays};
ghost use Rattle.acct_base.specs.Registers.{IsValueOf};
ghost use Rattle.reg_words.specs.Rule.{write_of};
ghost use Rattle.reg_words.specs.declared.view.Kind.TheVariants.{Writer as AsWriter};

use crate::place::{Spot, code_of, spot_of, total_of};
use crate::steps::{StoreFront, StoreKey, StoreRegister, StoreValue};
use crate::subject::Subject;
use crate::view::TableSeat;
use crate::words::Words;
use acct_base::Key;

impl Words {
    // Stores a value for the next write.
    fn store_value(&self, seat: &mut TableSeat, made: u32, value: u64)
        requires table { IsSeatOf self.now seat.old }
        requires writes { seat.old.me.0.kind ≡ AsWriter }
        requires room { (made ≡ length seat.old.me.0.list) × (made < self.now.limits.writes) }
        ensures seat { IsSameSeat seat.old seat.new }
        ensures view { seat.new.me.0 ≡ record seat.old.me.0 { pending = Some value } }
    {
        let total = total_of(&self.limits);
        let word = (1 + total + total + u64::from(made)) as usize;
        self.table.shared.store::<StoreValue>(seat, word, value);
    }

    // Stores the value of the next write, where it has one. The flag of its register is 1 there, and else 0.
    pub(crate) fn store_some(&self, seat: &mut TableSeat, made: u32, value: Option<u64>) -> u64
        requires table { IsSeatOf self.now seat.old }
        requires rests { (seat.old.me.0.kind ≡ AsWriter) × (seat.old.me.0.pending ≡ None) }
        requires room { (made ≡ length seat.old.me.0.list) × (made < self.now.limits.writes) }
        ensures flag { result ≡ has value }
        ensures seat { IsSameSeat seat.old seat.new }
        ensures view { seat.new.me.0 ≡ record seat.old.me.0 { pending = value } }
    {
        match value {
            Some(value) => {
                self.store_value(seat, made, value);
                1
            }
            None => 0,
        }
    }

    // Stores the key at a free place.
    fn store_key(&self, seat: &mut TableSeat, key: Key, turn: u32)
        requires table { IsSeatOf self.now seat.old }
        requires writes { seat.old.me.0.kind ≡ AsWriter }
        requires key { code key ≢ 0 }
        requires free { (turn < rows self.now.limits key) × AllDecided self.now.limits seat.old.me.0.places key turn × (slice_index seat.old.me.0.places (spot self.now.limits key turn) ≡ 0) }
        ensures seat { IsSameSeat seat.old seat.new }
        ensures view { seat.new.me.0 ≡ record seat.old.me.0 { places = slice_set seat.old.me.0.places (spot self.now.limits key turn) (code key) } }
    {
        let word = (1 + spot_of(&self.limits, key, turn)) as usize;
        self.table
            .shared
            .store::<StoreKey>(seat, word, code_of(key));
    }

    // The key's place, which it takes where it has none yet. `places` is the writer's own copy of the words.
    pub(crate) fn claim(
        &self,
        seat: &mut TableSeat,
        places: &mut Vec<u64>,
        key: Key,
        found: Spot,
    ) -> u32
        requires table { IsSeatOf self.now seat.old }
        requires writes { (seat.old.me.0.kind ≡ AsWriter) × (places.old.items ≡ seat.old.me.0.places) × (length places.old.items ≡ total self.now.limits) }
        requires key { code key ≢ 0 }
        requires spot { IsFound self.now.limits places.old.items key found }
        ensures seat { IsSameSeat seat.old seat.new }
        ensures view { (seat.new.me.0 ≡ record seat.old.me.0 { places = places.new.items }) × (length places.new.items ≡ length places.old.items) }
        ensures at { At self.now.limits places.new.items key result × Stays places.old.items places.new.items }
        ensures others { (q : ℕ) → q ≢ spot self.now.limits key result → slice_index places.new.items q ≡ slice_index places.old.items q }
    {
        match found {
            Spot::Known(turn) => turn,
            Spot::Free(turn) => {
                self.store_key(seat, key, turn);
                places[spot_of(&self.limits, key, turn) as usize] = code_of(key);
                turn
            }
        }
    }

    // Stores the register, by which the write takes its place in the journal.
    pub(crate) fn store_register<B: Subject>(
        &self,
        seat: &mut TableSeat,
        made: u32,
        key: Key,
        turn: u32,
        flag: u64,
    )
        requires subject { B.key ≡ key }
        requires table { IsSeatOf self.now seat.old }
        requires writes { seat.old.me.0.kind ≡ AsWriter }
        requires room { (made ≡ length seat.old.me.0.list) × (made < self.now.limits.writes) }
        requires at { At self.now.limits seat.old.me.0.places key turn }
        requires flag { (flag ≡ has seat.old.me.0.pending) × (flag < 2) }
        requires value { (x : ℕ) → seat.old.me.0.pending ≡ Some x → IsValueOf key x }
        ensures seat { IsSameSeat seat.old seat.new }
        ensures view { seat.new.me.0 ≡ record seat.old.me.0 { list = seat.old.me.0.list ++ write_of key seat.old.me.0.pending ∷ []; pending = None } }
    {
        let word = (1 + total_of(&self.limits) + spot_of(&self.limits, key, turn)) as usize;
        let register = 2 * (u64::from(made) + 1) + flag;
        self.table
            .shared
            .store::<StoreRegister<B>>(seat, word, register);
    }

    // Stores the front.
    pub(crate) fn store_front(&self, seat: &mut TableSeat, made: u32)
        requires table { IsSeatOf self.now seat.old }
        requires writes { seat.old.me.0.kind ≡ AsWriter }
        requires all { made ≡ length seat.old.me.0.list }
        ensures seat { IsSameSeat seat.old seat.new }
        ensures view { seat.new.me.0 ≡ record seat.old.me.0 { front = made } }
    {
        self.table
            .shared
            .store::<StoreFront>(seat, 0, u64::from(made));
    }
}
