//! A reader's loads, and the steps of seats that are split or joined.

ghost use Rattle.std.specs.Prelude.{◌≡◌, ◌≢◌, ◌+◌, ◌<◌, ◌≤◌, ◌++◌, ◌∷◌, [], max, MatchOption, Some};
ghost use Rattle.acct_base.specs.Journal.{IsTrueRead};
ghost use Rattle.reg_words.specs.Journal.{IsLast, value_at, has, longer};
ghost use Rattle.reg_words.specs.Origins.{IsSeatOf, IsSameSeat};
ghost use Rattle.reg_words.specs.Finds.{IsTry};
ghost use Rattle.reg_words.specs.Places.{code, rows};
ghost use Rattle.reg_words.specs.Registers.{IsPrefix};
ghost use Rattle.acct_base.specs.Registers.{IsValueOf};
ghost use Rattle.reg_words.specs.Rule.{Fronted, Probed, Missed, Registered, Met, fresh_right, seen_at};
ghost use Rattle.reg_words.specs.declared.view.Kind.TheVariants.{Writer as AsWriter, Reader as AsReader};
ghost use Rattle.reg_words.specs.declared.view.Stage.TheVariants.{Idle, Found};

use crate::map_rows::first_of;
use crate::place::{Try, base_of, code_of, rows_of, total_of};
use crate::steps::{LoadFront, LoadKey, LoadRegister, LoadValue};
use crate::subject::Subject;
use crate::view::TableSeat;
use crate::words::Words;
use acct_base::Key;
use row_probe::next_place;
use std::marker::Brand;

impl Words {
    // Loads the front.
    pub(crate) fn load_front(&self, seat: &mut TableSeat) -> u64
        requires table { IsSeatOf self.now seat.old }
        requires reads { seat.old.me.0.kind ≡ AsReader }
        ensures seat { IsSameSeat seat.old seat.new }
        ensures view { Fronted seat.old.me.0 result seat.new.me.0 }
    {
        self.table.shared.load::<LoadFront>(seat, 0)
    }

    // Loads the word of the key's place at a turn.
    fn load_key<B: Subject>(&self, seat: &mut TableSeat, key: Key, at: Try) -> u64
        requires subject { (B.key ≡ key) × (B.number ≡ at.turn) }
        requires table { IsSeatOf self.now seat.old }
        requires reads { seat.old.me.0.kind ≡ AsReader }
        requires key { (code key ≢ 0) × IsTry self.now.limits key at }
        requires met { Met self.now.limits seat.old.me.0.stage key at.turn }
        ensures seat { IsSameSeat seat.old seat.new }
        ensures view { Probed key at.turn seat.old.me.0 result seat.new.me.0 }
    {
        let word = (1 + at.spot) as usize;
        self.table.shared.load::<LoadKey<B>>(seat, word)
    }

    // Where the key stands. None where no write of the key is known; the read is then over.
    #[inline(always)]
    pub(crate) fn probe(&self, seat: &mut TableSeat, key: Key) -> Option<Try>
        requires table { IsSeatOf self.now seat.old }
        requires reads { (seat.old.me.0.kind ≡ AsReader) × (seat.old.me.0.stage ≡ Idle) }
        requires key { (code key ≢ 0) × (0 < rows self.now.limits key) }
        ensures seat { IsSameSeat seat.old seat.new }
        ensures view { MatchOption result (Missed key seat.old.me.0 seat.new.me.0) (λ at. IsTry self.now.limits key at × (seat.new.me.0 ≡ record seat.old.me.0 { stage = Found key at.turn })) }
    {
        let code = code_of(key);
        let rows = rows_of(&self.limits, key);
        let base = base_of(&self.limits, key);
        let mut place = first_of(&self.limits, &self.map_rows, key);
        for turn in 0..rows {
            let at = Try {
                turn,
                spot: base + u64::from(place),
            };
            let found = self.load_key::<Brand>(seat, key, at);
            if found == code {
                return Some(at);
            }
            if found == 0 || turn + 1 == rows {
                return None;
            }
            place = next_place(place, rows);
        }
        unreachable!()
    }

    // Loads the key's register, where its place was found.
    pub(crate) fn load_register<B: Subject>(&self, seat: &mut TableSeat, key: Key, at: Try) -> u64
        requires subject { B.key ≡ key }
        requires table { IsSeatOf self.now seat.old }
        requires reads { (seat.old.me.0.kind ≡ AsReader) × (seat.old.me.0.stage ≡ Found key at.turn) }
        requires key { IsTry self.now.limits key at }
        ensures seat { IsSameSeat seat.old seat.new }
        ensures view { Registered key seat.old.me.0 result seat.new.me.0 }
    {
        let word = (1 + total_of(&self.limits) + at.spot) as usize;
        self.table.shared.load::<LoadRegister<B>>(seat, word)
    }

    // Loads the value of the key's last write.
    pub(crate) fn load_value<B: Subject>(&self, seat: &mut TableSeat, key: Key, version: u32) -> u64
        requires subject { (B.key ≡ key) × (B.number ≡ version) }
        requires table { IsSeatOf self.now seat.old }
        requires reads { seat.old.me.0.kind ≡ AsReader }
        requires last { IsLast seat.old.me.0.list key version }
        requires value { has (value_at seat.old.me.0.list version) ≡ 1 }
        requires room { version ≤ self.now.limits.writes }
        ensures seat { IsSameSeat seat.old seat.new }
        ensures value { value_at seat.old.me.0.list version ≡ Some result }
        ensures form { IsValueOf key result }
        ensures view { seat.new.me.0 ≡ record seat.old.me.0 { reads = seat.old.me.0.reads ++ (key, seen_at version (Some result)) ∷ [] } }
    {
        let total = total_of(&self.limits);
        let word = (total + total + u64::from(version)) as usize;
        self.table.shared.load::<LoadValue<B>>(seat, word)
    }
}
