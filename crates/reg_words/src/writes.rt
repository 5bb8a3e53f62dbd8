//! The writer's calls.

ghost use Rattle.std.specs.Prelude.{ℕ, ◌↔◌, MatchOption, IfSome, IsSome, ◌≡◌, ◌≢◌, ◌+◌, ◌^◌, ◌<◌, ◌≤◌, ◌++◌, ◌∷◌, [], length, vec_capacity, IfOk, OnErr, Err, None};
ghost use Rattle.acct_base.specs.declared.register.Key.TheVariants.{Cookie};
ghost use Rattle.acct_base.specs.Journal.{last_write};
ghost use Rattle.reg_words.specs.Counts.{AreOfWritten};
ghost use Rattle.reg_words.specs.Finds.{IsFound};
ghost use Rattle.reg_words.specs.Origins.{IsSeatOf, IsSameSeat};
ghost use Rattle.reg_words.specs.Places.{code, rows, total};
ghost use Rattle.reg_words.specs.Registers.{AreKeysSpent};
ghost use Rattle.acct_base.specs.Registers.{IsValueOf};
ghost use Rattle.reg_words.specs.Rule.{write_of};
ghost use Rattle.reg_words.specs.declared.view.Kind.TheVariants.{Writer as AsWriter};

use crate::place::{Spot, find};
use crate::regs::Regs;
use crate::view::TableSeat;
use crate::words::Words;
use crate::writer::Writer;
use acct_base::{Key, Write};
use std::marker::Brand;
use thiserror::Error;

/// Why a write was refused.
#[derive(Clone, Copy, Debug, Error, PartialEq, Eq)]
pub enum WriteError {
    /// The key was never written, and its map has as many distinct keys as its limit allows.
    #[error("no room for another key")]
    KeysSpent,
    /// The journal has as many writes as its limit allows.
    #[error("no room for another write")]
    JournalFull,
}

impl Words {
    // Where the key stands, or where it may. None where the keys of its map are spent.
    fn look(&self, seat: &TableSeat, places: &[u64], key: Key) -> Option<Spot>
        requires table { IsSeatOf self.now seat.now }
        requires places { (places.now ≡ seat.now.me.0.places) × (length places.now ≡ total self.now.limits) }
        requires held { ∥ AreOfWritten seat.now.me.0.limits seat.now.me.0.places seat.now.me.0.list ∥₁ }
        requires key { code key ≢ 0 }
        ensures found { MatchOption result (AreKeysSpent self.now.limits seat.now.me.0.list key) (λ s. IsFound self.now.limits places.now key s) }
        ensures room { IsSome result → AreKeysSpent self.now.limits seat.now.me.0.list key → ⊥ }
    {
        let _ = seat;
        find(&self.limits, &self.map_rows, places, key)
    }

    // Stores a write for which there is room.
    fn store_write(
        &self,
        seat: &mut TableSeat,
        places: &mut Vec<u64>,
        made: u32,
        write: Write,
        spot: Spot,
    )
        requires table { IsSeatOf self.now seat.old }
        requires writes { (seat.old.me.0.kind ≡ AsWriter) × (seat.old.me.0.pending ≡ None) }
        requires places { (places.old.items ≡ seat.old.me.0.places) × (length places.old.items ≡ total self.now.limits) }
        requires held { ∥ AreOfWritten seat.old.me.0.limits seat.old.me.0.places seat.old.me.0.list ∥₁ }
        requires room { (made ≡ length seat.old.me.0.list) × (made < self.now.limits.writes) }
        requires key { code write.key ≢ 0 }
        requires value { IfSome write.value (IsValueOf write.key) }
        requires spot { IsFound self.now.limits places.old.items write.key spot }
        ensures seat { IsSameSeat seat.old seat.new }
        ensures places { (places.new.items ≡ seat.new.me.0.places) × (length places.new.items ≡ total self.now.limits) }
        ensures held { ∥ AreOfWritten seat.new.me.0.limits seat.new.me.0.places seat.new.me.0.list ∥₁ }
        ensures view { seat.new.me.0 ≡ record seat.old.me.0 { list = seat.old.me.0.list ++ write ∷ []; places = places.new.items } }
    {
        let flag = self.store_some(seat, made, write.value);
        let turn = self.claim(seat, places, write.key, spot);
        self.store_register::<Brand>(seat, made, write.key, turn, flag);
    }
}

impl Regs {
    /// Appends a write to the journal, by four stores at most, and answers its number, from 1. It takes no
    /// memory and waits for nobody. A value of None takes the key's entry out.
    ///
    /// KeysSpent comes exactly where the key was never written and its map has as many distinct keys as its
    /// limit; Enabled never meets it. JournalFull comes exactly where the journal is full and KeysSpent does
    /// not come. A refusal changes nothing.
    pub fn write(&self, w: &mut Writer, key: Key, value: Option<u64>) -> Result<u32, WriteError>
        requires from { w.old.origin ≡ self.now }
        requires key { key ≢ Cookie 0 }
        requires value { IfSome value (IsValueOf key) }
        ensures from { w.new.origin ≡ w.old.origin }
        ensures number { IfOk result (λ n. n ≡ length w.new.journal) }
        ensures journal { IfOk result (λ _. w.new.journal ≡ w.old.journal ++ write_of key value ∷ []) }
        ensures front { w.new.front ≡ w.old.front }
        ensures refused { OnErr result (w.new ≡ w.old) }
        ensures spent { result ≡ Err WriteError.KeysSpent ↔ AreKeysSpent w.old.origin.limits w.old.journal key }
        ensures full { result ≡ Err WriteError.JournalFull ↔ (length w.old.journal ≡ w.old.origin.limits.writes) × (AreKeysSpent w.old.origin.limits w.old.journal key → ⊥) }
    {
        let Some(spot) = self.words.look(&w.seat, w.places.as_slice(), key) else {
            return Err(WriteError::KeysSpent);
        };
        let made = w.journal.len() as u32;
        if made >= self.words.limits.writes {
            return Err(WriteError::JournalFull);
        }
        let write = Write { key, value };
        self.words
            .store_write(&mut w.seat, &mut w.places, made, write, spot);
        w.journal.push_reserved(write);
        Ok(made + 1)
    }

    /// Publishes all writes: `front()` becomes `made()`. It takes no memory and waits for nobody.
    pub fn publish(&self, w: &mut Writer)
        requires from { w.old.origin ≡ self.now }
        ensures { w.new ≡ record w.old { front = length w.old.journal } }
    {
        let made = w.journal.len() as u32;
        self.words.store_front(&mut w.seat, made);
        w.front = made;
    }
}
