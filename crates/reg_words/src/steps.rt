//! What each atomic step on the table tells. The writer stores values, keys, registers and the front, and a
//! write takes its place in the journal at its register's store; a reader loads them, and a read ends with
//! its last load; seats are split and joined.

ghost use Rattle.reg_words.specs.Rule.{stored_value, stored_key, stored_register, stored_front, loaded_front, loaded_key, loaded_register, loaded_value, settled, kept_left, fresh_right, joined, was_told, spent};

use crate::subject::Subject;
use crate::view::View;
use atomic_table::{Join, Play, Split};
use std::marker::PhantomData;

/// The store of the next write's value.
pub struct StoreValue;

impl Play<(), View> for StoreValue {
    ghost then = { stored_value };
}

/// The store of a key at a free place.
pub struct StoreKey;

impl Play<(), View> for StoreKey {
    ghost then = { stored_key };
}

/// The store of a register, by which the write is in the journal.
pub struct StoreRegister<B> {
    subject: PhantomData<B>,
}

impl<B: Subject> Play<(), View> for StoreRegister<B> {
    ghost then = { stored_register B.key };
}

/// The store of the front, which publishes the journal.
pub struct StoreFront;

impl Play<(), View> for StoreFront {
    ghost then = { stored_front };
}

/// The load of the front.
pub struct LoadFront;

impl Play<(), View> for LoadFront {
    ghost then = { loaded_front };
}

/// The load of the word of a key place.
pub struct LoadKey<B> {
    subject: PhantomData<B>,
}

impl<B: Subject> Play<(), View> for LoadKey<B> {
    ghost then = { loaded_key B.key B.number };
}

/// The load of a register.
pub struct LoadRegister<B> {
    subject: PhantomData<B>,
}

impl<B: Subject> Play<(), View> for LoadRegister<B> {
    ghost then = { loaded_register B.key };
}

/// The load of a value.
pub struct LoadValue<B> {
    subject: PhantomData<B>,
}

impl<B: Subject> Play<(), View> for LoadValue<B> {
    ghost then = { loaded_value B.key B.number };
}

/// The load of a key place that tells how the list which a join brought stands to what is known.
pub struct Settle;

impl Play<(), View> for Settle {
    ghost then = { settled };
}

/// A reader is split off any seat.
pub struct SplitReader;

impl Split<View> for SplitReader {
    ghost left = { kept_left };

    ghost right = { fresh_right };
}

/// A reader takes in another.
pub struct JoinReader;

impl Join<View> for JoinReader {
    ghost both = { joined };

    ghost spent = { spent };
}

/// The writer is told what a reader knows.
pub struct TellWriter;

impl Join<View> for TellWriter {
    ghost both = { was_told };

    ghost spent = { spent };
}
