//! What each step on the table tells its seat.

ghost use Rattle.total_rows.specs.Plays.{peeked, tried, half, whole, looked, read_number, settled, split_left, split_right, joined, spent};

use crate::about::About;
use crate::plan::View;
use atomic_table::{Join, Play, Split};
use std::marker::PhantomData;

/// A load of a row's key word, on the way to the job's row.
pub struct PeekAtRow<B> {
    about: PhantomData<B>,
}

impl<B: About> Play<(), View> for PeekAtRow<B> {
    ghost then = { peeked B.plan.rows B.plan.calls B.job B.number };
}

/// A compare-exchange of a row's key word: the row is the job's from now on, or belongs to some key.
pub struct ClaimRow<B> {
    about: PhantomData<B>,
}

impl<B: About> Play<(), View> for ClaimRow<B> {
    ghost then = { tried B.plan.rows B.plan.calls B.job B.number };
}

/// A fetch-add of packets.
pub struct AddPackets<B> {
    about: PhantomData<B>,
}

impl<B: About> Play<(), View> for AddPackets<B> {
    ghost then = { half B.job B.number };
}

/// A fetch-add of bytes. The add has landed in the row.
pub struct AddBytes<B> {
    about: PhantomData<B>,
}

impl<B: About> Play<(), View> for AddBytes<B> {
    ghost then = { whole B.job B.number };
}

/// A load of a row's key word, on the way to the row of a key that is read.
pub struct LookAtRow<B> {
    about: PhantomData<B>,
}

impl<B: About> Play<(), View> for LookAtRow<B> {
    ghost then = { looked B.plan.rows B.plan.calls B.key B.number };
}

/// A load of a number.
pub struct ReadNumber<B> {
    about: PhantomData<B>,
}

impl<B: About> Play<(), View> for ReadNumber<B> {
    ghost then = { read_number B.plan.calls B.key B.number B.next };
}

/// A load that only tells what the rule says of a seat at rest.
pub struct Settle<B> {
    about: PhantomData<B>,
}

impl<B: About> Play<(), View> for Settle<B> {
    ghost then = { settled B.plan.calls };
}

/// A seat gives some of its calls to a new one.
pub struct Cut<B> {
    about: PhantomData<B>,
}

impl<B: About> Split<View> for Cut<B> {
    ghost left = { split_left B.number };

    ghost right = { split_right B.number };
}

/// A seat takes another in.
pub struct Merge;

impl Join<View> for Merge {
    ghost both = { joined };

    ghost spent = { spent };
}
