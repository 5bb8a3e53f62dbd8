//! The places that are tried for a key.

ghost use Rattle.std.specs.Prelude.{◌≡◌, ◌<◌, ◌+◌, ◌/◌, ◌^◌, ℕ};
ghost use Rattle.row_probe.specs.Places as places;

use crate::rows::Rows;

/// What a key's first word is multiplied by, in its hash.
const FIRST_FACTOR: u64 = 2_654_435_761;

/// What a key's second word is multiplied by.
const SECOND_FACTOR: u64 = 11_400_714_819_323_198_485;

/// The hash of a key of two words. This project's own.
fn hash(k1: u64, k2: u64) -> u64
    ensures { result ≡ places.hash k1 k2 }
{
    k1.wrapping_mul(FIRST_FACTOR)
        .wrapping_add(k2.wrapping_mul(SECOND_FACTOR))
}

/// The upper half of a key's hash.
fn upper_hash(k1: u64, k2: u64) -> u32
    ensures { result ≡ places.hash k1 k2 / 2 ^ 32 }
{
    (hash(k1, k2) / 4_294_967_296) as u32
}

/// The place that is tried first for the key of two words, in a table of so many rows.
///
/// The further ones are each the one behind the last, [`next_place`]. Together, turn by turn, they are
/// [`place`], which gives each place once: [`crate::turns_give_each_place_once`].
pub fn first_place(k1: u64, k2: u64, rows: &Rows) -> u32
    ensures value { result ≡ places.place k1 k2 0 rows.now }
    ensures within { result < rows.now }
{
    rows.remainder(upper_hash(k1, k2))
}

/// The place behind a place, in a table of `rows` rows. The first is behind the last.
pub fn next_place(place: u32, rows: u32) -> u32
    requires { place < rows }
    ensures within { result < rows }
    ensures follows { (k1 k2 turn : ℕ) → place ≡ places.place k1 k2 turn rows → result ≡ places.place k1 k2 (turn + 1) rows }
{
    if place + 1 == rows { 0 } else { place + 1 }
}

/// The place that is tried for the key of two words at a turn, in a table of `rows` rows.
pub fn place(k1: u64, k2: u64, turn: u32, rows: u32) -> u32
    requires { turn < rows }
    ensures value { result ≡ places.place k1 k2 turn rows }
    ensures within { result < rows }
{
    let first = upper_hash(k1, k2) % rows;
    let behind = rows - first;
    if turn < behind {
        first + turn
    } else {
        turn - behind
    }
}
