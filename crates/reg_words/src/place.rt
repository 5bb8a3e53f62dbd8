//! Where a key stands. Each map of keys has as many places as its limit; Enabled has one of its own.

ghost use Rattle.std.specs.Prelude.{◌≡◌, ◌≢◌, ◌<◌, ◌^◌, length, MatchOption};
ghost use Rattle.reg_words.specs.Finds.{IsFound};
ghost use Rattle.reg_words.specs.MapRows.{AreRowsOf};
ghost use Rattle.reg_words.specs.Places.{code, rows, base, total, spot, AllDecided};

use crate::map_rows::{MapRows, first_of};
use acct_base::{Key, RegSizes};
use row_probe::{next_place, place};

/// A turn of a key's search, with the place that is tried at it.
#[derive(Clone, Copy)]
pub struct Try {
    pub turn: u32,
    pub spot: u64,
}

/// The turn at which a look found the key, or the first free place.
#[derive(Clone, Copy)]
pub enum Spot {
    Known(u32),
    Free(u32),
}

/// The word under which a key stands in its map: the cookie, or the uid and 1 more. 0 is the word of a free
/// place, and of Cookie(0), which is never written.
pub fn code_of(key: Key) -> u64
    ensures { result ≡ code key }
{
    match key {
        Key::Cookie(cookie) => cookie,
        Key::Set(uid) | Key::Owner(uid) => u64::from(uid) + 1,
        Key::Enabled => 1,
    }
}

/// How many places the key's map has.
pub fn rows_of(limits: &RegSizes, key: Key) -> u32
    ensures { result ≡ rows limits.now key }
{
    match key {
        Key::Cookie(_) => limits.cookies,
        Key::Set(_) => limits.sets,
        Key::Owner(_) => limits.owners,
        Key::Enabled => 1,
    }
}

/// The first place of the key's map.
pub fn base_of(limits: &RegSizes, key: Key) -> u64
    ensures base { result ≡ base limits.now key }
    ensures small { result < 2 ^ 34 }
{
    let cookies = u64::from(limits.cookies);
    let sets = u64::from(limits.sets);
    match key {
        Key::Cookie(_) => 0,
        Key::Set(_) => cookies,
        Key::Owner(_) => cookies + sets,
        Key::Enabled => cookies + sets + u64::from(limits.owners),
    }
}

/// How many places there are in all.
pub fn total_of(limits: &RegSizes) -> u64
    ensures { result ≡ total limits.now }
{
    u64::from(limits.cookies) + u64::from(limits.sets) + u64::from(limits.owners) + 1
}

/// The place that is tried for the key at a turn.
pub fn spot_of(limits: &RegSizes, key: Key, turn: u32) -> u64
    requires { turn < rows limits.now key }
    ensures place { result ≡ spot limits.now key turn }
    ensures below { result < total limits.now }
{
    base_of(limits, key) + u64::from(place(code_of(key), 1, turn, rows_of(limits, key)))
}

/// Where the key stands by the words of the places, or where it may. None where all its places are other keys'.
pub fn find(limits: &RegSizes, map_rows: &MapRows, places: &[u64], key: Key) -> Option<Spot>
    requires counted { AreRowsOf limits.now map_rows.now }
    requires places { length places.now ≡ total limits.now }
    requires key { (code key ≢ 0) × (0 < rows limits.now key) }
    ensures { MatchOption result (AllDecided limits.now places.now key (rows limits.now key)) (λ s. IsFound limits.now places.now key s) }
{
    let code = code_of(key);
    let rows = rows_of(limits, key);
    let base = base_of(limits, key);
    let mut place = first_of(limits, map_rows, key);
    for turn in 0..rows {
        // The loop's invariant speaks of the key.
        let _ = key;
        let found = places[(base + u64::from(place)) as usize];
        if found == code {
            return Some(Spot::Known(turn));
        }
        if found == 0 {
            return Some(Spot::Free(turn));
        }
        place = next_place(place, rows);
    }
    None
}
