//! How many places each map of keys has, by which hashes are divided.

ghost use Rattle.std.specs.Prelude.{◌≡◌, ◌<◌};
ghost use Rattle.acct_base.specs.Ranges.{AreRegSizes};
ghost use Rattle.reg_words.specs.MapRows.{AreRowsOf};
ghost use Rattle.reg_words.specs.Places.{code, rows};
ghost use Rattle.row_probe.specs.Places.{place};

use crate::place::code_of;
use acct_base::{Key, RegSizes};
use row_probe::{Rows, first_place};

/// The number of places of each map whose limit is known only at run time.
#[derive(Drop)]
pub struct MapRows {
    cookies: Rows,
    sets: Rows,
    owners: Rows,
}

/// The rows of the maps with these limits.
pub(crate) fn rows_by(limits: &RegSizes) -> MapRows
    requires { AreRegSizes limits.now }
    ensures { AreRowsOf limits.now result }
{
    MapRows {
        cookies: Rows::new(limits.cookies),
        sets: Rows::new(limits.sets),
        owners: Rows::new(limits.owners),
    }
}

/// The place of its map that is tried first for the key.
pub(crate) fn first_of(limits: &RegSizes, map_rows: &MapRows, key: Key) -> u32
    requires { AreRowsOf limits.now map_rows.now }
    ensures place { result ≡ place (code key) 1 0 (rows limits.now key) }
    ensures within { result < rows limits.now key }
{
    // The clauses speak of the limits.
    let _ = limits;
    let code = code_of(key);
    match key {
        Key::Cookie(_) => first_place(code, 1, &map_rows.cookies),
        Key::Set(_) => first_place(code, 1, &map_rows.sets),
        Key::Owner(_) => first_place(code, 1, &map_rows.owners),
        Key::Enabled => 0,
    }
}
