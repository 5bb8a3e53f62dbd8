//! The words of the registers: one table for all seats, with its atomic steps.

ghost use Rattle.std.specs.Prelude.{◌≡◌, ◌+◌};
ghost use Rattle.reg_words.specs.MapRows.{AreRowsOf};
ghost use Rattle.reg_words.specs.Places.{total};
ghost use Rattle.acct_base.specs.Ranges.{AreRegSizes};

use crate::map_rows::MapRows;
use crate::view::WordTable;
use acct_base::RegSizes;

/// The words of the registers. Word 0 is the front. Of place p, word 1 + p is the key and word 1 + places + p the register:
/// twice the number of the key's last write, and 1 more where that write has a value. Word 1 + 2 places + i is
/// the value of write i + 1.
#[derive(Drop)]
pub struct Words {
    pub(crate) table: WordTable,
    pub(crate) limits: RegSizes,
    pub(crate) map_rows: MapRows,
    pub ghost keyed: { table.shared.key ≡ limits },
    pub ghost wide: { table.shared.table_id.words ≡ 1 + total limits + total limits + limits.writes },
    pub ghost slotless: { table.shared.table_id.slots ≡ 0 },
    pub ghost limited: { AreRegSizes limits },
    pub ghost divides: { AreRowsOf limits map_rows },
}
