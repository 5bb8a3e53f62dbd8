//! What a seat at the table knows. No value of it is made: it stands in proofs alone.

use acct_base::{Key, RegSizes, Seen, Write};
use atomic_table::{Seat, Table, TableRule};
use std::alloc::Global;

/// Whose seat it is. A seat that was joined into another is gone.
pub enum Kind {
    Gone,
    Writer,
    Reader,
}

/// Where a reader stands in a look-up. It has met other keys at each turn below the number, or it has found
/// the key at the place of this turn.
pub enum Stage {
    Idle,
    Probing(Key, u64),
    Found(Key, u64),
}

/// The writer's view has the whole journal as its list, a reader's has the beginning of it that the reader knows.
pub struct View {
    /// The limits of the table, which a step cannot read from the table itself.
    pub limits: RegSizes,
    pub kind: Kind,
    pub list: [Write; 0],
    /// The list of a seat that was joined in. It is a beginning of the journal too.
    pub told: [Write; 0],
    /// Of the writer: the words of the key places.
    pub places: [u64; 0],
    /// Of the writer: the value that is stored for the next write.
    pub pending: Option<u64>,
    /// Of the writer: how many writes are published.
    pub front: u64,
    /// Of a reader: where its look-up stands.
    pub stage: Stage,
    /// Of a reader: how often it loaded the front, and what the last load gave.
    pub loads: u64,
    pub loaded: u64,
    /// Of a reader: its reads with their answers.
    pub reads: [(Key, Seen); 0],
}

/// The rule of the table, which holds between any two steps.
pub struct RegisterRule;

impl TableRule<(), View, RegSizes> for RegisterRule {
    ghost use Rattle.reg_words.specs.Rule.{Kept, opening_view};

    ghost holds = { Kept };

    ghost first = { opening_view };
}

pub type WordTable = Table<(), View, RegSizes, RegisterRule, Global>;

pub type TableSeat = Seat<(), View>;
