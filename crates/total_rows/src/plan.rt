//! What a seat at the table knows and does. Of the types below `Plan` and `Job` have values; the others are
//! what the proofs see.

use acct_base::{Dir, Landed};
use atomic_table::TableRule;

/// How many rows the table has, and how many adds its seats may make in all.
#[derive(Clone, Copy, Debug)]
pub struct Plan {
    pub rows: u32,
    pub calls: u64,
}

/// What is to be added to the row of a key.
#[derive(Clone, Copy, Debug)]
pub struct Job {
    pub key: u32,
    pub dir: Dir,
    pub packets: u64,
    pub bytes: u64,
}

/// An add that was made, and where it landed.
#[derive(Clone, Copy)]
pub struct Addition {
    pub job: Job,
    pub landed: Landed,
}

/// What a seat learned: a number of a key's row, or what another seat had added by then.
pub enum Note {
    Number(u32, u64, u64),
    Adds([Addition; 0]),
}

/// What a seat is about: looking for the row of its job, at the row, or there with the packets added; or
/// looking for the row of a key that it reads, or there.
pub enum Stage {
    Idle,
    Probing(Job, u32),
    Row(Job, u32),
    Half(Job, u32),
    Looking(u32, u32),
    Reading(u32, u32),
}

/// What the table sees of a seat.
pub struct View {
    pub left: u64,
    pub made: u64,
    pub adds: [Addition; 0],
    pub notes: [Note; 0],
    pub stage: Stage,
}

/// The rule of the table.
pub struct Ruled;

impl TableRule<(), View, Plan> for Ruled {
    ghost use Rattle.total_rows.specs.Rule.{Kept, opening_view};

    ghost holds = { Kept };

    ghost first = { opening_view };
}
