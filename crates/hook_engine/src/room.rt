//! The room for what is left of an engine.

ghost use Rattle.std.specs.Prelude.{◌≡◌, IfOk};
ghost use Rattle.hook_engine.specs.Ends.{room_for};

use acct_base::Sizes;
use grace_rows::SnapshotRoom;
use reg_words::JournalRoom;
use std::alloc::{AllocError, Global};
use std::marker::Model;
use total_rows::TotalRoom;

/// Room for what is left of an engine when it is closed. It is seen as the lengths of the longest lists that it
/// holds.
#[derive(Drop)]
pub struct CloseRoom {
    pub(crate) snapshot: SnapshotRoom,
    pub(crate) journal: JournalRoom,
    pub(crate) apps: TotalRoom,
    pub(crate) ifaces: TotalRoom,
}

impl Model for CloseRoom {
    ghost use Rattle.hook_engine.specs.Ends.{Room};

    ghost Value = { Room };

    ghost use Rattle.hook_engine.specs.RoomInside.{room_state};

    ghost view = { room_state };
}

impl CloseRoom {
    /// Room for an engine of these sizes. It takes its memory here, so that closing takes none.
    pub fn new(alloc: Global, sizes: &Sizes) -> Result<CloseRoom, AllocError>
        ensures { IfOk result (λ room. room ≡ room_for sizes.now) }
    {
        Ok(CloseRoom {
            snapshot: SnapshotRoom::new(alloc, sizes.rows)?,
            journal: JournalRoom::new(alloc, sizes.regs.writes)?,
            apps: TotalRoom::new(alloc, sizes.apps)?,
            ifaces: TotalRoom::new(alloc, sizes.ifaces)?,
        })
    }
}
