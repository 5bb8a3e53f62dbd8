//! The memory of a section's lanes and of its replies.

ghost use Rattle.std.specs.Prelude.{◌≡◌, ◌≤◌, [], length, map, vec_capacity, IfOk};
ghost use Rattle.captures.specs.Lent.{desk_of, section_calls};
ghost use Rattle.lanes.specs.Seats.{room_for};
ghost use Rattle.lanes.specs.Roomy.{AreRoomsOf};

use crate::lane::{Seated, lane_at};
use captures::{CallLaneList, Calls};
use desk_core::Reply;
use script_text::DeskLineList;
use shelf::{ReceiptList, ReceiptRoom};
use std::alloc::{AllocError, Global};

/// Room for each lane's receipts, for the lanes' seats and for what they give, and for the replies.
#[derive(Drop)]
pub(crate) struct Rooms {
    pub(crate) receipts: Vec<ReceiptRoom>,
    pub(crate) seats: Vec<Seated>,
    pub(crate) lanes: Vec<ReceiptList>,
    pub(crate) replies: Vec<(u64, Reply)>,
}

/// The number of a desk's lines, 0 where there is no desk.
pub(crate) fn desk_len(desk: Option<&DeskLineList>) -> usize
    ensures { result ≡ length (desk_of desk.entry) }
{
    match desk {
        None => 0,
        Some(lines) => lines.len(),
    }
}

// Room for the receipts of each lane.
fn receipt_rooms(alloc: Global, lanes: &CallLaneList<'_>) -> Result<Vec<ReceiptRoom>, AllocError>
    ensures { IfOk result (λ rooms. rooms.items ≡ map room_for lanes.now) }
{
    let mut rooms = Vec::with_capacity(alloc, lanes.len())?;
    for place in 0..lanes.len() {
        let lane = lane_at(lanes, place);
        let room = ReceiptRoom::new(alloc, lane.len())?;
        rooms.push(room)?;
    }
    Ok(rooms)
}

impl Rooms {
    /// Takes the memory that a section's lanes and replies need.
    pub(crate) fn take(alloc: Global, calls: &Calls<'_>) -> Result<Rooms, AllocError>
        ensures { IfOk result (AreRoomsOf (section_calls calls.now)) }
    {
        let lanes = calls.lanes.len();
        Ok(Rooms {
            receipts: receipt_rooms(alloc, &calls.lanes)?,
            seats: Vec::with_capacity(alloc, lanes)?,
            lanes: Vec::with_capacity(alloc, lanes)?,
            replies: Vec::with_capacity(alloc, desk_len(calls.desk))?,
        })
    }
}
