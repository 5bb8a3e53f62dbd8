//! How lanes get their passes, and how these come back.

ghost use Rattle.std.specs.Prelude.{◌≡◌, ◌∷◌, [], ◌≤◌, length, map, slice_get, vec_capacity, IfSome};
ghost use Rattle.std.specs.List.{AllByRecursion, AllZip};
ghost use Rattle.lanes.specs.Lanes.{AllSplit, AllJoined, AreLanesInRange, calls_made};
ghost use Rattle.lanes.specs.Seats.{IsReadyFor, IsOf, pass_of, receipts_of, room_for};

use crate::lane::{Seated, lane_at};
use captures::CallLaneList;
use hook_engine::{Engine, Pass};
use shelf::{ReceiptList, ReceiptRoom};

/// Seats for lanes: each has a pass of its own, with as many calls as the lane makes.
pub(crate) fn seat_each(
    engine: &Engine,
    pass: &mut Pass,
    lanes: &CallLaneList<'_>,
    receipts: Vec<ReceiptRoom>,
    seats: Vec<Seated>,
) -> Vec<Seated>
    requires from { pass.old.tables ≡ engine.now.tables }
    requires calls { calls_made lanes.now ≤ pass.old.has.left }
    requires range { AreLanesInRange lanes.now }
    requires receipts { receipts.items ≡ map room_for lanes.now }
    requires seats { (seats.items ≡ []) × (length lanes.now ≤ vec_capacity seats) }
    ensures from { pass.new.tables ≡ engine.now.tables }
    ensures split { AllSplit pass.old.has (map pass_of result.items) pass.new.has }
    ensures ready { AllZip (IsReadyFor engine.now) lanes.now result.items }
{
    let mut seats = seats;
    for room in receipts {
        let lane = lane_at(lanes, seats.len());
        let other = engine.split(pass, lane.len() as u64);
        seats.push_reserved(Seated {
            pass: other,
            receipts: room,
        });
    }
    seats
}

/// The seat of a lane that is by itself. It has the whole pass.
pub(crate) fn seat_one(pass: Pass, receipts: Vec<ReceiptRoom>, seats: Vec<Seated>) -> Vec<Seated>
    requires receipts { length receipts.items ≡ 1 }
    requires seats { (seats.items ≡ []) × (1 ≤ vec_capacity seats) }
    ensures { IfSome (slice_get receipts.items 0) (λ room. result.items ≡ record { pass = pass; receipts = room } ∷ []) }
{
    let mut receipts = receipts;
    let mut seats = seats;
    let receipts = receipts.pop().unwrap();
    seats.push_reserved(Seated { pass, receipts });
    seats
}

/// The pass and the receipts of a lane that was by itself.
pub(crate) fn unseat_one(seats: Vec<Seated>, lanes: Vec<ReceiptList>) -> (Pass, Vec<ReceiptList>)
    requires seats { length seats.items ≡ 1 }
    requires lanes { (lanes.items ≡ []) × (1 ≤ vec_capacity lanes) }
    ensures { IfSome (slice_get seats.items 0) (λ seat. (result.0 ≡ seat.pass) × (result.1.items ≡ receipts_of seat ∷ [])) }
{
    let mut seats = seats;
    let mut lanes = lanes;
    let Seated { pass, receipts } = seats.pop().unwrap();
    lanes.push_reserved(receipts.into_list());
    (pass, lanes)
}

/// Joins the passes of lanes in, in lane order, and gives the lanes' receipts.
pub(crate) fn gather(
    engine: &Engine,
    pass: &mut Pass,
    seats: Vec<Seated>,
    lanes: Vec<ReceiptList>,
) -> Vec<ReceiptList>
    requires from { pass.old.tables ≡ engine.now.tables }
    requires seats { AllByRecursion (IsOf engine.now) seats.items }
    requires lanes { (lanes.items ≡ []) × (length seats.items ≤ vec_capacity lanes) }
    ensures from { pass.new.tables ≡ engine.now.tables }
    ensures joined { AllJoined pass.old.has (map pass_of seats.items) pass.new.has }
    ensures receipts { result.items ≡ map receipts_of seats.items }
{
    let mut lanes = lanes;
    for seat in seats {
        let Seated {
            pass: other,
            receipts,
        } = seat;
        engine.join(pass, other);
        lanes.push_reserved(receipts.into_list());
    }
    lanes
}
