//! A snapshot as it goes to the shelf: whole, or divided by a deletion.

ghost use Rattle.std.specs.Prelude.{◌≡◌, ◌≤◌, ◌==◌, [], ℕ, length, filter, not, vec_len, vec_capacity, is_some, IfSome};
ghost use Rattle.acct_base.specs.Amounts.{HasRoom, IsAtMost, minus};
ghost use Rattle.shelf.specs.Phases.{is_deleted, deleted_app, IsDividedBy, IsShelved, uid_of, recorded_app};
ghost use Rattle.acct_base.specs.declared.amount.Snapshot.{Snapshot as SnapshotView};
ghost use Rattle.collector.specs.Deletions.{IsDropped, AppIsRead, AppIsKnown};
ghost use Rattle.total_rows.specs.Seats.{KnowsAll, known};

use acct_base::{Amount, Row, RowList, Snapshot, Tag, Uid};
use shelf::Deletion;
use total_rows::{TotalSeat, Totals};

// A deletion takes this row out.
fn is_taken(row: &Row, uid: Uid, tag: Tag) -> bool
    ensures { result ≡ is_deleted uid tag row.now }
{
    row.label.uid == uid && (tag == 0 || row.label.tag == tag)
}

// Takes out the rows that a deletion takes. The others stay, in their order.
fn take_out(rows: &mut Vec<Row>, room: Vec<Row>, uid: Uid, tag: Tag) -> RowList
    requires room { (room.items ≡ []) × (vec_len rows.old ≤ vec_capacity room) }
    ensures left { rows.new.items ≡ filter (λ row. not (is_deleted uid tag row)) rows.old.items }
    ensures taken { result ≡ filter (is_deleted uid tag) rows.old.items }
{
    let mut taken = room;
    for row in rows.iter() {
        if is_taken(row, uid, tag) {
            taken.push_reserved(*row);
        }
    }
    rows.retain(|row| !is_taken(row, uid, tag));
    RowList::from_vec(taken)
}

// What a deletion, if there is one, recorded of the uid's app.
fn recorded_by(deletion: &Option<Deletion>, uid: Uid) -> Amount
    ensures { (snapshot : SnapshotView) → result ≡ recorded_app uid (snapshot, deletion.now) }
{
    match deletion {
        Some(deletion) => {
            if deletion.uid == uid {
                deletion.app.unwrap_or(Amount::zero())
            } else {
                Amount::zero()
            }
        }
        None => Amount::zero(),
    }
}

// What all deletions on the shelf recorded of the uid's app.
fn recorded_before(phases: &[(Snapshot, Option<Deletion>)], uid: Uid) -> Amount
    requires { HasRoom (deleted_app phases.now uid) }
    ensures { result ≡ deleted_app phases.now uid }
{
    let mut sum = Amount::zero();
    for (_, deletion) in phases {
        sum = sum.plus(&recorded_by(deletion, uid));
    }
    sum
}

// What the uid's app came to since the last deletion that recorded it: its total, read once, less what was
// recorded before.
fn app_since(
    apps: &Totals,
    seat: &mut TotalSeat,
    phases: &[(Snapshot, Option<Deletion>)],
    uid: Uid,
) -> Amount
    requires from { seat.old.table ≡ apps.now.table }
    requires recorded { IsAtMost (deleted_app phases.now uid) (known seat.old uid) }
    ensures seat { seat.new ≡ record seat.old { notes = seat.new.notes } }
    ensures grows { KnowsAll seat.old seat.new }
    ensures value { result ≡ minus (known seat.new uid) (deleted_app phases.now uid) }
{
    let total = apps.read(seat, uid);
    total.minus(&recorded_before(phases, uid))
}

// What a deletion records of its uid's app: nothing where it has a tag.
fn app_of(
    apps: &Totals,
    seat: &mut TotalSeat,
    phases: &[(Snapshot, Option<Deletion>)],
    uid: Uid,
    tag: Tag,
) -> Option<Amount>
    requires from { seat.old.table ≡ apps.now.table }
    requires recorded { IsAtMost (deleted_app phases.now uid) (known seat.old uid) }
    ensures seat { seat.new ≡ record seat.old { notes = seat.new.notes } }
    ensures grows { KnowsAll seat.old seat.new }
    ensures tagged { is_some result ≡ (tag == 0) }
    ensures value { IfSome result (λ app. app ≡ minus (known seat.new uid) (deleted_app phases.now uid)) }
{
    if tag == 0 {
        Some(app_since(apps, seat, phases, uid))
    } else {
        None
    }
}

/// What goes to the shelf of a snapshot: all of it, or, where something is dropped, what a deletion leaves, and
/// the deletion.
pub(crate) fn shelve(
    apps: &Totals,
    seat: &mut TotalSeat,
    phases: &[(Snapshot, Option<Deletion>)],
    whole: Snapshot,
    room: Vec<Row>,
    drop: Option<(Uid, Tag)>,
) -> (Snapshot, Option<Deletion>)
    requires from { seat.old.table ≡ apps.now.table }
    requires recorded { (uid : ℕ) → IsAtMost (deleted_app phases.now uid) (known seat.old uid) }
    requires room { (room.items ≡ []) × (length whole.rows ≤ vec_capacity room) }
    ensures shelved { IsShelved whole result }
    ensures dropped { IsDropped whole.phase drop result.1 }
    ensures read { AppIsRead phases.now (known seat.new) result.1 }
    ensures seat { seat.new ≡ record seat.old { notes = seat.new.notes } }
    ensures grows { KnowsAll seat.old seat.new }
{
    let Some((uid, tag)) = drop else {
        return (whole, None);
    };
    let app = app_of(apps, seat, phases, uid, tag);
    let Snapshot { phase, rows } = whole;
    let mut left = rows.into_vec();
    let taken = take_out(&mut left, room, uid, tag);
    let deletion = Deletion {
        phase,
        uid,
        tag,
        rows: taken,
        app,
    };
    let rows = RowList::from_vec(left);
    (Snapshot { phase, rows }, Some(deletion))
}
