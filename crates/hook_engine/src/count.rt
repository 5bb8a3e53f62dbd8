//! What a call charges and adds, once it is decided that its packet is counted.

ghost use Rattle.std.specs.Prelude.{◌≡◌, ◌+◌, ◌-◌, ◌<◌, ◌≤◌, ◌==◌, ◌∷◌, ◌++◌, [], not, is_some, None, Some};
ghost use Rattle.acct_base.specs.Landings.{is_row, add_lands, LandInTurn};
ghost use Rattle.acct_base.specs.Length.{IsChargeable};
ghost use Rattle.acct_base.specs.Ranges.{IsHookInRange};
ghost use Rattle.acct_base.specs.Receipts.{hook_call, is_landed};
ghost use Rattle.grace_rows.specs.Seats.{IsSole as HasAllCalls};
ghost use Rattle.total_rows.specs.Seats.{IsSole as HasAllAdds};
ghost use Rattle.hook_engine.specs.Steps.{IsJob, Looked, charged_to, row_charges, Charged, Counted};

use acct_base::{Dir, HookIn, Job, Label, Landed, Mark, Receipt, scaled};
use grace_rows::{Entry, HookSeat, Paired};
use total_rows::{TotalSeat, Totals};

/// How a packet's charges to rows fared, in the phase that it entered: to its label where that has a tag, and to
/// the label without its tag.
#[derive(Clone, Copy, Debug)]
pub struct RowMarks {
    pub phase: u32,
    pub tag: Option<Mark>,
    pub plain: Mark,
}

// The mark of where a charge or an add landed.
#[inline(always)]
fn mark_of(landed: Landed) -> Mark
    ensures { is_landed result ≡ is_row landed }
{
    match landed {
        Landed::Row(_) => Mark::Landed,
        Landed::Full => Mark::Full,
    }
}

// Charges a job to its label's row.
#[inline(always)]
fn charge(paired: &Paired, seat: &mut HookSeat, entry: &mut Entry, job: Job) -> Mark
    requires seat { (seat.old.table ≡ paired.now.table) × (seat.old.entry ≡ Some entry.old) }
    requires few { entry.old.charges < 2 }
    requires job { IsJob job }
    ensures entry { entry.new ≡ record { phase = entry.old.phase; charges = entry.old.charges + 1 } }
    ensures seat { seat.new ≡ record seat.old { entry = Some entry.new; charges = seat.old.charges ++ charged_to job entry.old.phase (Some result); steps = seat.new.steps; spots = seat.new.spots } }
    ensures in_turn { HasAllCalls paired.now seat.old → LandInTurn paired.now.rows seat.old.charges (charged_to job entry.old.phase (Some result)) }
{
    let landed = paired.charge(seat, entry, job.label, job.dir, job.packets, job.bytes);
    mark_of(landed)
}

// Charges a job to its label's row, where the label has a tag.
#[inline(always)]
fn charge_tagged(paired: &Paired, seat: &mut HookSeat, entry: &mut Entry, job: Job) -> Option<Mark>
    requires seat { (seat.old.table ≡ paired.now.table) × (seat.old.entry ≡ Some entry.old) }
    requires none { entry.old.charges ≡ 0 }
    requires job { IsJob job }
    ensures entry { (entry.new.phase ≡ entry.old.phase) × (entry.new.charges < 2) }
    ensures seat { seat.new ≡ record seat.old { entry = Some entry.new; charges = seat.old.charges ++ charged_to job entry.old.phase result; steps = seat.new.steps; spots = seat.new.spots } }
    ensures tagged { is_some result ≡ not (job.label.tag == 0) }
    ensures in_turn { HasAllCalls paired.now seat.old → LandInTurn paired.now.rows seat.old.charges (charged_to job entry.old.phase result) }
{
    if job.label.tag == 0 {
        None
    } else {
        Some(charge(paired, seat, entry, job))
    }
}

// Enters the phase that is live, charges a packet to its label, where that has a tag, and to the label without
// its tag, and leaves the phase.
#[inline(always)]
fn charge_rows(paired: &Paired, seat: &mut HookSeat, job: Job) -> RowMarks
    requires seat { (seat.old.table ≡ paired.now.table) × (seat.old.entry ≡ None) × (0 < seat.old.left) }
    requires job { IsJob job }
    ensures { Charged paired.now job seat.old seat.new result }
{
    let mut entry = paired.enter(seat);
    let phase = entry.phase();
    let tag = charge_tagged(paired, seat, &mut entry, job);
    let plain = charge(
        paired,
        seat,
        &mut entry,
        Job {
            label: Label {
                tag: 0,
                ..job.label
            },
            ..job
        },
    );
    paired.exit(seat, entry);
    RowMarks { phase, tag, plain }
}

/// Adds to a total, and says whether that landed.
#[inline(always)]
pub(crate) fn add(
    totals: &Totals,
    seat: &mut TotalSeat,
    key: u32,
    dir: Dir,
    packets: u64,
    bytes: u64,
) -> Mark
    requires seat { (seat.old.table ≡ totals.now.table) × (0 < seat.old.left) }
    requires key { key < 4294967295 }
    requires amounts { IsChargeable packets bytes }
    ensures seat { seat.new ≡ record seat.old { left = seat.old.left - 1; made = seat.old.made + 1; adds = seat.old.adds ++ record { key = key; dir = dir; packets = packets; bytes = bytes; landed = is_landed result } ∷ []; places = seat.new.places } }
    ensures in_turn { HasAllAdds totals.now seat.old → is_landed result ≡ add_lands totals.now.rows seat.old.adds key }
{
    let landed = totals.add(seat, key, dir, packets, bytes);
    mark_of(landed)
}

// Counts a packet under its label: in the rows of the phase that is live, and in its app's total.
#[inline(always)]
fn count_label(
    paired: &Paired,
    totals: &Totals,
    hook: &mut HookSeat,
    apps: &mut TotalSeat,
    call: &HookIn<'_>,
    looked: Receipt,
    label: Label,
) -> Receipt
    requires hook { (hook.old.table ≡ paired.now.table) × (hook.old.entry ≡ None) × (0 < hook.old.left) }
    requires apps { (apps.old.table ≡ totals.now.table) × (0 < apps.old.left) }
    requires range { IsHookInRange (hook_call call.now) }
    requires looked { Looked (hook_call call.now) looked.front looked }
    requires label { looked.label ≡ Some label }
    ensures { Counted paired.now totals.now (hook_call call.now) looked hook.old apps.old result hook.new apps.new }
{
    let (packets, bytes) = scaled(call.len, call.family);
    let job = Job {
        label,
        dir: call.dir,
        packets,
        bytes,
    };
    let rows = charge_rows(paired, hook, job);
    let app = add(totals, apps, label.uid, call.dir, packets, bytes);
    Receipt {
        phase: Some(rows.phase),
        landed_tag: rows.tag,
        landed_plain: Some(rows.plain),
        landed_app: Some(app),
        ..looked
    }
}

/// Counts a packet, where it is one to be counted, and completes its receipt.
#[inline(always)]
pub(crate) fn count(
    paired: &Paired,
    totals: &Totals,
    hook: &mut HookSeat,
    apps: &mut TotalSeat,
    call: &HookIn<'_>,
    looked: Receipt,
) -> Receipt
    requires hook { (hook.old.table ≡ paired.now.table) × (hook.old.entry ≡ None) × (0 < hook.old.left) }
    requires apps { (apps.old.table ≡ totals.now.table) × (0 < apps.old.left) }
    requires range { IsHookInRange (hook_call call.now) }
    requires looked { Looked (hook_call call.now) looked.front looked }
    ensures { Counted paired.now totals.now (hook_call call.now) looked hook.old apps.old result hook.new apps.new }
{
    match looked.label {
        None => looked,
        Some(label) => count_label(paired, totals, hook, apps, call, looked, label),
    }
}
