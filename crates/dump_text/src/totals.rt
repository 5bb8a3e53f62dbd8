//! The lines of the totals by uid and by interface.

ghost use Rattle.std.specs.Prelude.{◌≡◌, ◌∷◌, ◌++◌, ◌==◌, unwrap_or};
ghost use Rattle.std.specs.List.{flat_map, All};
ghost use Rattle.acct_base.specs.Amounts.{IsAtMost, minus, amount_if, zero_amount};
ghost use Rattle.shelf.specs.Phases.{deleted_app, recorded_app};
ghost use Rattle.dump_text.specs.Dump.{is_zero, app_unless_zero, app_left_text, apps_text, iface_text, ifaces_text};
ghost use Rattle.dump_text.specs.Pages.{Puts};
ghost use Rattle.dump_text.specs.Room.{IsCovered};

use crate::page::Page;
use crate::rows::{put_amount, put_app, put_iface};
use acct_base::{Amount, NameList, Snapshot, TotalList, Uid};
use outside::Sink;
use shelf::{Deletion, Shelf};

fn is_zero(amount: &Amount) -> bool
    ensures { result ≡ is_zero amount.now }
{
    amount.rx_packets == 0 && amount.rx_bytes == 0 && amount.tx_packets == 0 && amount.tx_bytes == 0
}

// What a phase's deletion recorded of a uid's app.
fn recorded(phase: &(Snapshot, Option<Deletion>), uid: Uid) -> Amount
    ensures { result ≡ recorded_app uid phase.now }
{
    match &phase.1 {
        None => Amount::zero(),
        Some(deletion) => recorded_by(deletion, uid),
    }
}

// What a deletion recorded of a uid's app.
fn recorded_by(deletion: &Deletion, uid: Uid) -> Amount
    ensures { result ≡ amount_if (deletion.now.uid == uid) (unwrap_or deletion.now.app zero_amount) }
{
    if deletion.uid == uid {
        deletion.app.unwrap_or(Amount::zero())
    } else {
        Amount::zero()
    }
}

// What is left of a uid's total, less what deletions recorded of it.
fn left_of(phases: &[(Snapshot, Option<Deletion>)], uid: Uid, total: &Amount) -> Amount
    requires covered { IsAtMost (deleted_app phases.now uid) total.now }
    ensures { result ≡ minus total.now (deleted_app phases.now uid) }
{
    let mut left = *total;
    for phase in phases {
        left = left.minus(&recorded(phase, uid));
    }
    left
}

fn put_unless_zero<K: Sink>(page: &mut Page<'_, K>, uid: Uid, left: &Amount)
    ensures { Puts K.written K.faults page.old page.new (app_unless_zero uid left.now) }
{
    if !is_zero(left) {
        put_app(page, uid, left);
    }
}

fn put_apps_left<K: Sink>(
    page: &mut Page<'_, K>,
    phases: &[(Snapshot, Option<Deletion>)],
    apps: &[(Uid, Amount)],
)
    requires covered { All (IsCovered phases.now) apps.now }
    ensures { Puts K.written K.faults page.old page.new (flat_map (app_left_text phases.now) apps.now) }
{
    for app in apps {
        put_unless_zero(page, app.0, &left_of(phases, app.0, &app.1));
    }
}

/// Puts the totals by uid, less what deletions recorded of them.
pub fn put_apps<K: Sink>(page: &mut Page<'_, K>, shelf: &Shelf, apps: &TotalList)
    requires covered { All (IsCovered shelf.now.phases) apps.now }
    ensures { Puts K.written K.faults page.old page.new (apps_text shelf.now.phases apps.now) }
{
    page.put(b"apps\n");
    put_apps_left(page, shelf.phases(), apps.as_slice());
}

fn put_total<K: Sink>(page: &mut Page<'_, K>, names: &NameList, total: &(u32, Amount))
    ensures { Puts K.written K.faults page.old page.new (iface_text names.now total.now) }
{
    page.put(b"iface");
    put_iface(page, names, total.0);
    put_amount(page, &total.1);
}

fn put_totals<K: Sink>(page: &mut Page<'_, K>, names: &NameList, totals: &TotalList)
    ensures { Puts K.written K.faults page.old page.new (flat_map (iface_text names.now) totals.now) }
{
    for total in totals.as_slice() {
        put_total(page, names, total);
    }
}

/// Puts the totals by interface.
pub fn put_ifaces<K: Sink>(page: &mut Page<'_, K>, names: &NameList, totals: &TotalList)
    ensures { Puts K.written K.faults page.old page.new (ifaces_text names.now totals.now) }
{
    page.put(b"ifaces\n");
    put_totals(page, names, totals);
}
