//! The calls that packets make.

ghost use Rattle.std.specs.Prelude.{◌≡◌, ◌<◌, true, Some};
ghost use Rattle.acct_base.specs.Ranges.{IsHookInRange, IsIfaceInRange};
ghost use Rattle.acct_base.specs.Receipts.{hook_call, iface_matches};
ghost use Rattle.acct_base.specs.Receipts.Call.{Hook, Iface, Allow, Deny};
ghost use Rattle.acct_base.specs.declared.receipt.LineReceipt.TheVariants as line;
ghost use Rattle.hook_engine.specs.Passes.{Called};
ghost use Rattle.hook_engine.specs.Tables.{LoadedFront};
ghost use Rattle.hook_engine.specs.Steps.{IfaceCounted};

use crate::count::{add, count};
use crate::engine::Engine;
use crate::look::{look, look_allow, look_deny};
use crate::pass::Pass;
use acct_base::{
    HookIn, IfaceIn, IfaceReceipt, ListReceipt, Mark, Receipt, Uid, iface_matches, scaled,
};
use total_rows::{TotalSeat, Totals};

// Adds a packet to its interface's total.
#[inline(always)]
fn add_iface(totals: &Totals, seat: &mut TotalSeat, call: &IfaceIn) -> Mark
    requires seat { (seat.old.table ≡ totals.now.table) × (0 < seat.old.left) }
    requires range { IsIfaceInRange call.now }
    requires matches { iface_matches call.now ≡ true }
    ensures { IfaceCounted totals.now call.now seat.old seat.new (record { matched = true; landed = Some result }) }
{
    let (packets, bytes) = scaled(call.len, call.family);
    add(totals, seat, call.iface, call.dir, packets, bytes)
}

// The receipt of an interface program, which adds the packet where it matches.
#[inline(always)]
fn count_iface(totals: &Totals, seat: &mut TotalSeat, call: &IfaceIn) -> IfaceReceipt
    requires seat { (seat.old.table ≡ totals.now.table) × (0 < seat.old.left) }
    requires range { IsIfaceInRange call.now }
    ensures { IfaceCounted totals.now call.now seat.old seat.new result }
{
    let matched = iface_matches(call);
    IfaceReceipt {
        matched,
        landed: if matched {
            Some(add_iface(totals, seat, call))
        } else {
            None
        },
    }
}

impl Engine {
    /// A packet at a hook: `bpf_traffic_account` of netd.c. It loads the published front, reads the cookie's
    /// tag and what owner match looks up, and, where the packet is counted, its uid's counter set. Then it enters
    /// the live phase, makes its charges, and leaves. A packet that is not counted enters nothing.
    ///
    /// It spends one call of the pass, counted or not. It takes no memory, waits for nobody, and cannot fail.
    pub fn hook(&self, pass: &mut Pass, call: &HookIn<'_>) -> Receipt
        requires from { pass.old.tables ≡ self.now.tables }
        requires left { 0 < pass.old.has.left }
        requires range { IsHookInRange (hook_call call.now) }
        ensures called { Called self.now.sizes.calls self.now.sizes pass.old.has (Hook (hook_call call.now)) (line.Hook result) pass.new.has }
        ensures front { LoadedFront pass.old pass.new result.front }
        ensures same { pass.new ≡ record pass.old { has = pass.new.has; loads = pass.new.loads; loaded = pass.new.loaded } }
    {
        let regs = &self.regs;
        let front = regs.front(&mut pass.reader);
        let looked = look(regs, &mut pass.reader, call, front);
        let receipt = count(
            &self.paired,
            &self.apps,
            &mut pass.hook,
            &mut pass.apps,
            call,
            looked,
        );
        pass.left -= 1;
        pass.made += 1;
        receipt
    }

    /// A packet at an interface program: those of netd.c that count by interface. It adds the packet to the
    /// interface's total, but for what the clat daemon sends.
    ///
    /// It spends one call of the pass, counted or not. It takes no memory, waits for nobody, and cannot fail.
    pub fn iface(&self, pass: &mut Pass, call: &IfaceIn) -> IfaceReceipt
        requires from { pass.old.tables ≡ self.now.tables }
        requires left { 0 < pass.old.has.left }
        requires range { IsIfaceInRange call.now }
        ensures called { Called self.now.sizes.calls self.now.sizes pass.old.has (Iface call.now) (line.Iface result) pass.new.has }
        ensures same { pass.new ≡ record pass.old { has = pass.new.has } }
    {
        let receipt = count_iface(&self.ifaces, &mut pass.ifaces, call);
        pass.left -= 1;
        pass.made += 1;
        receipt
    }

    /// The allow list of netd.c. It loads the published front, and reads the uid's entry, unless it matches
    /// without that. It spends no call, takes no memory, waits for nobody, and cannot fail.
    pub fn allow(&self, pass: &mut Pass, sock_uid: Uid, cookie: u64, received: bool) -> ListReceipt
        requires from { pass.old.tables ≡ self.now.tables }
        requires uid { sock_uid < 4294967295 }
        ensures called { Called self.now.sizes.calls self.now.sizes pass.old.has (Allow sock_uid cookie received) (line.List result) pass.new.has }
        ensures front { LoadedFront pass.old pass.new result.front }
        ensures same { pass.new ≡ record pass.old { has = pass.new.has; loads = pass.new.loads; loaded = pass.new.loaded } }
    {
        let front = self.regs.front(&mut pass.reader);
        look_allow(
            &self.regs,
            &mut pass.reader,
            sock_uid,
            cookie,
            received,
            front,
        )
    }

    /// The deny list of netd.c. It loads the published front, and reads the uid's entry. It spends no call, takes
    /// no memory, waits for nobody, and cannot fail.
    pub fn deny(&self, pass: &mut Pass, sock_uid: Uid) -> ListReceipt
        requires from { pass.old.tables ≡ self.now.tables }
        requires uid { sock_uid < 4294967295 }
        ensures called { Called self.now.sizes.calls self.now.sizes pass.old.has (Deny sock_uid) (line.List result) pass.new.has }
        ensures front { LoadedFront pass.old pass.new result.front }
        ensures same { pass.new ≡ record pass.old { has = pass.new.has; loads = pass.new.loads; loaded = pass.new.loaded } }
    {
        let front = self.regs.front(&mut pass.reader);
        look_deny(&self.regs, &mut pass.reader, sock_uid, front)
    }
}
