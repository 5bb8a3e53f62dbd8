//! The replay: what it keeps, and the calls of its hooks, its interface programs and its lists.

ghost use Rattle.std.specs.Prelude.{◌≡◌, ℕ, ◌+◌, Some, length, IfOk, OnErr};
ghost use Rattle.acct_base.specs.Receipts.{hook_call};
ghost use Rattle.acct_base.specs.Receipts.Call.{Hook, Iface};
ghost use Rattle.acct_base.specs.declared.receipt.LineReceipt.TheVariants as line;
ghost use Rattle.desk_core.specs.Ranges.{AreApps};
ghost use Rattle.acct_base.specs.Ranges.{IsHookInRange, IsIfaceInRange};
ghost use Rattle.captures.specs.Runs.{Past, nothing_yet};

use crate::ledger::Ledger;
use crate::look::{look, look_allow, look_deny};
use acct_base::{
    Amount, HookIn, Iface, IfaceIn, IfaceReceipt, Label, ListReceipt, Receipt, Sizes, Uid,
    iface_matches, scaled,
};
use desk_core::Book;
use shelf::Shelf;
use std::alloc::{AllocError, Global};
use std::marker::Model;

/// A replay on one thread: running sums on ordered maps.
///
/// `specs/Kept` says what it keeps of all that happened.
#[derive(Debug, Drop)]
pub struct Plain {
    pub(crate) sizes: Sizes,
    pub(crate) book: Book,
    pub(crate) shelf: Shelf,
    /// What the live phase counted, by label.
    pub(crate) rows: Ledger<Label>,
    pub(crate) apps: Ledger<Uid>,
    pub(crate) ifaces: Ledger<Iface>,
    /// What each uid's deletions recorded of its app.
    pub(crate) recorded: Ledger<Uid>,
}

impl Model for Plain {
    ghost use Rattle.acct_plain.specs.Kept.{Tables};

    ghost Value = { Tables };

    ghost view = { λ p. record { sizes = p.sizes; book = p.book; phases = p.shelf.phases; rows = p.rows; apps = p.apps; ifaces = p.ifaces; recorded = p.recorded } };
}

impl Plain {
    ghost use Rattle.acct_plain.specs.Serial.{serial_receipt, serial_iface, serial_allow, serial_deny, after_call};
    ghost use Rattle.acct_plain.specs.Kept.{Keeps, HasRoomFor, unmarked};

    /// A replay of which nothing happened yet, with these privileged apps and sizes.
    pub fn new(alloc: Global, privileged: &[u32], sizes: &Sizes) -> Result<Plain, AllocError>
        requires { AreApps privileged.now }
        ensures keeps { IfOk result (λ p. Keeps p nothing_yet 0) }
        ensures privileged { IfOk result (λ p. p.book.privileged ≡ privileged.now) }
        ensures sizes { IfOk result (λ p. p.sizes ≡ sizes.now) }
    {
        let book = Book::new(alloc, privileged, &sizes.regs)?;
        Ok(Plain {
            sizes: *sizes,
            book,
            shelf: Shelf::new(alloc),
            rows: Ledger::new(alloc),
            apps: Ledger::new(alloc),
            ifaces: Ledger::new(alloc),
            recorded: Ledger::new(alloc),
        })
    }

    /// A packet at a hook. Where memory is wanting all stays as it was.
    pub fn hook(&mut self, call: &HookIn<'_>) -> Result<Receipt, AllocError>
        requires range { IsHookInRange (hook_call call.now) }
        requires room { HasRoomFor self.old 3 }
        ensures keeps { (past : Past) (n : ℕ) → Keeps self.old past n → IfOk result (λ r.
            (r ≡ serial_receipt self.old.sizes past (hook_call call.now)) × Keeps self.new (after_call past (Hook (hook_call call.now)) (line.Hook r)) (n + 3)) }
        ensures err { OnErr result (self.new ≡ self.old) }
        ensures sizes { self.new.sizes ≡ self.old.sizes }
        ensures book { self.new.book ≡ self.old.book }
        ensures phases { self.new.phases ≡ self.old.phases }
    {
        let phase = self.shelf.len();
        let receipt = look(&self.book, phase, call);
        match receipt.label {
            None => Ok(receipt),
            Some(label) => self.charge_packet(call, receipt, label),
        }
    }

    // Makes the charges of a packet that is counted: to its app, to its label where that has a tag, and to the
    // label without its tag.
    fn charge_packet(
        &mut self,
        call: &HookIn<'_>,
        receipt: Receipt,
        label: Label,
    ) -> Result<Receipt, AllocError>
        requires range { IsHookInRange (hook_call call.now) }
        requires room { HasRoomFor self.old 3 }
        ensures keeps { (past : Past) (n : ℕ) → Keeps self.old past n →
            receipt ≡ unmarked past.journal (length past.phases) (hook_call call.now) → receipt.label ≡ Some label → IfOk result (λ r.
            (r ≡ serial_receipt self.old.sizes past (hook_call call.now)) × Keeps self.new (after_call past (Hook (hook_call call.now)) (line.Hook r)) (n + 3)) }
        ensures err { OnErr result (self.new ≡ self.old) }
        ensures sizes { self.new.sizes ≡ self.old.sizes }
        ensures book { self.new.book ≡ self.old.book }
        ensures phases { self.new.phases ≡ self.old.phases }
    {
        let (packets, bytes) = scaled(call.len, call.family);
        let more = Amount::counted(call.dir, packets, bytes);
        let app = self.apps.add(self.sizes.apps, label.uid, &more)?;
        match self.rows.charge(self.sizes.rows, label, &more) {
            Ok(rows) => Ok(Receipt {
                landed_tag: rows.tag,
                landed_plain: Some(rows.plain),
                landed_app: Some(app.mark),
                ..receipt
            }),
            Err(failed) => {
                self.apps.set(label.uid, app.before);
                Err(failed)
            }
        }
    }

    /// A packet at an interface program. Where memory is wanting all stays as it was.
    pub fn iface(&mut self, call: &IfaceIn) -> Result<IfaceReceipt, AllocError>
        requires range { IsIfaceInRange call.now }
        requires room { HasRoomFor self.old 3 }
        ensures keeps { (past : Past) (n : ℕ) → Keeps self.old past n → IfOk result (λ r.
            (r ≡ serial_iface self.old.sizes past call.now) × Keeps self.new (after_call past (Iface call.now) (line.Iface r)) (n + 3)) }
        ensures err { OnErr result (self.new ≡ self.old) }
        ensures sizes { self.new.sizes ≡ self.old.sizes }
        ensures book { self.new.book ≡ self.old.book }
        ensures phases { self.new.phases ≡ self.old.phases }
    {
        if !iface_matches(call) {
            return Ok(IfaceReceipt {
                matched: false,
                landed: None,
            });
        }
        let (packets, bytes) = scaled(call.len, call.family);
        let more = Amount::counted(call.dir, packets, bytes);
        let iface = self.ifaces.add(self.sizes.ifaces, call.iface, &more)?;
        Ok(IfaceReceipt {
            matched: true,
            landed: Some(iface.mark),
        })
    }

    /// The allow list.
    pub fn allow(&self, sock_uid: Uid, cookie: u64, received: bool) -> ListReceipt
        ensures { (past : Past) (n : ℕ) → Keeps self.now past n → result ≡ serial_allow past.journal sock_uid cookie received }
    {
        look_allow(&self.book, sock_uid, cookie, received)
    }

    /// The deny list.
    pub fn deny(&self, sock_uid: Uid) -> ListReceipt
        ensures { (past : Past) (n : ℕ) → Keeps self.now past n → result ≡ serial_deny past.journal sock_uid }
    {
        look_deny(&self.book, sock_uid)
    }
}
