//! What a call reads of the registers, and what it decides by that.

ghost use Rattle.std.specs.Prelude.{◌≡◌, ◌∷◌, [], is_some, IfSome};
ghost use Rattle.acct_base.specs.Ranges.{IsHookInRange};
ghost use Rattle.acct_base.specs.Receipts.{hook_call, keyed_read, value_read, reads_of, owner_reads, ObeysAllow, ObeysDeny};
ghost use Rattle.acct_base.specs.Registers.{IsValueOf};
ghost use Rattle.hook_engine.specs.Steps.{DidRead, Looked};

use acct_base::{
    HookIn, Key, ListReceipt, Receipt, Seen, Uid, is_allowed_unseen, is_clat, is_counted,
    label_read, rule_read, tag_read, true_reads_last,
};
use heads::Head;
use owner_match::{allow_list, deny_list, looks_up, match_read, settle_read};
use reg_words::{Reader, Regs};

// A read of a key.
#[inline(always)]
fn read(regs: &Regs, reader: &mut Reader, key: Key) -> Seen
    requires from { reader.old.origin ≡ regs.now }
    ensures did { DidRead reader.old reader.new ((key, result) ∷ []) }
    ensures value { IfSome result.value (IsValueOf key) }
{
    regs.read(reader, key)
}

// A read of a key, where it is made.
#[inline(always)]
fn read_if(regs: &Regs, reader: &mut Reader, made: bool, key: Key) -> Option<Seen>
    requires from { reader.old.origin ≡ regs.now }
    ensures did { DidRead reader.old reader.new (keyed_read key result) }
    ensures made { is_some result ≡ made }
    ensures value { IfSome (value_read result) (IsValueOf key) }
{
    if made {
        Some(read(regs, reader, key))
    } else {
        None
    }
}

/// A hook's receipt before its charges are made: its reads, its verdict, and the label where the packet is
/// counted.
#[inline(always)]
pub(crate) fn look(regs: &Regs, reader: &mut Reader, call: &HookIn<'_>, front: u32) -> Receipt
    requires from { reader.old.origin ≡ regs.now }
    requires range { IsHookInRange (hook_call call.now) }
    ensures did { DidRead reader.old reader.new (reads_of (hook_call call.now) result) }
    ensures looked { Looked (hook_call call.now) front result }
{
    let tag_seen = read(regs, reader, Key::Cookie(call.cookie));
    let entry = tag_read(tag_seen, call.sock_uid);
    let clat = is_clat(call.sock_uid, entry.uid);
    let skip = Head::of(call.family, call.head).skips();
    let looked = !clat && looks_up(skip, call.sock_uid);
    let rules_seen = read_if(regs, reader, looked, Key::Enabled);
    let owner_seen = read_if(regs, reader, looked, Key::Owner(call.sock_uid));
    let matched = match_read(skip, call, rules_seen, owner_seen);
    let settled = settle_read(clat, matched, call.sock_uid, entry);
    let counted = is_counted(clat, call.dir, settled.verdict);
    let set_seen = read_if(regs, reader, counted, Key::Set(settled.uid));
    let label = label_read(settled, entry.tag, set_seen, call.iface);
    // What was read stays true while the reader learns more writes.
    true_reads_last();
    Receipt {
        front,
        tag_read: tag_seen,
        rules_read: rules_seen,
        owner_read: owner_seen,
        set_read: set_seen,
        phase: None,
        label: if counted { Some(label) } else { None },
        verdict: settled.verdict,
        landed_tag: None,
        landed_plain: None,
        landed_app: None,
    }
}

/// The allow list's receipt.
#[inline(always)]
pub(crate) fn look_allow(
    regs: &Regs,
    reader: &mut Reader,
    sock_uid: Uid,
    cookie: u64,
    received: bool,
    front: u32,
) -> ListReceipt
    requires from { reader.old.origin ≡ regs.now }
    ensures did { DidRead reader.old reader.new (owner_reads sock_uid result) }
    ensures obeys { ObeysAllow sock_uid cookie received result }
    ensures front { result.front ≡ front }
{
    let made = !is_allowed_unseen(sock_uid, cookie, received);
    let owner_read = read_if(regs, reader, made, Key::Owner(sock_uid));
    ListReceipt {
        front,
        owner_read,
        matched: allow_list(sock_uid, cookie, received, rule_read(owner_read)),
    }
}

/// The deny list's receipt.
#[inline(always)]
pub(crate) fn look_deny(regs: &Regs, reader: &mut Reader, sock_uid: Uid, front: u32) -> ListReceipt
    requires from { reader.old.origin ≡ regs.now }
    ensures did { DidRead reader.old reader.new (owner_reads sock_uid result) }
    ensures obeys { ObeysDeny result }
    ensures front { result.front ≡ front }
{
    let owner_read = read_if(regs, reader, true, Key::Owner(sock_uid));
    ListReceipt {
        front,
        owner_read,
        matched: deny_list(rule_read(owner_read)),
    }
}
