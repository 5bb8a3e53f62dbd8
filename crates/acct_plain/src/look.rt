//! What a hook reads and decides before its charges are made, and what the two lists answer.

ghost use Rattle.std.specs.Prelude.{◌≡◌};
ghost use Rattle.std.specs.List.{AllByRecursion};
ghost use Rattle.acct_base.specs.Receipts.{hook_call};
ghost use Rattle.acct_plain.specs.Serial.{read_if, serial_allow, serial_deny};
ghost use Rattle.acct_plain.specs.Sound.{IsSoundWrite};
ghost use Rattle.acct_plain.specs.Kept.{unmarked};

use acct_base::{
    HookIn, Key, ListReceipt, Receipt, Seen, Uid, is_allowed_unseen, is_clat, is_counted,
    label_read, rule_read, tag_read,
};
use desk_core::Book;
use heads::Head;
use owner_match::{allow_list, deny_list, looks_up, match_read, settle_read};

// A read of all writes, where it is made.
#[inline(always)]
fn read_if(book: &Book, made: bool, key: Key) -> Option<Seen>
    ensures { result ≡ read_if made book.now.journal key }
{
    if made { Some(book.read(key)) } else { None }
}

/// The hook's receipt before its charges are made.
#[inline(always)]
pub(crate) fn look(book: &Book, phase: u32, call: &HookIn<'_>) -> Receipt
    requires { AllByRecursion IsSoundWrite book.now.journal }
    ensures { result ≡ unmarked book.now.journal phase (hook_call call.now) }
{
    let tag_seen = book.read(Key::Cookie(call.cookie));
    let entry = tag_read(tag_seen, call.sock_uid);
    let clat = is_clat(call.sock_uid, entry.uid);
    let skip = Head::of(call.family, call.head).skips();
    let looked = !clat && looks_up(skip, call.sock_uid);
    let rules_seen = read_if(book, looked, Key::Enabled);
    let owner_seen = read_if(book, looked, Key::Owner(call.sock_uid));
    let matched = match_read(skip, call, rules_seen, owner_seen);
    let settled = settle_read(clat, matched, call.sock_uid, entry);
    let counted = is_counted(clat, call.dir, settled.verdict);
    let set_seen = read_if(book, counted, Key::Set(settled.uid));
    let label = label_read(settled, entry.tag, set_seen, call.iface);
    Receipt {
        front: book.made(),
        tag_read: tag_seen,
        rules_read: rules_seen,
        owner_read: owner_seen,
        set_read: set_seen,
        phase: if counted { Some(phase) } else { None },
        label: if counted { Some(label) } else { None },
        verdict: settled.verdict,
        landed_tag: None,
        landed_plain: None,
        landed_app: None,
    }
}

/// The allow list's receipt.
pub(crate) fn look_allow(book: &Book, sock_uid: Uid, cookie: u64, received: bool) -> ListReceipt
    ensures { result ≡ serial_allow book.now.journal sock_uid cookie received }
{
    let made = !is_allowed_unseen(sock_uid, cookie, received);
    let owner_read = read_if(book, made, Key::Owner(sock_uid));
    ListReceipt {
        front: book.made(),
        owner_read,
        matched: allow_list(sock_uid, cookie, received, rule_read(owner_read)),
    }
}

/// The deny list's receipt.
pub(crate) fn look_deny(book: &Book, sock_uid: Uid) -> ListReceipt
    ensures { result ≡ serial_deny book.now.journal sock_uid }
{
    let owner_read = Some(book.read(Key::Owner(sock_uid)));
    ListReceipt {
        front: book.made(),
        owner_read,
        matched: deny_list(rule_read(owner_read)),
    }
}
