//! What the packet programs make of what they read: the small steps of `bpf_traffic_account` of netd.c.

ghost use Rattle.std.specs.Prelude.{◌≡◌, ◌≤◌, ◌==◌, ◌&&◌, ◌||◌, not, unwrap_or, option_map};
ghost use Rattle.acct_base.specs.Entries.{word_uid, word_tag};
ghost use Rattle.acct_base.specs.Rules.{is_ingress, allowed_unseen, is_system};
ghost use Rattle.acct_base.specs.Receipts.{number_read, rule_read, is_drop, iface_matches};

use crate::entry::{OwnerEntry, TagEntry};
use crate::label::{Iface, Label, Tag, Uid};
use crate::packet::{Dir, IfaceIn};
use crate::register::Seen;
use crate::verdict::{Settled, Verdict};

/// The uid of the clat daemon, AID_CLAT of Android: its packets pass and are not counted.
const CLAT: Uid = 1029;

/// The uids up to this one are the system's: owner match never looks them up.
const LAST_SYSTEM_UID: Uid = 9999;

/// The uid of nobody: a packet without a socket has it.
const NOBODY: Uid = 65534;

/// Whether the uid is one of the system's, up to 9999.
pub fn is_system_uid(uid: Uid) -> bool
    ensures { result ≡ is_system uid }
{
    uid <= LAST_SYSTEM_UID
}

/// The number that a read gave; 0 where it was not made, or gave none.
pub fn number_read(read: Option<Seen>) -> u64
    ensures { result ≡ number_read read }
{
    match read {
        None => 0,
        Some(seen) => seen.value.unwrap_or(0),
    }
}

/// The rule bits of a uid's entry, where a read gave one.
pub fn rule_read(read: Option<Seen>) -> Option<u32>
    ensures { result ≡ rule_read read }
{
    match read {
        None => None,
        Some(seen) => match seen.value {
            None => None,
            Some(word) => Some(OwnerEntry::of(word).rule),
        },
    }
}

/// Whose traffic a packet is, and its tag: the cookie's entry, or else the socket's uid and no tag.
pub fn tag_read(read: Seen, sock_uid: Uid) -> TagEntry
    ensures { result ≡ record { uid = unwrap_or (option_map word_uid read.value) sock_uid; tag = unwrap_or (option_map word_tag read.value) 0 } }
{
    match read.value {
        None => TagEntry {
            uid: sock_uid,
            tag: 0,
        },
        Some(word) => TagEntry::of(word),
    }
}

/// Whether a packet is the clat daemon's, by its socket's uid or by its tag's: it passes and is not counted.
pub fn is_clat(sock_uid: Uid, uid: Uid) -> bool
    ensures { result ≡ (sock_uid == 1029 || uid == 1029) }
{
    sock_uid == CLAT || uid == CLAT
}

/// Whether a packet is counted: it is not the clat daemon's, and was not dropped on its way out.
pub fn is_counted(clat: bool, dir: Dir, verdict: Verdict) -> bool
    ensures { result ≡ (not clat && (is_ingress dir || not (is_drop verdict))) }
{
    !clat && (dir == Dir::Ingress || verdict == Verdict::Pass)
}

/// The label that a packet is counted under, by what was read as its uid's counter set.
pub fn label_read(settled: Settled, tag: Tag, set_read: Option<Seen>, iface: Iface) -> Label
    requires small { number_read set_read ≤ 1 }
    ensures { result ≡ record { uid = settled.uid; tag = tag; set = number_read set_read; iface = iface } }
{
    Label {
        uid: settled.uid,
        tag,
        set: number_read(set_read) as u8,
        iface,
    }
}

/// Whether the allow list matches with no look at the uid's entry: for the system's uids, and for what is
/// received for nobody's socket, whose cookie is 0.
pub fn is_allowed_unseen(sock_uid: Uid, cookie: u64, received: bool) -> bool
    ensures { result ≡ allowed_unseen sock_uid cookie received }
{
    is_system_uid(sock_uid) || (sock_uid == NOBODY && cookie == 0 && received)
}

/// Whether an interface program matches a packet, and counts it: all but those that the clat daemon sends.
pub fn iface_matches(call: &IfaceIn) -> bool
    ensures { result ≡ iface_matches call.now }
{
    call.dir == Dir::Ingress || call.sock_uid != CLAT
}
