//! Owner match by what a packet program read.

ghost use Rattle.std.specs.Prelude.{◌≡◌, ◌<◌, ◌^◌, if◌then◌else◌};
ghost use Rattle.acct_base.specs.declared.verdict.Verdict.TheVariants as verdict;
ghost use Rattle.acct_base.specs.Entries.{word_rule, word_iface};
ghost use Rattle.acct_base.specs.Rules.{match_of, settle as settled_by};
ghost use Rattle.acct_base.specs.Receipts.{number_read};

use crate::matching::{owner_match, settle};
use acct_base::{HookIn, Match, OwnerEntry, Seen, Settled, TagEntry, Uid, Verdict, number_read};

/// Owner match by what was read for the socket's uid, and never for the tag's. What was not read, or read
/// as absent, counts as no chain enabled, no rule and no interface.
pub fn match_read(
    skip: bool,
    call: &HookIn<'_>,
    rules_read: Option<Seen>,
    owner_read: Option<Seen>,
) -> Match
    requires small { number_read rules_read < 2 ^ 32 }
    ensures { result ≡ match_of skip call.now.sock_uid call.now.dir call.now.iface (number_read rules_read) (word_rule (number_read owner_read)) (word_iface (number_read owner_read)) }
{
    let entry = OwnerEntry::of(number_read(owner_read));
    let enabled = number_read(rules_read) as u32;
    owner_match(
        skip,
        call.sock_uid,
        call.dir,
        call.iface,
        enabled,
        entry.rule,
        entry.iface,
    )
}

/// The verdict, and the uid that is counted. The clat daemon's packets pass, whatever they match.
pub fn settle_read(clat: bool, matched: Match, sock_uid: Uid, entry: TagEntry) -> Settled
    ensures { result ≡ (if clat then record { uid = entry.uid; verdict = verdict.Pass } else settled_by matched sock_uid entry.uid entry.tag) }
{
    if clat {
        return Settled {
            uid: entry.uid,
            verdict: Verdict::Pass,
        };
    }
    settle(matched, sock_uid, entry.uid, entry.tag)
}
