ghost use Rattle.std.specs.Prelude.{◌≡◌, ℕ, ◌+◌, ◌<◌, ◌^◌, [], ◌∷◌, ◌++◌, map, length, nat_le, not, IfSome, IfOk, OnOk, OnErr};
ghost use Rattle.std.specs.List.Sorted.{IsStrictlyIncreasing};
ghost use Rattle.acct_base.specs.declared.register.Write.{Write};
ghost use Rattle.acct_base.specs.declared.register.Key.TheVariants.{Cookie};
ghost use Rattle.desk_core.specs.Ranges.{AreApps};
ghost use Rattle.acct_base.specs.Registers.{IsValueOf};
ghost use Rattle.desk_core.specs.Registers.{seen_now, unseen};
ghost use Rattle.desk_core.specs.Commands.{spends_keys, cookies_tagged, unlisted, clear, take_bit, replacement};

use crate::command::Decision;
use crate::register::Latest;
use acct_base::{Key, List, RegSizes, Seen, Tag, Uid, Write, WriteList};
use std::alloc::{AllocError, Global};
use std::marker::Model;

/// The journal of all writes, the privileged apps, and the limits.
///
/// Maps of the last writes stand beside the journal, so that no command walks along it.
#[derive(Debug, Drop)]
pub struct Book {
    privileged: Vec<u32>,
    limits: RegSizes,
    journal: Vec<Write>,
    latest: Latest,
}

impl Model for Book {
    ghost use Rattle.desk_core.specs.Book.{BookView, IsKept};

    ghost Value = { BookView };

    ghost view = { λ b. record { journal = b.journal.items; privileged = b.privileged.items; limits = b.limits } };

    ghost invariant = { λ b. IsKept b.journal.items b.limits b.latest };
}

impl Book {
    ghost use Rattle.desk_core.specs.Book.{IsDecisionOf};
    ghost use Rattle.acct_base.specs.Registers.{KeepsLimits, IsWellFormed};
    ghost use Rattle.std.specs.List.{AllByRecursion};

    /// A book without writes, with these limits on the distinct keys of each map and on writes. Besides root
    /// and the system the apps of these ids are privileged: they ascend, and are below 100,000.
    pub fn new(alloc: Global, privileged: &[u32], sizes: &RegSizes) -> Result<Book, AllocError>
        requires { AreApps privileged.now }
        ensures { IfOk result (λ b. b ≡ record { journal = []; privileged = privileged.now; limits = sizes.now }) }
    {
        Ok(Book {
            privileged: Vec::from_slice(alloc, privileged)?,
            limits: *sizes,
            journal: Vec::new(alloc),
            latest: Latest::new(alloc),
        })
    }

    /// What a read of a key sees, by one who knows all writes: the number of the key's last write, or 0, and
    /// that write's value.
    pub fn read(&self, key: Key) -> Seen
        ensures seen { result ≡ seen_now self.now.journal key }
        ensures value { IfSome result.value (IsValueOf key) }
        ensures no_socket { key ≡ Cookie 0 → result ≡ unseen }
    {
        self.latest.read(key)
    }

    /// How many writes there are.
    pub fn made(&self) -> u32
        ensures { result ≡ length self.now.journal }
    {
        // The journal is no longer than its limit, which is a u32.
        let _limit = self.limits.writes;
        self.journal.len() as u32
    }

    /// All writes, in order.
    pub fn into_journal(self) -> WriteList
        ensures { result ≡ self.journal }
    {
        List::from_vec(self.journal)
    }

    /// Appends the writes of a decision of this book. Where memory is wanting the book stays as it was.
    pub fn take(&mut self, decision: &Decision) -> Result<(), AllocError>
        requires { IsDecisionOf self.old decision.now }
        ensures ok { OnOk result (self.new ≡ record self.old { journal = self.old.journal ++ decision.now.writes }) }
        ensures err { OnErr result (self.new ≡ self.old) }
        // Registers with the book's limits have room for its journal, and take each of its writes.
        ensures within { KeepsLimits self.new.limits self.new.journal }
        ensures formed { AllByRecursion IsWellFormed self.new.journal }
    {
        let writes = decision.writes.as_slice();
        self.latest.make_rooms(writes)?;
        let made = self.journal.len() as u32;
        self.journal.extend_from_slice(writes)?;
        self.latest.follow(made, writes);
        Ok(())
    }

    /// The app ids that are privileged besides root and the system.
    pub(crate) fn privileged_apps(&self) -> &[u32]
        ensures { result.now ≡ self.now.privileged }
    {
        self.privileged.as_slice()
    }

    /// Whether the journal has room for so many writes more.
    pub(crate) fn has_room_for(&self, writes: usize) -> bool
        ensures value { result ≡ nat_le (length self.now.journal + writes) self.now.limits.writes }
        ensures within { KeepsLimits self.now.limits self.now.journal }
    {
        writes <= self.limits.writes as usize - self.journal.len()
    }

    /// Whether a write of the key would write one key too many.
    pub(crate) fn is_spent(&self, key: Key) -> bool
        ensures { (w : Write) → w.key ≡ key → result ≡ spends_keys self.now.journal self.now.limits (w ∷ []) }
    {
        self.latest.is_spent(key, &self.limits)
    }

    /// Whether there is room for rules of these uids, which ascend.
    pub(crate) fn has_room_for_owners(&self, uids: &[Uid]) -> bool
        requires { IsStrictlyIncreasing uids.now }
        ensures value { (bit : ℕ) → result ≡ not (spends_keys self.now.journal self.now.limits (replacement self.now.journal bit uids.now)) }
        ensures within { KeepsLimits self.now.limits self.now.journal }
    {
        let room = self.limits.owners - self.latest.owners.written;
        self.latest.new_owners(uids) <= room as usize
    }

    /// How many cookies' entries have the uid, and the tag where that is not 0.
    pub(crate) fn count_tagged(&self, uid: Uid, tag: Tag) -> usize
        ensures value { result ≡ length (cookies_tagged self.now.journal uid tag) }
        ensures small { result < 2 ^ 63 }
    {
        self.latest.count_tagged(uid, tag)
    }

    /// Adds the writes that take those entries out, ascending by cookie.
    pub(crate) fn clear_tagged(
        &self,
        writes: &mut WriteList,
        uid: Uid,
        tag: Tag,
    ) -> Result<(), AllocError>
        ensures { OnOk result (writes.new ≡ writes.old ++ map (λ c. clear (Cookie c)) (cookies_tagged self.now.journal uid tag)) }
    {
        self.latest.clear_tagged(writes, uid, tag)
    }

    /// How many uids have the bit and are not listed. The list ascends.
    pub(crate) fn count_unlisted(&self, bit: u32, uids: &[Uid]) -> usize
        requires { IsStrictlyIncreasing uids.now }
        ensures value { result ≡ length (unlisted self.now.journal bit uids.now) }
        ensures small { result < 2 ^ 63 }
    {
        self.latest.count_unlisted(bit, uids)
    }

    /// Adds the writes that take the bit from those uids, ascending.
    pub(crate) fn take_unlisted(
        &self,
        writes: &mut WriteList,
        bit: u32,
        uids: &[Uid],
    ) -> Result<(), AllocError>
        requires { IsStrictlyIncreasing uids.now }
        ensures { OnOk result (writes.new ≡ writes.old ++ map (take_bit self.now.journal bit) (unlisted self.now.journal bit uids.now)) }
    {
        self.latest.take_unlisted(writes, bit, uids)
    }
}
