//! The commands of a replay, and the phases that they end.

ghost use Rattle.std.specs.Prelude.{◌≡◌, ℕ, ◌+◌, ◌≤◌, ◌&&◌, ◌++◌, Some, true, length, IfOk, OnOk, OnErr};
ghost use Rattle.std.specs.Ordering.{nat_cmp};
ghost use Rattle.acct_base.specs.Sums.{added};
ghost use Rattle.desk_core.specs.Book.{IsDecisionOf};
ghost use Rattle.desk_core.specs.Commands.{collects, is_done, reply};
ghost use Rattle.desk_core.specs.Ranges.{IsInRange};
ghost use Rattle.shelf.specs.Phases.{deleted_app};
ghost use Rattle.captures.specs.Runs.{Past};
ghost use Rattle.acct_plain.specs.Ledgers.{amount_of, Sets};
ghost use Rattle.acct_plain.specs.Ending.{deletion_of, recorded_after};

use crate::ledger::Ledger;
use crate::plain::Plain;
use crate::rows::{divide, less};
use acct_base::{Amount, Snapshot, Tag, Uid};
use desk_core::{Book, Command, Decision, Reply};
use shelf::Deletion;
use std::alloc::{AllocError, Global};

impl Plain {
    ghost use Rattle.acct_plain.specs.Serial.{less, app_now, after_desk_line};
    ghost use Rattle.acct_plain.specs.Kept.{Keeps, HasRoomFor};
    ghost use Rattle.acct_plain.specs.Ending.{ended_by, IsEnded};

    /// A command of the controller. Where memory is wanting all stays as it was.
    pub fn command(&mut self, alloc: Global, command: &Command) -> Result<Reply, AllocError>
        requires range { IsInRange command.now }
        requires room { HasRoomFor self.old 0 }
        requires phases { collects command.now ≡ true → length self.old.phases + 1 ≤ 1024 }
        ensures keeps { (past : Past) (n : ℕ) → Keeps self.old past n → IfOk result (λ r.
            (r ≡ reply past.journal self.old.book.privileged self.old.sizes.regs command.now)
            × Keeps self.new (after_desk_line self.old.book.privileged self.old.sizes past command.now) n) }
        ensures err { OnErr result (self.new ≡ self.old) }
        ensures sizes { self.new.sizes ≡ self.old.sizes }
        ensures privileged { self.new.book.privileged ≡ self.old.book.privileged }
    {
        let decision = self.book.decide(alloc, command)?;
        if ends_phase(command, decision.reply) {
            self.end_phase(alloc, deletion_of(command), &decision)?;
            return Ok(decision.reply);
        }
        self.book.take(&decision)?;
        Ok(decision.reply)
    }

    // Ends the live phase, with what its command deletes, and writes what was decided. All memory is taken
    // before anything changes.
    fn end_phase(
        &mut self,
        alloc: Global,
        drop: Option<(Uid, Tag)>,
        decision: &Decision,
    ) -> Result<(), AllocError>
        requires room { HasRoomFor self.old 0 }
        requires own { IsDecisionOf self.old.book decision.now }
        ensures ok { OnOk result (IsEnded self.old self.new drop decision.now.writes) }
        ensures err { OnErr result (self.new ≡ self.old) }
    {
        let (snapshot, deletion) = self.ended(alloc, drop)?;
        self.shelf.reserve()?;
        write(
            &mut self.book,
            &mut self.recorded,
            &self.apps,
            drop,
            decision,
        )?;
        self.shelf.put(snapshot, deletion);
        self.rows = Ledger::new(alloc);
        Ok(())
    }

    // The live phase as a collection finds it, divided by what it deletes.
    fn ended(
        &self,
        alloc: Global,
        drop: Option<(Uid, Tag)>,
    ) -> Result<(Snapshot, Option<Deletion>), AllocError>
        requires { HasRoomFor self.now 0 }
        ensures { (past : Past) (n : ℕ) → Keeps self.now past n → IfOk result (λ p. p ≡ ended_by past drop) }
    {
        let phase = self.shelf.len();
        let rows = self.rows.rows(alloc)?;
        match drop {
            None => Ok((Snapshot { phase, rows }, None)),
            Some((uid, tag)) => {
                let (left, taken) = divide(alloc, rows.as_slice(), uid, tag)?;
                let app = self.app_now(uid, tag);
                let deletion = Deletion {
                    phase,
                    uid,
                    tag,
                    rows: taken,
                    app,
                };
                Ok((Snapshot { phase, rows: left }, Some(deletion)))
            }
        }
    }

    // What a deletion of the uid records of its app, where it is without a tag.
    fn app_now(&self, uid: Uid, tag: Tag) -> Option<Amount>
        requires { HasRoomFor self.now 0 }
        ensures { (past : Past) (n : ℕ) → Keeps self.now past n → result ≡ app_now past uid tag }
    {
        if tag == 0 {
            Some(self.app_since(uid))
        } else {
            None
        }
    }

    // What the uid's app came to, less what its deletions before recorded.
    fn app_since(&self, uid: Uid) -> Amount
        requires { HasRoomFor self.now 0 }
        ensures { (past : Past) (n : ℕ) → Keeps self.now past n → result ≡ less (added past.apps uid) (deleted_app past.phases uid) }
    {
        let total = self.apps.get(uid);
        let before = self.recorded.get(uid);
        less(total, before)
    }
}

// Writes what was decided, and notes what a deletion records: all that its uid's app had.
fn write(
    book: &mut Book,
    recorded: &mut Ledger<Uid>,
    apps: &Ledger<Uid>,
    drop: Option<(Uid, Tag)>,
    decision: &Decision,
) -> Result<(), AllocError>
    requires { IsDecisionOf book.old decision.now }
    ensures ok { OnOk result (book.new ≡ record book.old { journal = book.old.journal ++ decision.now.writes }) }
    ensures recorded { OnOk result ((uid : ℕ) → amount_of nat_cmp recorded.new uid ≡ recorded_after apps.now recorded.old drop uid) }
    ensures err { OnErr result ((book.new ≡ book.old) × (recorded.new ≡ recorded.old)) }
{
    match drop {
        Some((uid, 0)) => write_noting(book, recorded, uid, apps.get(uid), decision),
        _ => book.take(decision),
    }
}

// The same, where the deletion has no tag.
fn write_noting(
    book: &mut Book,
    recorded: &mut Ledger<Uid>,
    uid: Uid,
    total: Amount,
    decision: &Decision,
) -> Result<(), AllocError>
    requires { IsDecisionOf book.old decision.now }
    ensures ok { OnOk result (book.new ≡ record book.old { journal = book.old.journal ++ decision.now.writes }) }
    ensures recorded { OnOk result (Sets nat_cmp recorded.old recorded.new uid (Some total)) }
    ensures err { OnErr result ((book.new ≡ book.old) × (recorded.new ≡ recorded.old)) }
{
    let before = recorded.put(uid, total)?;
    match book.take(decision) {
        Ok(()) => Ok(()),
        Err(failed) => {
            recorded.set(uid, before);
            Err(failed)
        }
    }
}

// A collecting command that is done ends the live phase.
fn ends_phase(command: &Command, reply: Reply) -> bool
    ensures { result ≡ (collects command.now && is_done reply) }
{
    command.collects() && reply == Reply::Done
}

// The uid and the tag that a command deletes.
fn deletion_of(command: &Command) -> Option<(Uid, Tag)>
    ensures { result ≡ deletion_of command.now }
{
    match command {
        Command::Delete { uid, tag, .. } => Some((*uid, *tag)),
        Command::Tag { .. }
        | Command::Untag { .. }
        | Command::Set { .. }
        | Command::Add { .. }
        | Command::Remove { .. }
        | Command::Toggle { .. }
        | Command::Firewall { .. }
        | Command::Replace { .. }
        | Command::Collect => None,
    }
}
