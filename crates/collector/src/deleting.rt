//! The deletion of what was counted for a uid, which the controller's command asks for.

ghost use Rattle.std.specs.Prelude.{◌≡◌, ◌<◌, true, IfOk, IfErr, OnErr};
ghost use Rattle.desk_core.specs.declared.command.Command.TheVariants.{Delete};
ghost use Rattle.desk_core.specs.Commands.{is_done, reply as reply_of};
ghost use Rattle.desk_regs.specs.Desks.{IsLevel as IsLevelDesk, with_journal};
ghost use Rattle.collector.specs.Collectors.{IsLevel, HasSameSeats, gathered_by};
ghost use Rattle.collector.specs.Collections.{IsDeletionCause, Deleted};

use crate::collector::{CollectError, Collector};
use crate::ready::Ready;
use crate::waiting::wait_until_clear;
use acct_base::{Tag, Uid};
use desk_core::{Command, Reply};
use desk_regs::Desk;
use grace_rows::Paired;
use reg_words::Regs;
use std::alloc::Global;
use std::sync::Wait;
use total_rows::Totals;

/// Carries the deletion command out: takes the uid's entries out of the registers, those of the tag alone where
/// that is not 0, and collects, with the uid's rows as a deletion. It may wait, and its return is not promised.
///
/// Refusals come in this order: `Perm`, `JournalFull`, `PhasesSpent`, `Memory`. Where one comes, the collector
/// and the desk are as they were.
pub fn delete_tag_data<R: Wait>(
    rt: &R,
    alloc: Global,
    collector: Collector,
    desk: &mut Desk,
    regs: &Regs,
    paired: &Paired,
    apps: &Totals,
    caller: Uid,
    uid: Uid,
    tag: Tag,
) -> (Collector, Result<Reply, CollectError>)
    requires from { (collector.seat.table ≡ paired.now.table) × (collector.apps.table ≡ apps.now.table) × (desk.old.writer.origin ≡ regs.now) }
    requires uids { (caller < 4294967295) × (uid < 4294967295) }
    requires level { IsLevel (gathered_by collector) × IsLevelDesk desk.old }
    ensures ok { IfOk result.1 (λ answer. Deleted desk.old.book.privileged desk.old.book.limits desk.old.book.journal (gathered_by collector) caller uid tag answer desk.new.book.journal (gathered_by result.0)) }
    ensures early { IfOk result.1 (λ answer. is_done answer ≡ true → collector.seat.phase < 1024) }
    ensures handed_back { OnErr result.1 ((result.0 ≡ collector) × (desk.new ≡ desk.old)) }
    ensures cause { IfErr result.1 (IsDeletionCause collector.seat.phase (reply_of desk.old.book.journal desk.old.book.privileged desk.old.book.limits (Delete caller uid tag))) }
    ensures level { IsLevel (gathered_by result.0) × IsLevelDesk desk.new }
    ensures seats { HasSameSeats collector result.0 }
    ensures rest { desk.new ≡ with_journal desk.new.book.journal desk.old }
{
    let command = Command::Delete { caller, uid, tag };
    let Ok(decision) = desk.book().decide(alloc, &command) else {
        return (collector, Err(CollectError::Memory));
    };
    if decision.reply != Reply::Done {
        return (collector, Ok(decision.reply));
    }
    let ready = match Ready::prepare(collector, alloc, paired) {
        Ok(ready) => ready,
        Err((collector, error)) => return (collector, Err(error)),
    };
    if desk.enact(regs, &decision).is_err() {
        return (ready.give_up(), Err(CollectError::Memory));
    }
    let clear = wait_until_clear(rt, ready.flip(paired), paired);
    let collector = clear.finish(paired, apps, Some((uid, tag)));
    (collector, Ok(Reply::Done))
}
