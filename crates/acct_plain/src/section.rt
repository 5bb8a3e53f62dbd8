//! Sections: their lanes one after another and then their desk; and the report at the end.

ghost use Rattle.std.specs.Prelude.{◌≡◌, ℕ, ◌+◌, ◌*◌, ◌≤◌, ◌<◌, Some, length, slice_get, IfOk, OnOk};
ghost use Rattle.acct_base.specs.Ranges.{IsCallInRange};
ghost use Rattle.shelf.specs.Shown.{shown};
ghost use Rattle.captures.specs.Calls.{IsSectionInRange};
ghost use Rattle.captures.specs.Lent.{call_of, numbered_call, desk_of, section_calls};
ghost use Rattle.captures.specs.Runs.{Past};
ghost use Rattle.acct_plain.specs.Walks.{LaneFits, LanesFit, DeskFits, calls_made, collecting};

use crate::plain::Plain;
use crate::rows::totals_of;
use acct_base::{LineReceipt, NameList, Snapshot};
use captures::{CallLaneList, CallList, Calls, LineCall};
use desk_core::Command;
use script_text::DeskLineList;
use shelf::{LaneList, ReceiptList, RecentFinds, ReplyList, Report, SectionList, SectionOut};
use std::alloc::{AllocError, Global};

impl Plain {
    ghost use Rattle.acct_plain.specs.Kept.{Keeps, HasRoomFor};
    ghost use Rattle.acct_plain.specs.Serial.{serial_line, after_call, told};
    ghost use Rattle.acct_plain.specs.Walks.{IsLaneWalked, AreLanesWalked, IsDeskWalked, IsSectionWalked};

    // Makes the call of a line.
    fn line(&mut self, call: &LineCall<'_>) -> Result<LineReceipt, AllocError>
        requires range { IsCallInRange (call_of call.now) }
        requires room { HasRoomFor self.old 3 }
        ensures keeps { (past : Past) (n : ℕ) → Keeps self.old past n → IfOk result (λ r.
            (r ≡ serial_line self.old.sizes past (call_of call.now)) × Keeps self.new (after_call past (call_of call.now) r) (n + 3)) }
        ensures sizes { self.new.sizes ≡ self.old.sizes }
        ensures book { self.new.book ≡ self.old.book }
        ensures phases { self.new.phases ≡ self.old.phases }
    {
        match call {
            LineCall::Hook(call) => {
                let receipt = self.hook(call)?;
                Ok(LineReceipt::Hook(receipt))
            }
            LineCall::Iface(call) => {
                let receipt = self.iface(call)?;
                Ok(LineReceipt::Iface(receipt))
            }
            LineCall::Allow {
                sock_uid,
                cookie,
                received,
            } => Ok(LineReceipt::List(self.allow(*sock_uid, *cookie, *received))),
            LineCall::Deny { sock_uid } => Ok(LineReceipt::List(self.deny(*sock_uid))),
        }
    }

    // Makes the calls of a lane, in order. After want of memory they may be done in part.
    fn lane(
        &mut self,
        alloc: Global,
        calls: &CallList<'_>,
        recent: &mut RecentFinds,
    ) -> Result<ReceiptList, AllocError>
        requires fits { LaneFits calls.now }
        requires room { HasRoomFor self.old (3 * length calls.now) }
        ensures walked { IfOk result (λ out. IsLaneWalked self.old self.new calls.now out) }
        ensures sizes { self.new.sizes ≡ self.old.sizes }
        ensures book { self.new.book ≡ self.old.book }
        ensures phases { self.new.phases ≡ self.old.phases }
    {
        let mut receipts = ReceiptList::new(alloc);
        for place in 0..calls.len() {
            let (number, call) = call_at(calls, place);
            let receipt = self.line(&call)?;
            receipts.push((number, receipt), recent)?;
        }
        Ok(receipts)
    }

    // Makes the calls of lanes, one lane after another. After want of memory they may be done in part.
    fn lanes(&mut self, alloc: Global, lanes: &CallLaneList<'_>) -> Result<LaneList, AllocError>
        requires fits { LanesFit lanes.now }
        requires room { HasRoomFor self.old (3 * calls_made lanes.now) }
        ensures walked { IfOk result (λ out. AreLanesWalked self.old self.new lanes.now out) }
        ensures sizes { self.new.sizes ≡ self.old.sizes }
        ensures book { self.new.book ≡ self.old.book }
        ensures phases { self.new.phases ≡ self.old.phases }
    {
        let mut out = LaneList::new(alloc);
        let mut recent = RecentFinds::new();
        for place in 0..lanes.len() {
            let calls = lane_at(lanes, place);
            let receipts = self.lane(alloc, &calls, &mut recent)?;
            out.push(receipts)?;
        }
        Ok(out)
    }

    // Runs the commands of a desk, in order. After want of memory they may be done in part.
    fn desk(&mut self, alloc: Global, lines: &[(u64, Command)]) -> Result<ReplyList, AllocError>
        requires fits { DeskFits lines.now }
        requires room { HasRoomFor self.old 0 }
        requires phases { length self.old.phases + length (collecting lines.now) ≤ 1024 }
        ensures walked { IfOk result (λ out. IsDeskWalked self.old self.new lines.now out) }
        ensures grown { OnOk result (length self.new.phases ≤ length self.old.phases + length (collecting lines.now)) }
        ensures sizes { self.new.sizes ≡ self.old.sizes }
        ensures privileged { self.new.book.privileged ≡ self.old.book.privileged }
    {
        let mut replies = ReplyList::new(alloc);
        for (number, command) in lines {
            let reply = self.command(alloc, command)?;
            replies.push((*number, reply))?;
        }
        Ok(replies)
    }

    // Runs the desk of a section, where there is one.
    fn replies(
        &mut self,
        alloc: Global,
        desk: Option<&DeskLineList>,
    ) -> Result<ReplyList, AllocError>
        requires fits { DeskFits (desk_of desk) }
        requires room { HasRoomFor self.old 0 }
        requires phases { length self.old.phases + length (collecting (desk_of desk)) ≤ 1024 }
        ensures walked { IfOk result (λ out. IsDeskWalked self.old self.new (desk_of desk.entry) out) }
        ensures grown { OnOk result (length self.new.phases ≤ length self.old.phases + length (collecting (desk_of desk.entry))) }
        ensures sizes { self.new.sizes ≡ self.old.sizes }
        ensures privileged { self.new.book.privileged ≡ self.old.book.privileged }
    {
        match desk {
            None => Ok(ReplyList::new(alloc)),
            Some(lines) => self.desk(alloc, lines.as_slice()),
        }
    }

    /// Runs a section: its lanes, one after another, and then its desk. After want of memory it may be done
    /// in part, and is to be dropped.
    pub fn section(&mut self, alloc: Global, calls: &Calls<'_>) -> Result<SectionOut, AllocError>
        requires range { IsSectionInRange (section_calls calls.now) }
        requires room { HasRoomFor self.old (3 * calls_made (section_calls calls.now).lanes) }
        requires phases { length self.old.phases + length (collecting (section_calls calls.now).desk) ≤ 1024 }
        ensures walked { IfOk result (λ out. IsSectionWalked self.old self.new (section_calls calls.now) out) }
        ensures grown { OnOk result (length self.new.phases ≤ length self.old.phases + length (collecting (section_calls calls.now).desk)) }
        ensures sizes { self.new.sizes ≡ self.old.sizes }
        ensures privileged { self.new.book.privileged ≡ self.old.book.privileged }
    {
        let lanes = self.lanes(alloc, &calls.lanes)?;
        let replies = self.replies(alloc, calls.desk)?;
        Ok(SectionOut { lanes, replies })
    }

    /// The report of the replay.
    pub fn finish(
        self,
        alloc: Global,
        names: NameList,
        sections: SectionList,
    ) -> Result<Report, AllocError>
        requires { HasRoomFor self 0 }
        ensures { (past : Past) (n : ℕ) → Keeps self past n → IfOk result (λ r. shown r ≡ told names sections past) }
    {
        let phase = self.shelf.len();
        let rows = self.rows.rows(alloc)?;
        let apps = totals_of(alloc, &self.apps)?;
        let ifaces = totals_of(alloc, &self.ifaces)?;
        Ok(Report {
            names,
            sections,
            journal: self.book.into_journal(),
            shelf: self.shelf,
            live: Snapshot { phase, rows },
            apps,
            ifaces,
        })
    }
}

// The call at a place of a lane.
fn call_at<'a>(calls: &CallList<'a>, place: usize) -> (u64, LineCall<'a>)
    requires { place < length calls.now }
    ensures { slice_get calls.now place ≡ Some (numbered_call result) }
{
    calls.get(place).unwrap()
}

// The lane at a place.
fn lane_at<'a>(lanes: &'a CallLaneList<'_>, place: usize) -> CallList<'a>
    requires { place < length lanes.now }
    ensures { slice_get lanes.now place ≡ Some result }
{
    lanes.get(place).unwrap()
}
