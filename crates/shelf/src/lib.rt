//! What a replay gives: receipts, replies, snapshots with their deletions, and the report of it all.
//!
//! A reader starts in `specs/`: `Phases` says what the rows of a phase have to be, `Shown` what readers see
//! of a report. Receipts stand side by side in few bytes each (`Kept`); contracts see them as plain lists.
#![tactic(auto)]

mod counts;
mod kept;
mod merge;
mod receipts;
mod recent;
mod report;
mod room;
mod roomy;
mod shelf;
mod sum;

pub use counts::CallCounts;
pub use receipts::ReceiptList;
pub use recent::RecentFinds;
pub use report::{LaneList, ReplyList, Report, SectionList, SectionOut};
pub use room::ReceiptRoom;
pub use shelf::{Deletion, Shelf};

#[cfg(test)]
mod tests;
