ghost use Rattle.std.specs.Prelude.{◌≡◌, IfOk};
ghost use Rattle.shelf.specs.Shown.{shown};
ghost use Rattle.dump_text.specs.Room.{IsRoomOf, SumsFit};

use crate::buffer::LineBuffer;
use crate::counts::report_counts;
use acct_base::RowList;
use shelf::{CallCounts, Report};
use std::alloc::{AllocError, Global};
use std::marker::Model;

/// All that a dump of a report takes memory for, or may fail to count: a buffer of 4,096 bytes, the rows of
/// the total, and the counts of the dump's second line.
#[derive(Debug, Drop)]
pub struct DumpRoom {
    pub(crate) buffer: LineBuffer,
    pub(crate) rows: RowList,
    pub(crate) counts: CallCounts,
}

impl Model for DumpRoom {
    ghost use Rattle.dump_text.specs.Room.{Room};

    ghost Value = { Room };

    ghost view = { λ r. record { rows = r.rows; counts = r.counts } };
}

impl DumpRoom {
    /// The room for the dump of a report. For no label may the sum of the report's rows pass its word.
    pub fn new(alloc: Global, report: &Report) -> Result<DumpRoom, AllocError>
        requires sums { SumsFit (shown report.now) }
        ensures { IfOk result (IsRoomOf (shown report.now)) }
    {
        let counts = report_counts(report)?;
        let rows = report.shelf.merged(alloc, &report.live)?;
        let buffer = LineBuffer::new(alloc)?;
        Ok(DumpRoom {
            buffer,
            rows,
            counts,
        })
    }
}
