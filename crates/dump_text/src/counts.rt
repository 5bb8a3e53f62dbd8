//! The counts of a dump's second line.

ghost use Rattle.std.specs.Prelude.{◌≡◌, ◌++◌, IfOk, OnErr};
ghost use Rattle.std.specs.List.{flat_map};
ghost use Rattle.shelf.specs.Counted.{counts_of, counts_together, CountsFit, AreTooMany};
ghost use Rattle.dump_text.specs.Dump.{receipts_of, section_receipts};

use shelf::{CallCounts, Report, SectionOut};
use std::alloc::AllocError;

// Both together, where each sum fits in its word.
fn together(a: CallCounts, b: CallCounts) -> Result<CallCounts, AllocError>
    ensures sum { IfOk result (λ c. c ≡ counts_together a b) }
    ensures fails { OnErr result (CountsFit (counts_together a b) → ⊥) }
{
    a.checked_add(b).ok_or(AllocError)
}

fn section_counts(section: &SectionOut) -> Result<CallCounts, AllocError>
    ensures sum { IfOk result (λ c. c ≡ counts_of (section_receipts section.now)) }
    ensures fails { OnErr result (AreTooMany (section_receipts section.now)) }
{
    let mut sum = CallCounts::none();
    for lane in section.lanes.as_slice() {
        sum = together(sum, lane.counts())?;
    }
    Ok(sum)
}

/// The counts of all receipts of a report. It fails only where they are more than 2^62, for which memory has long run
/// out.
pub fn report_counts(report: &Report) -> Result<CallCounts, AllocError>
    ensures sum { IfOk result (λ c. c ≡ counts_of (receipts_of report.now.sections)) }
    ensures fails { OnErr result (AreTooMany (receipts_of report.now.sections)) }
{
    let mut sum = CallCounts::none();
    for section in report.sections.as_slice() {
        sum = together(sum, section_counts(section)?)?;
    }
    Ok(sum)
}
