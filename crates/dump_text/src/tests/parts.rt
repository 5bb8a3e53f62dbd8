//! Reports, built by hand from their parts.

use acct_base::{
    Amount, ByteList, Iface, Label, LineReceipt, List, NameList, Row, RowList, Snapshot, Tag,
    TotalList, Uid, Write,
};
use desk_core::Reply;
use shelf::{Deletion, LaneList, ReceiptList, RecentFinds, Report, SectionList, SectionOut, Shelf};
use std::alloc::{AllocError, Global};

/// Packets and bytes received, packets and bytes sent.
pub type AmountParts = (u64, u64, u64, u64);

/// A row's label, from the uid on, and its amount.
pub type RowParts = ((Uid, Tag, u8, Iface), AmountParts);

/// What a deletion took out and recorded.
#[derive(Clone, Copy)]
pub struct DeletionParts {
    pub uid: Uid,
    pub tag: Tag,
    pub rows: &'static [RowParts],
    pub app: Option<AmountParts>,
}

/// The rows that a phase left, and what was deleted of it.
#[derive(Clone, Copy)]
pub struct PhaseParts {
    pub rows: &'static [RowParts],
    pub deletion: Option<DeletionParts>,
}

/// The receipts of a section's lanes, and its replies.
#[derive(Clone, Copy)]
pub struct SectionParts {
    pub lanes: &'static [&'static [(u64, LineReceipt)]],
    pub replies: &'static [(u64, Reply)],
}

/// All that a report is made of. The phases are counted from 0, and the live one is the next.
#[derive(Clone, Copy)]
pub struct Parts {
    pub names: &'static [(Iface, &'static str)],
    pub sections: &'static [SectionParts],
    pub journal: &'static [Write],
    pub phases: &'static [PhaseParts],
    pub live: &'static [RowParts],
    pub apps: &'static [(u32, AmountParts)],
    pub ifaces: &'static [(u32, AmountParts)],
}

fn amount_of(parts: AmountParts) -> Amount {
    let (rx_packets, rx_bytes, tx_packets, tx_bytes) = parts;
    Amount {
        rx_packets,
        rx_bytes,
        tx_packets,
        tx_bytes,
    }
}

fn row_of(parts: RowParts) -> Row {
    let ((uid, tag, set, iface), amount) = parts;
    Row {
        label: Label {
            uid,
            tag,
            set,
            iface,
        },
        amount: amount_of(amount),
    }
}

fn rows_of(alloc: Global, parts: &[RowParts]) -> Result<RowList, AllocError> {
    let mut rows = List::new(alloc);
    for row in parts {
        rows.push(row_of(*row))?;
    }
    Ok(rows)
}

fn totals_of(alloc: Global, parts: &[(u32, AmountParts)]) -> Result<TotalList, AllocError> {
    let mut totals = List::new(alloc);
    for total in parts {
        totals.push((total.0, amount_of(total.1)))?;
    }
    Ok(totals)
}

fn bytes_of(alloc: Global, text: &str) -> Result<ByteList, AllocError> {
    Ok(List::from_vec(Vec::from_slice(alloc, text.as_bytes())?))
}

fn names_of(alloc: Global, parts: &[(Iface, &str)]) -> Result<NameList, AllocError> {
    let mut names = List::new(alloc);
    for (iface, name) in parts {
        names.push((*iface, bytes_of(alloc, name)?))?;
    }
    Ok(names)
}

fn lane_of(alloc: Global, parts: &[(u64, LineReceipt)]) -> Result<ReceiptList, AllocError> {
    let mut recent = RecentFinds::new();
    let mut lane = ReceiptList::new(alloc);
    for receipt in parts {
        lane.push(*receipt, &mut recent)?;
    }
    Ok(lane)
}

fn lanes_of(alloc: Global, parts: &[&[(u64, LineReceipt)]]) -> Result<LaneList, AllocError> {
    let mut lanes = List::new(alloc);
    for lane in parts {
        lanes.push(lane_of(alloc, lane)?)?;
    }
    Ok(lanes)
}

fn section_of(alloc: Global, parts: &SectionParts) -> Result<SectionOut, AllocError> {
    Ok(SectionOut {
        lanes: lanes_of(alloc, parts.lanes)?,
        replies: List::from_vec(Vec::from_slice(alloc, parts.replies)?),
    })
}

fn sections_of(alloc: Global, parts: &[SectionParts]) -> Result<SectionList, AllocError> {
    let mut sections = List::new(alloc);
    for section in parts {
        sections.push(section_of(alloc, section)?)?;
    }
    Ok(sections)
}

fn deletion_of(
    alloc: Global,
    phase: u32,
    parts: Option<DeletionParts>,
) -> Result<Option<Deletion>, AllocError> {
    match parts {
        None => Ok(None),
        Some(parts) => Ok(Some(Deletion {
            phase,
            uid: parts.uid,
            tag: parts.tag,
            rows: rows_of(alloc, parts.rows)?,
            app: parts.app.map(amount_of),
        })),
    }
}

fn snapshot_of(alloc: Global, phase: u32, rows: &[RowParts]) -> Result<Snapshot, AllocError> {
    Ok(Snapshot {
        phase,
        rows: rows_of(alloc, rows)?,
    })
}

// Puts a phase behind those that ended.
fn put(alloc: Global, shelf: &mut Shelf, parts: &PhaseParts) -> Result<(), AllocError> {
    let phase = shelf.len();
    let snapshot = snapshot_of(alloc, phase, parts.rows)?;
    let deletion = deletion_of(alloc, phase, parts.deletion)?;
    shelf.reserve()?;
    // No test has so many phases.
    if shelf.len() < u32::MAX {
        shelf.put(snapshot, deletion);
    }
    Ok(())
}

fn shelf_of(alloc: Global, parts: &[PhaseParts]) -> Result<Shelf, AllocError> {
    let mut shelf = Shelf::new(alloc);
    for phase in parts {
        put(alloc, &mut shelf, phase)?;
    }
    Ok(shelf)
}

/// The report that is made of these parts.
pub fn report_of(alloc: Global, parts: &Parts) -> Result<Report, AllocError> {
    let shelf = shelf_of(alloc, parts.phases)?;
    let live = snapshot_of(alloc, shelf.len(), parts.live)?;
    Ok(Report {
        names: names_of(alloc, parts.names)?,
        sections: sections_of(alloc, parts.sections)?,
        journal: List::from_vec(Vec::from_slice(alloc, parts.journal)?),
        shelf,
        live,
        apps: totals_of(alloc, parts.apps)?,
        ifaces: totals_of(alloc, parts.ifaces)?,
    })
}
