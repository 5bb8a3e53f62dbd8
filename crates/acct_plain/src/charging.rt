//! The charges of one packet to the rows of its phase.

ghost use Rattle.std.specs.Prelude.{◌≡◌, ◌==◌, false, IfOk, OnErr};
ghost use Rattle.acct_plain.specs.Charging.{AddsPacket, HasRoomTwice};

use crate::ledger::Ledger;
use acct_base::{Amount, Label, Mark};
use std::alloc::AllocError;

/// How a packet's charges to rows fared: to its label where that has a tag, and to the label without the tag.
#[derive(Clone, Copy, Debug)]
pub struct RowMarks {
    pub tag: Option<Mark>,
    pub plain: Mark,
}

impl Ledger<Label> {
    /// Charges a packet to its label, where that has a tag, and to the label without the tag. Where memory is
    /// wanting the rows stay as they were.
    pub fn charge(
        &mut self,
        limit: u32,
        label: Label,
        more: &Amount,
    ) -> Result<RowMarks, AllocError>
        requires room { HasRoomTwice self.old more.now }
        ensures ok { IfOk result (λ marks. AddsPacket self.old self.new limit label more.now marks) }
        ensures err { OnErr result (self.new ≡ self.old) }
    {
        if label.tag != 0 {
            return self.charge_tagged(limit, label, more);
        }
        let plain = self.add(limit, label, more)?;
        Ok(RowMarks {
            tag: None,
            plain: plain.mark,
        })
    }

    // Charges a packet to its label, which has a tag, and to the label without the tag.
    fn charge_tagged(
        &mut self,
        limit: u32,
        label: Label,
        more: &Amount,
    ) -> Result<RowMarks, AllocError>
        requires tagged { (label.tag == 0) ≡ false }
        requires room { HasRoomTwice self.old more.now }
        ensures ok { IfOk result (λ marks. AddsPacket self.old self.new limit label more.now marks) }
        ensures err { OnErr result (self.new ≡ self.old) }
    {
        let tag = self.add(limit, label, more)?;
        match self.add(limit, Label { tag: 0, ..label }, more) {
            Ok(plain) => Ok(RowMarks {
                tag: Some(tag.mark),
                plain: plain.mark,
            }),
            Err(failed) => {
                self.set(label, tag.before);
                Err(failed)
            }
        }
    }
}
