//! The lines of receipts.

ghost use Rattle.std.specs.Prelude.{◌≡◌, ◌∷◌, ◌++◌, ◌<◌, length, codes, decimal, get_or, IfOk};
ghost use Rattle.std.specs.List.{flat_map};
ghost use Rattle.dump_text.specs.Dump.{or_dash, label_word, seen_word, seen_value, verdict_word, mark_word, match_word, receipt_text, section_text, receipts_text};
ghost use Rattle.dump_text.specs.Forms.{spelled};
ghost use Rattle.dump_text.specs.Pages.{Puts};

use crate::buffer::LineBuffer;
use crate::page::Page;
use acct_base::{
    ByteList, IfaceReceipt, Label, LineReceipt, List, ListReceipt, Mark, OwnerEntry, Receipt, Seen,
    TagEntry, Verdict,
};
use outside::{MemSink, Sink};
use shelf::{ReceiptList, SectionList, SectionOut};
use std::alloc::{AllocError, Global};

/// More bytes than the line of a receipt has.
const LINE_ROOM: usize = 512;

/// How the word of a register is printed.
#[derive(Clone, Copy, Debug)]
pub enum Form {
    Number,
    /// A cookie's value: uid and tag.
    Tag,
    /// An owner's value: rule and interface.
    Owner,
}

fn put_pair<K: Sink>(page: &mut Page<'_, K>, first: u32, second: u32)
    ensures { Puts K.written K.faults page.old page.new (decimal first ++ (codes "/" ++ decimal second)) }
{
    page.short_digits(first as u64);
    page.put_byte(b'/');
    page.short_digits(second as u64);
}

fn put_value<K: Sink>(page: &mut Page<'_, K>, form: Form, word: u64)
    ensures { Puts K.written K.faults page.old page.new (spelled form word) }
{
    match form {
        Form::Number => page.short_digits(word),
        Form::Tag => {
            let entry = TagEntry::of(word);
            put_pair(page, entry.uid, entry.tag);
        }
        Form::Owner => {
            let entry = OwnerEntry::of(word);
            put_pair(page, entry.rule, entry.iface);
        }
    }
}

fn put_seen_value<K: Sink>(page: &mut Page<'_, K>, form: Form, seen: Seen)
    ensures { Puts K.written K.faults page.old page.new (seen_value (spelled form) seen) }
{
    if seen.version == 0 {
        page.put_byte(b'-');
        return;
    }
    match seen.value {
        None => page.put_byte(b'-'),
        Some(word) => put_value(page, form, word),
    }
}

fn put_seen<K: Sink>(page: &mut Page<'_, K>, form: Form, seen: Seen)
    ensures { Puts K.written K.faults page.old page.new (32 ∷ seen_word (spelled form) seen) }
{
    if seen.version == 0 {
        page.put(b" 0:-");
        return;
    }
    page.short_number(seen.version as u64);
    page.put_byte(b':');
    put_seen_value(page, form, seen);
}

fn put_read<K: Sink>(page: &mut Page<'_, K>, form: Form, read: Option<Seen>)
    ensures { Puts K.written K.faults page.old page.new (32 ∷ or_dash (seen_word (spelled form)) read) }
{
    match read {
        None => page.put(b" -"),
        Some(seen) => put_seen(page, form, seen),
    }
}

fn put_phase<K: Sink>(page: &mut Page<'_, K>, phase: Option<u32>)
    ensures { Puts K.written K.faults page.old page.new (32 ∷ or_dash decimal phase) }
{
    match phase {
        None => page.put(b" -"),
        Some(phase) => page.short_number(phase as u64),
    }
}

fn put_uid<K: Sink>(page: &mut Page<'_, K>, label: Option<Label>)
    ensures { Puts K.written K.faults page.old page.new (32 ∷ label_word (λ l. l.uid) label) }
{
    match label {
        None => page.put(b" -"),
        Some(label) => page.short_number(label.uid as u64),
    }
}

fn put_tag<K: Sink>(page: &mut Page<'_, K>, label: Option<Label>)
    ensures { Puts K.written K.faults page.old page.new (32 ∷ label_word (λ l. l.tag) label) }
{
    match label {
        None => page.put(b" -"),
        Some(label) => page.short_number(label.tag as u64),
    }
}

fn put_set<K: Sink>(page: &mut Page<'_, K>, label: Option<Label>)
    ensures { Puts K.written K.faults page.old page.new (32 ∷ label_word (λ l. l.set) label) }
{
    match label {
        None => page.put(b" -"),
        Some(label) => page.short_number(label.set as u64),
    }
}

fn put_verdict<K: Sink>(page: &mut Page<'_, K>, verdict: Verdict)
    ensures { Puts K.written K.faults page.old page.new (32 ∷ verdict_word verdict) }
{
    match verdict {
        Verdict::Pass => page.put(b" pass"),
        Verdict::Drop => page.put(b" drop"),
    }
}

fn put_mark<K: Sink>(page: &mut Page<'_, K>, mark: Option<Mark>)
    ensures { Puts K.written K.faults page.old page.new (32 ∷ or_dash mark_word mark) }
{
    match mark {
        None => page.put(b" -"),
        Some(Mark::Landed) => page.put(b" landed"),
        Some(Mark::Full) => page.put(b" full"),
    }
}

fn put_match<K: Sink>(page: &mut Page<'_, K>, matched: bool)
    ensures { Puts K.written K.faults page.old page.new (32 ∷ match_word matched) }
{
    if matched {
        page.put(b" match");
    } else {
        page.put(b" nomatch");
    }
}

fn put_hook<K: Sink>(page: &mut Page<'_, K>, line: u64, receipt: &Receipt)
    ensures { Puts K.written K.faults page.old page.new (receipt_text (line, LineReceipt.Hook receipt.now)) }
{
    page.put(b"rc");
    page.number(line);
    put_verdict(page, receipt.verdict);
    page.short_number(receipt.front as u64);
    put_read(page, Form::Tag, Some(receipt.tag_read));
    put_read(page, Form::Number, receipt.rules_read);
    put_read(page, Form::Owner, receipt.owner_read);
    put_read(page, Form::Number, receipt.set_read);
    put_phase(page, receipt.phase);
    put_uid(page, receipt.label);
    put_tag(page, receipt.label);
    put_set(page, receipt.label);
    put_mark(page, receipt.landed_tag);
    put_mark(page, receipt.landed_plain);
    put_mark(page, receipt.landed_app);
    page.end_line();
}

fn put_iface_receipt<K: Sink>(page: &mut Page<'_, K>, line: u64, receipt: &IfaceReceipt)
    ensures { Puts K.written K.faults page.old page.new (receipt_text (line, LineReceipt.Iface receipt.now)) }
{
    page.put(b"ic");
    page.number(line);
    put_match(page, receipt.matched);
    put_mark(page, receipt.landed);
    page.end_line();
}

fn put_list_receipt<K: Sink>(page: &mut Page<'_, K>, line: u64, receipt: &ListReceipt)
    ensures { Puts K.written K.faults page.old page.new (receipt_text (line, LineReceipt.List receipt.now)) }
{
    page.put(b"lc");
    page.number(line);
    put_match(page, receipt.matched);
    page.short_number(receipt.front as u64);
    put_read(page, Form::Owner, receipt.owner_read);
    page.end_line();
}

fn put_receipt<K: Sink>(page: &mut Page<'_, K>, line: u64, receipt: &LineReceipt)
    ensures { Puts K.written K.faults page.old page.new (receipt_text (line, receipt.now)) }
{
    match receipt {
        LineReceipt::Hook(receipt) => put_hook(page, line, receipt),
        LineReceipt::Iface(receipt) => put_iface_receipt(page, line, receipt),
        LineReceipt::List(receipt) => put_list_receipt(page, line, receipt),
    }
}

fn put_lane<K: Sink>(page: &mut Page<'_, K>, lane: &ReceiptList)
    ensures { Puts K.written K.faults page.old page.new (flat_map receipt_text lane.now) }
{
    for place in 0..lane.len() {
        match lane.get(place) {
            None => return,
            Some((line, receipt)) => put_receipt(page, line, &receipt),
        }
    }
}

fn put_section<K: Sink>(page: &mut Page<'_, K>, section: &SectionOut)
    ensures { Puts K.written K.faults page.old page.new (section_text section.now) }
{
    for lane in section.lanes.as_slice() {
        put_lane(page, lane);
    }
}

fn put_sections<K: Sink>(page: &mut Page<'_, K>, sections: &SectionList)
    ensures { Puts K.written K.faults page.old page.new (flat_map section_text sections.now) }
{
    for section in sections.as_slice() {
        put_section(page, section);
    }
}

/// Puts the receipts of all sections, where they are asked for.
pub fn put_receipts<K: Sink>(page: &mut Page<'_, K>, receipts: bool, sections: &SectionList)
    ensures { Puts K.written K.faults page.old page.new (receipts_text receipts sections.now) }
{
    if receipts {
        page.put(b"receipts\n");
        put_sections(page, sections);
    }
}

/// The line of a receipt, with the number of its script line.
pub fn receipt_line(alloc: Global, line: u64, receipt: &LineReceipt) -> Result<ByteList, AllocError>
    ensures { IfOk result (λ bytes. bytes ≡ receipt_text (line, receipt.now)) }
{
    let mut buffer = LineBuffer::new(alloc)?;
    let mut sink = MemSink::new(alloc, LINE_ROOM, LINE_ROOM, &[])?;
    let mut page = Page::new(&mut sink, &mut buffer);
    put_receipt(&mut page, line, receipt);
    page.finish().map_err(|_| AllocError)?;
    Ok(List::from_vec(Vec::from_slice(alloc, sink.written())?))
}
