//! The lines of rows, and what they share with those of totals.

ghost use Rattle.std.specs.Prelude.{◌≡◌, ◌∷◌, ◌++◌, [], codes, decimal, option_copied};
ghost use Rattle.std.specs.List.{flat_map};
ghost use Rattle.acct_base.specs.Text.{line_text};
ghost use Rattle.dump_text.specs.Dump.{amount_words, iface_name, iface_word, row_text, rows_text, app_text};
ghost use Rattle.dump_text.specs.Pages.{Puts};

use crate::page::Page;
use acct_base::{Amount, Iface, NameList, Row, Uid};
use outside::Sink;

// The name of an interface, where it has one.
fn name_of<'a>(names: &'a NameList, iface: Iface) -> Option<&'a [u8]>
    ensures { option_copied result ≡ iface_name names.now iface }
{
    for (index, name) in names.as_slice() {
        if *index == iface {
            return Some(name.as_slice());
        }
    }
    None
}

/// Puts a space, and an interface's name or its index.
pub fn put_iface<K: Sink>(page: &mut Page<'_, K>, names: &NameList, iface: Iface)
    ensures { Puts K.written K.faults page.old page.new (32 ∷ iface_word names.now iface) }
{
    match name_of(names, iface) {
        Some(name) => page.word(name),
        None => page.number(iface),
    }
}

/// Puts an amount's numbers at the end of a line. Most amounts are of one direction, and 0 in the other.
pub fn put_amount<K: Sink>(page: &mut Page<'_, K>, amount: &Amount)
    ensures { Puts K.written K.faults page.old page.new (32 ∷ line_text (amount_words amount.now)) }
{
    page.short_number(amount.rx_packets);
    page.short_number(amount.rx_bytes);
    page.short_number(amount.tx_packets);
    page.short_number(amount.tx_bytes);
    page.end_line();
}

fn put_row<K: Sink>(page: &mut Page<'_, K>, names: &NameList, row: &Row)
    ensures { Puts K.written K.faults page.old page.new (row_text names.now row.now) }
{
    page.put(b"row");
    page.number(row.label.uid);
    page.short_number(row.label.tag as u64);
    page.short_number(row.label.set as u64);
    put_iface(page, names, row.label.iface);
    put_amount(page, &row.amount);
}

/// Puts a line for each row.
pub fn put_rows<K: Sink>(page: &mut Page<'_, K>, names: &NameList, rows: &[Row])
    ensures { Puts K.written K.faults page.old page.new (rows_text names.now rows.now) }
{
    for row in rows {
        put_row(page, names, row);
    }
}

/// Puts the line of a uid and an amount of its app.
pub fn put_app<K: Sink>(page: &mut Page<'_, K>, uid: Uid, amount: &Amount)
    ensures { Puts K.written K.faults page.old page.new (app_text uid amount.now) }
{
    page.put(b"app");
    page.number(uid);
    put_amount(page, amount);
}
