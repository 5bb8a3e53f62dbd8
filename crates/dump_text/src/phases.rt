//! The lines of phases: those that ended, the live one, and the total of all.

ghost use Rattle.std.specs.Prelude.{◌≡◌, ◌∷◌, ◌++◌, [], codes, decimal};
ghost use Rattle.std.specs.List.{flat_map};
ghost use Rattle.acct_base.specs.Text.{line_text};
ghost use Rattle.dump_text.specs.Dump.{rows_text, recorded_text, deletion_text, phase_text, live_text, total_text};
ghost use Rattle.dump_text.specs.Pages.{Puts};

use crate::page::Page;
use crate::rows::{put_app, put_rows};
use acct_base::{Amount, NameList, RowList, Snapshot, Uid};
use outside::Sink;
use shelf::{Deletion, Shelf};

fn put_heading<K: Sink>(page: &mut Page<'_, K>, word: &[u8], phase: u32)
    ensures { Puts K.written K.faults page.old page.new (line_text (word.now ∷ decimal phase ∷ [])) }
{
    page.put(word);
    page.number(phase);
    page.end_line();
}

fn put_recorded<K: Sink>(page: &mut Page<'_, K>, uid: Uid, app: &Option<Amount>)
    ensures { Puts K.written K.faults page.old page.new (recorded_text uid app.now) }
{
    if let Some(amount) = app {
        put_app(page, uid, amount);
    }
}

fn put_deleted<K: Sink>(page: &mut Page<'_, K>, deletion: &Deletion)
    ensures { Puts K.written K.faults page.old page.new
        (line_text (codes "deleted" ∷ decimal deletion.now.phase ∷ decimal deletion.now.uid ∷ decimal deletion.now.tag ∷ [])) }
{
    page.put(b"deleted");
    page.number(deletion.phase);
    page.number(deletion.uid);
    page.number(deletion.tag);
    page.end_line();
}

fn put_deletion<K: Sink>(page: &mut Page<'_, K>, names: &NameList, deletion: &Option<Deletion>)
    ensures { Puts K.written K.faults page.old page.new (deletion_text names.now deletion.now) }
{
    if let Some(deletion) = deletion {
        put_deleted(page, deletion);
        put_rows(page, names, deletion.rows.as_slice());
        put_recorded(page, deletion.uid, &deletion.app);
    }
}

fn put_phase<K: Sink>(
    page: &mut Page<'_, K>,
    names: &NameList,
    phase: &(Snapshot, Option<Deletion>),
)
    ensures { Puts K.written K.faults page.old page.new (phase_text names.now phase.now) }
{
    put_heading(page, b"snapshot", phase.0.phase);
    put_rows(page, names, phase.0.rows.as_slice());
    put_deletion(page, names, &phase.1);
}

/// Puts the phases that ended.
pub fn put_phases<K: Sink>(page: &mut Page<'_, K>, names: &NameList, shelf: &Shelf)
    ensures { Puts K.written K.faults page.old page.new (flat_map (phase_text names.now) shelf.now.phases) }
{
    for phase in shelf.phases() {
        put_phase(page, names, phase);
    }
}

/// Puts the live phase.
pub fn put_live<K: Sink>(page: &mut Page<'_, K>, names: &NameList, live: &Snapshot)
    ensures { Puts K.written K.faults page.old page.new (live_text names.now live.now) }
{
    put_heading(page, b"live", live.phase);
    put_rows(page, names, live.rows.as_slice());
}

/// Puts the total of all phases.
pub fn put_total<K: Sink>(page: &mut Page<'_, K>, names: &NameList, rows: &RowList)
    ensures { Puts K.written K.faults page.old page.new (total_text names.now rows.now) }
{
    page.put(b"total\n");
    put_rows(page, names, rows.as_slice());
}
