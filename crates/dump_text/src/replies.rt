//! The lines of replies.

ghost use Rattle.std.specs.Prelude.{◌≡◌, ◌∷◌, ◌++◌};
ghost use Rattle.std.specs.List.{flat_map};
ghost use Rattle.dump_text.specs.Dump.{reply_word, reply_text, section_replies, replies_text};
ghost use Rattle.dump_text.specs.Pages.{Puts};

use crate::page::Page;
use desk_core::Reply;
use outside::Sink;
use shelf::{SectionList, SectionOut};

fn put_reply_word<K: Sink>(page: &mut Page<'_, K>, reply: Reply)
    ensures { Puts K.written K.faults page.old page.new (32 ∷ reply_word reply) }
{
    match reply {
        Reply::Done => page.word(b"done"),
        Reply::Perm => page.word(b"perm"),
        Reply::NoEntry => page.word(b"no-entry"),
        Reply::Invalid => page.word(b"invalid"),
        Reply::KeysSpent => page.word(b"keys-spent"),
        Reply::JournalFull => page.word(b"journal-full"),
    }
}

fn put_reply<K: Sink>(page: &mut Page<'_, K>, reply: &(u64, Reply))
    ensures { Puts K.written K.faults page.old page.new (reply_text reply.now) }
{
    page.put(b"reply");
    page.number(reply.0);
    put_reply_word(page, reply.1);
    page.end_line();
}

fn put_section<K: Sink>(page: &mut Page<'_, K>, section: &SectionOut)
    ensures { Puts K.written K.faults page.old page.new (section_replies section.now) }
{
    for reply in section.replies.as_slice() {
        put_reply(page, reply);
    }
}

fn put_sections<K: Sink>(page: &mut Page<'_, K>, sections: &SectionList)
    ensures { Puts K.written K.faults page.old page.new (flat_map section_replies sections.now) }
{
    for section in sections.as_slice() {
        put_section(page, section);
    }
}

/// Puts the replies of all sections.
pub fn put_replies<K: Sink>(page: &mut Page<'_, K>, sections: &SectionList)
    ensures { Puts K.written K.faults page.old page.new (replies_text sections.now) }
{
    page.put(b"replies\n");
    put_sections(page, sections);
}
