//! The lines of a lane: calls of the packet programs.

ghost use Rattle.std.specs.Prelude.{◌≡◌, ◌≢◌, ◌∷◌, [], ℕ, Bool, List, codes, IfOk, IsErrOf, OnErr};
ghost use Rattle.acct_base.specs.declared.packet.Family.{Family};
ghost use Rattle.script_text.specs.declared.line.Line.TheVariants.{Hook};
ghost use Rattle.script_text.specs.Lines.{AllFit, texts, Spells, hook_rest, packet_rest, iface_rest, allow_rest, uid_field, hook_word, packet_word, iface_word};

use crate::digits::number_of;
use crate::fault::LineFault;
use crate::fields::Fields;
use crate::line::Line;
use crate::words::{choice_of, family_of, head_of};
use acct_base::{Dir, Family, Iface, IfaceIn, Uid};
use std::alloc::Global;

/// The greatest uid of a script; 4294967295 stands for no uid.
pub const MOST_UID: u64 = 4_294_967_294;

/// The greatest index of an interface.
pub const MOST_IFACE: u64 = 16_777_215;

/// The greatest recorded length of a packet, in bytes.
pub const MOST_LEN: u64 = 262_144;

/// A line of a lane: a call of one of the packet programs of netd.c. `H` is how a packet's first bytes are held:
/// a line that was read alone owns them, and a list of lines lends them.
///
/// The fields of each form stand by their widths, since a script has up to a million such lines.
#[derive(Debug, Drop)]
pub enum HookLine<H> {
    /// `in UID COOKIE IFACE FAMILY LEN HEAD` and `out ..`: a packet at the hook of its direction, with its
    /// first bytes, from the IP header on.
    Hook {
        dir: Dir,
        family: Family,
        sock_uid: Uid,
        iface: Iface,
        len: u32,
        cookie: u64,
        head: H,
    },
    /// `rin UID COOKIE IFACE K` and `rout ..`: packet K, from 0, of the section's capture.
    Packet {
        dir: Dir,
        sock_uid: Uid,
        iface: Iface,
        index: u32,
        cookie: u64,
    },
    /// `iin UID IFACE FAMILY LEN` and `iout ..`: a packet at the interface program of its direction.
    Iface(IfaceIn),
    /// `allow UID COOKIE rx` and `allow UID COOKIE tx`: the allow list, on a packet that was received or sent.
    Allow {
        received: bool,
        sock_uid: Uid,
        cookie: u64,
    },
    /// `deny UID`: the deny list.
    Deny {
        sock_uid: Uid,
    },
}

/// A packet's line, behind the word for its direction.
#[inline(always)]
pub fn hook_line(alloc: Global, dir: Dir, fields: &mut Fields<'_>) -> Result<Line, LineFault>
    ensures found { IfOk result (λ l. Spells l (hook_word dir ∷ fields.old)) }
    ensures syntax { IsErrOf result LineFault.Syntax → (family : Family) (uid iface len cookie : ℕ) (head : List ℕ) →
        AllFit (hook_rest family uid iface len cookie head) → fields.old ≢ texts (hook_rest family uid iface len cookie head) }
{
    let sock_uid = fields.number(0, MOST_UID)? as u32;
    let cookie = fields.number(0, u64::MAX)?;
    let iface = fields.number(1, MOST_IFACE)? as u32;
    let family = family_of(fields.required()?)?;
    let len = fields.number(1, MOST_LEN)? as u32;
    let head = head_of(alloc, fields.one()?, len)?;
    Ok(Line::Hook(HookLine::Hook {
        dir,
        family,
        sock_uid,
        iface,
        len,
        cookie,
        head,
    }))
}

/// The line of a captured packet, behind the word for its direction.
pub fn packet_line(dir: Dir, fields: &mut Fields<'_>) -> Result<Line, LineFault>
    ensures found { IfOk result (λ l. Spells l (packet_word dir ∷ fields.old)) }
    ensures syntax { IsErrOf result LineFault.Syntax → (uid iface index cookie : ℕ) →
        AllFit (packet_rest uid iface index cookie) → fields.old ≢ texts (packet_rest uid iface index cookie) }
{
    let (uid, cookie, iface, index) = fields.four()?;
    let sock_uid = number_of(uid, 0, MOST_UID)? as u32;
    let cookie = number_of(cookie, 0, u64::MAX)?;
    let iface = number_of(iface, 1, MOST_IFACE)? as u32;
    let index = number_of(index, 0, 4_294_967_295)? as u32;
    Ok(Line::Hook(HookLine::Packet {
        dir,
        sock_uid,
        iface,
        index,
        cookie,
    }))
}

/// The line of an interface program, behind the word for its direction.
pub fn iface_line(dir: Dir, fields: &mut Fields<'_>) -> Result<Line, LineFault>
    ensures found { IfOk result (λ l. Spells l (iface_word dir ∷ fields.old)) }
    ensures syntax { IsErrOf result LineFault.Syntax → (uid iface : ℕ) (family : Family) (len : ℕ) →
        AllFit (iface_rest uid iface family len) → fields.old ≢ texts (iface_rest uid iface family len) }
{
    let (uid, iface, family, len) = fields.four()?;
    let sock_uid = number_of(uid, 0, MOST_UID)? as u32;
    let iface = number_of(iface, 1, MOST_IFACE)? as u32;
    let family = family_of(family)?;
    let len = number_of(len, 1, MOST_LEN)? as u32;
    Ok(Line::Hook(HookLine::Iface(IfaceIn {
        dir,
        sock_uid,
        iface,
        family,
        len,
    })))
}

/// The line of the allow list, behind its word.
pub fn allow_line(fields: &mut Fields<'_>) -> Result<Line, LineFault>
    ensures found { IfOk result (λ l. Spells l (codes "allow" ∷ fields.old)) }
    ensures syntax { IsErrOf result LineFault.Syntax → (received : Bool) (uid cookie : ℕ) →
        AllFit (allow_rest received uid cookie) → fields.old ≢ texts (allow_rest received uid cookie) }
{
    let (uid, cookie, received) = fields.three()?;
    let sock_uid = number_of(uid, 0, MOST_UID)? as u32;
    let cookie = number_of(cookie, 0, u64::MAX)?;
    let received = choice_of(received, b"rx", b"tx")?;
    Ok(Line::Hook(HookLine::Allow {
        received,
        sock_uid,
        cookie,
    }))
}

/// The line of the deny list, behind its word.
pub fn deny_line(fields: &mut Fields<'_>) -> Result<Line, LineFault>
    ensures found { IfOk result (λ l. Spells l (codes "deny" ∷ fields.old)) }
    ensures syntax { IsErrOf result LineFault.Syntax → (uid : ℕ) →
        AllFit (uid_field uid ∷ []) → fields.old ≢ texts (uid_field uid ∷ []) }
{
    let sock_uid = number_of(fields.one()?, 0, MOST_UID)? as u32;
    Ok(Line::Hook(HookLine::Deny { sock_uid }))
}
