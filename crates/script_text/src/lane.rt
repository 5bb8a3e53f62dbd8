//! A lane: its lines, as a script of a million lines has to hold them.

ghost use Rattle.std.specs.Prelude.{◌≡◌, ◌+◌, ◌-◌, ◌==◌, ◌<◌, ◌≤◌, ◌^◌, [], ◌∷◌, ◌++◌, length, IfOk, OnOk, OnErr, slice_get, option_map, ℕ, List as Listed};
ghost use Rattle.script_text.specs.Lanes.{numbered_line, ComesNext, with_head, head_at, HeadStands, IsPlaceIn, lane_line};

use crate::hook_line::HookLine;
use acct_base::{BlockList, ByteList};
use std::alloc::{AllocError, Global};
use std::marker::Model;

/// Where the first bytes of a packet stand among those of all packets of its lane.
#[derive(Clone, Copy, Debug, Drop)]
pub struct HeadPlace {
    start: u32,
    end: u32,
}

/// The lines of a lane, in order, each with the number of its line in the script. Contracts see it as the list of
/// these pairs.
///
/// A line without bytes of a packet takes 32 bytes, and one with some takes these bytes besides, in one piece of
/// memory for the whole lane. The lines follow one another, so that the first one's number tells the others'.
#[derive(Debug, Drop)]
pub struct HookLineList {
    first: u64,
    lines: BlockList<HookLine<HeadPlace>>,
    heads: Vec<u8>,
}

impl Model for HookLineList {
    ghost use Rattle.std.specs.Prelude.{ℕ, ◌+◌, ◌≤◌, ◌^◌, List, map, length};
    ghost use Rattle.std.specs.List.{AllByRecursion};
    ghost use Rattle.script_text.specs.Lines.{LaneLine};
    ghost use Rattle.script_text.specs.Lanes.{numbered, with_head, HeadStands};

    ghost Value = { List (ℕ × LaneLine) };

    ghost view = { λ l. numbered l.first (map (with_head l.heads.items) l.lines) };

    ghost invariant = { λ l. (AllByRecursion (HeadStands (length l.heads.items)) l.lines)
        × (l.first + length l.lines ≤ 2 ^ 64) };
}

impl HookLineList {
    /// A lane without lines.
    pub fn new(alloc: Global) -> Self
        ensures { result ≡ [] }
    {
        HookLineList {
            first: 0,
            lines: BlockList::new(alloc),
            heads: Vec::new(alloc),
        }
    }

    /// Puts a line at the end, which has this number in the script. Where memory is wanting the lane stays as it
    /// was.
    #[inline(always)]
    pub fn push(&mut self, number: u64, line: HookLine<ByteList>) -> Result<(), AllocError>
        requires next { ComesNext self.old number }
        requires fits { number + 1 < 2 ^ 64 }
        ensures ok { OnOk result (self.new ≡ self.old ++ (number, line) ∷ []) }
        ensures err { OnErr result (self.new ≡ self.old) }
    {
        let kept = keep(&mut self.heads, line)?;
        self.lines.push(kept)?;
        if self.lines.len() == 1 {
            self.first = number;
        }
        Ok(())
    }

    /// How many lines there are.
    pub fn len(&self) -> usize
        ensures { result ≡ length self.now }
    {
        self.lines.len()
    }

    /// Whether there is no line.
    pub fn is_empty(&self) -> bool
        ensures { result ≡ (length self.now == 0) }
    {
        self.lines.is_empty()
    }

    /// The line at a place, from 0, with its number in the script; None where the place is not below the length.
    /// It lends the packet's first bytes.
    #[inline(always)]
    pub fn get(&self, place: usize) -> Option<(u64, HookLine<&[u8]>)>
        ensures { option_map numbered_line result ≡ slice_get self.now place }
    {
        match self.lines.get(place) {
            None => None,
            Some(line) => Some((self.first + place as u64, lend(&self.heads, line))),
        }
    }
}

// Puts the first bytes of a line's packet behind those of the lane, and says where they stand.
#[inline(always)]
fn keep(heads: &mut Vec<u8>, line: HookLine<ByteList>) -> Result<HookLine<HeadPlace>, AllocError>
    ensures more { (more : Listed ℕ) × (heads.new.items ≡ heads.old.items ++ more) }
    ensures line { IfOk result (λ kept. with_head heads.new.items kept ≡ line) }
    ensures stands { IfOk result (λ kept. HeadStands (length heads.new.items) kept) }
{
    match line {
        HookLine::Hook {
            dir,
            family,
            sock_uid,
            iface,
            len,
            cookie,
            head,
        } => {
            let head = keep_head(heads, head.as_slice())?;
            Ok(HookLine::Hook {
                dir,
                family,
                sock_uid,
                iface,
                len,
                cookie,
                head,
            })
        }
        HookLine::Packet {
            dir,
            sock_uid,
            iface,
            index,
            cookie,
        } => Ok(HookLine::Packet {
            dir,
            sock_uid,
            iface,
            index,
            cookie,
        }),
        HookLine::Iface(call) => Ok(HookLine::Iface(call)),
        HookLine::Allow {
            received,
            sock_uid,
            cookie,
        } => Ok(HookLine::Allow {
            received,
            sock_uid,
            cookie,
        }),
        HookLine::Deny { sock_uid } => Ok(HookLine::Deny { sock_uid }),
    }
}

// Puts bytes behind those of the lane. More than 4 GB of them have no place, as if memory were wanting.
#[inline(always)]
fn keep_head(heads: &mut Vec<u8>, head: &[u8]) -> Result<HeadPlace, AllocError>
    ensures ok { IfOk result (λ p. (heads.new.items ≡ heads.old.items ++ head.now) × (head_at heads.new.items p ≡ head.now)) }
    ensures place { IfOk result (λ p. IsPlaceIn (length heads.new.items) p) }
    ensures err { OnErr result (heads.new.items ≡ heads.old.items) }
{
    if head.is_empty() {
        return Ok(HeadPlace { start: 0, end: 0 });
    }
    let start = u32::try_from(heads.len()).map_err(|_| AllocError)?;
    let end = u32::try_from(heads.len() + head.len()).map_err(|_| AllocError)?;
    heads.extend_from_slice(head)?;
    Ok(HeadPlace { start, end })
}

// Lends a line with its packet's first bytes, which stand among those of the lane.
#[inline(always)]
fn lend<'a>(heads: &'a Vec<u8>, line: &HookLine<HeadPlace>) -> HookLine<&'a [u8]>
    requires { HeadStands (length heads.now.items) line.now }
    ensures { lane_line result ≡ with_head heads.now.items line.now }
{
    match line {
        HookLine::Hook {
            dir,
            family,
            sock_uid,
            iface,
            len,
            cookie,
            head,
        } => HookLine::Hook {
            dir: *dir,
            family: *family,
            sock_uid: *sock_uid,
            iface: *iface,
            len: *len,
            cookie: *cookie,
            head: &heads[head.start as usize..head.end as usize],
        },
        HookLine::Packet {
            dir,
            sock_uid,
            iface,
            index,
            cookie,
        } => HookLine::Packet {
            dir: *dir,
            sock_uid: *sock_uid,
            iface: *iface,
            index: *index,
            cookie: *cookie,
        },
        HookLine::Iface(call) => HookLine::Iface(*call),
        HookLine::Allow {
            received,
            sock_uid,
            cookie,
        } => HookLine::Allow {
            received: *received,
            sock_uid: *sock_uid,
            cookie: *cookie,
        },
        HookLine::Deny { sock_uid } => HookLine::Deny {
            sock_uid: *sock_uid,
        },
    }
}
