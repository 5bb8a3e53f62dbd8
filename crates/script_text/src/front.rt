//! The line of a packet at the front of a text, read in one pass over its bytes.
//!
//! Nearly all lines of a script are such lines. What is told here is only what was read: where the answer is None,
//! the reader of all lines decides.

ghost use Rattle.std.specs.Prelude.{◌≡◌, ◌≤◌, ◌^◌, ◌++◌, ◌∷◌, ℕ, List, IfSome, IfNone, decimal};
ghost use Rattle.acct_base.specs.declared.packet.Dir.{Dir};
ghost use Rattle.acct_base.specs.declared.packet.Family.{Family};
ghost use Rattle.script_text.specs.declared.line.Line.TheVariants as lines;
ghost use Rattle.script_text.specs.Lines.{IsLine, IsWithin, IsHead, spelled, hook_word, packet_word, family_word, head_word};

use crate::digits::{is_plain, small_digits};
use crate::fields::{after, cut_line};
use crate::hook_line::{HookLine, MOST_IFACE, MOST_LEN, MOST_UID};
use crate::words::head_of;
use acct_base::{ByteList, Dir, Family};
use std::alloc::Global;
use std::marker::Model;

/// The greatest cookie that is read here.
const MOST_COOKIE: u64 = 1 << 60;

/// The greatest number of a captured packet that a line may have.
const MOST_INDEX: u64 = 4_294_967_295;

/// What is left of a text. Contracts see it as its bytes.
#[derive(Drop)]
struct Front<'a> {
    rest: &'a [u8],
}

impl<'a> Model for Front<'a> {
    ghost use Rattle.std.specs.Prelude.{ℕ, List};

    ghost Value = { List ℕ };

    ghost view = { λ f. f.rest.now };
}

impl<'a> Front<'a> {
    // Takes the word of a packet at a hook, and the space behind it.
    #[inline(always)]
    fn hook_dir(&mut self) -> Option<Dir>
        ensures found { IfSome result (λ dir. self.old ≡ hook_word dir ++ 32 ∷ self.new) }
        ensures none { IfNone result (self.new ≡ self.old) }
    {
        if let Some(rest) = after(self.rest, b"in ") {
            self.rest = rest;
            return Some(Dir::Ingress);
        }
        if let Some(rest) = after(self.rest, b"out ") {
            self.rest = rest;
            return Some(Dir::Egress);
        }
        None
    }

    // Takes the word of a captured packet, and the space behind it.
    #[inline(always)]
    fn packet_dir(&mut self) -> Option<Dir>
        ensures found { IfSome result (λ dir. self.old ≡ packet_word dir ++ 32 ∷ self.new) }
    {
        if let Some(rest) = after(self.rest, b"rin ") {
            self.rest = rest;
            return Some(Dir::Ingress);
        }
        if let Some(rest) = after(self.rest, b"rout ") {
            self.rest = rest;
            return Some(Dir::Egress);
        }
        None
    }

    // Takes a number from `least` to `most` in decimal, and the byte behind it.
    #[inline(always)]
    fn number(&mut self, least: u64, most: u64, end: u8) -> Option<u64>
        requires { most ≤ 2 ^ 60 }
        ensures { IfSome result (λ n. IsWithin least most n × (self.old ≡ decimal n ++ end ∷ self.new)) }
    {
        let (number, at) = small_digits(self.rest, most)?;
        let (text, behind) = self.rest.split_at(at);
        if number < least || !is_plain(text) {
            return None;
        }
        let (byte, behind) = behind.split_first()?;
        if *byte != end {
            return None;
        }
        self.rest = behind;
        Some(number)
    }

    // Takes the word of a protocol family, and the space behind it.
    #[inline(always)]
    fn family(&mut self) -> Option<Family>
        ensures { IfSome result (λ family. self.old ≡ family_word family ++ 32 ∷ self.new) }
    {
        if let Some(rest) = after(self.rest, b"4 ") {
            self.rest = rest;
            return Some(Family::V4);
        }
        if let Some(rest) = after(self.rest, b"6 ") {
            self.rest = rest;
            return Some(Family::V6);
        }
        if let Some(rest) = after(self.rest, b"o ") {
            self.rest = rest;
            return Some(Family::Other);
        }
        None
    }

    // Takes the first bytes of a packet, and the line feed behind them.
    #[inline(always)]
    fn head(&mut self, alloc: Global, len: u32) -> Option<ByteList>
        ensures { IfSome result (λ head. IsHead len head × (self.old ≡ head_word head ++ 10 ∷ self.new)) }
    {
        if let Some(rest) = after(self.rest, b"-\n") {
            self.rest = rest;
            return Some(ByteList::new(alloc));
        }
        let (text, behind) = cut_line(self.rest)?;
        match head_of(alloc, text, len) {
            Err(_) => None,
            Ok(head) => {
                self.rest = behind;
                Some(head)
            }
        }
    }
}

/// The packet's line with which a text begins, and what stands behind it.
#[inline(always)]
pub fn packet_at_front(alloc: Global, text: &[u8]) -> Option<(HookLine<ByteList>, &[u8])>
    ensures fits { IfSome result (λ p. IsLine (lines.Hook p.0)) }
    ensures text { IfSome result (λ p. text.now ≡ spelled (lines.Hook p.0) ++ p.1.now) }
{
    let mut front = Front { rest: text };
    let line = match front.hook_dir() {
        Some(dir) => hook_behind(alloc, dir, &mut front)?,
        None => {
            let dir = front.packet_dir()?;
            captured_behind(dir, &mut front)?
        }
    };
    Some((line, front.rest))
}

// The line of a packet, behind its word.
#[inline(always)]
fn hook_behind(alloc: Global, dir: Dir, front: &mut Front<'_>) -> Option<HookLine<ByteList>>
    ensures fits { IfSome result (λ h. IsLine (lines.Hook h)) }
    ensures text { IfSome result (λ h. hook_word dir ++ 32 ∷ front.old ≡ spelled (lines.Hook h) ++ front.new) }
{
    let sock_uid = front.number(0, MOST_UID, b' ')? as u32;
    let cookie = front.number(0, MOST_COOKIE, b' ')?;
    let iface = front.number(1, MOST_IFACE, b' ')? as u32;
    let family = front.family()?;
    let len = front.number(1, MOST_LEN, b' ')? as u32;
    let head = front.head(alloc, len)?;
    Some(HookLine::Hook {
        dir,
        family,
        sock_uid,
        iface,
        len,
        cookie,
        head,
    })
}

// The line of a captured packet, behind its word.
#[inline(always)]
fn captured_behind(dir: Dir, front: &mut Front<'_>) -> Option<HookLine<ByteList>>
    ensures fits { IfSome result (λ h. IsLine (lines.Hook h)) }
    ensures text { IfSome result (λ h. packet_word dir ++ 32 ∷ front.old ≡ spelled (lines.Hook h) ++ front.new) }
{
    let sock_uid = front.number(0, MOST_UID, b' ')? as u32;
    let cookie = front.number(0, MOST_COOKIE, b' ')?;
    let iface = front.number(1, MOST_IFACE, b' ')? as u32;
    let index = front.number(0, MOST_INDEX, b'\n')? as u32;
    Some(HookLine::Packet {
        dir,
        sock_uid,
        iface,
        index,
        cookie,
    })
}
