//! A text that comes in pieces, cut into its parts.

ghost use Rattle.std.specs.Prelude.{◌≡◌, ◌⊎◌, ◌≤◌, ◌<◌, ◌++◌, ◌∷◌, [], List, ℕ, ◌==◌, false, length, codes, IfOk, IfSome, OnErr, IsTrue, IsFalse};
ghost use Rattle.std.specs.List.{AllByRecursion};
ghost use Rattle.script_text.specs.declared.cutter.Scan.TheVariants as scans;
ghost use Rattle.script_text.specs.Cuts.{EndsLine, IsUncut, Feeds, IsHeld, CutsAt, IsCutOff};

use crate::fields::{after, cut_at, cut_line};
use crate::words::is_same;
use acct_base::ByteList;
use memchr::memrchr;
use std::alloc::{AllocError, Global};
use std::marker::Model;
use std::mem;

/// The line with which a section begins, with its line feed.
const SECTION_LINE: &[u8] = b"section\n";

/// That line without its line feed.
const SECTION: &[u8] = b"section";

/// What a piece did to a [`Cutter`].
#[derive(Debug, Drop)]
pub enum Fed {
    /// The whole piece belongs to the part under way.
    More,
    /// The first `taken` bytes of the piece end the line `section` of the next part; `part` is the one before it.
    Part { taken: u32, part: ByteList },
}

/// Cuts a text into its parts while it comes in: before each line `section`, except one that begins the text.
/// Contracts see it as the bytes since the last cut.
#[derive(Drop)]
pub struct Cutter {
    held: Vec<u8>,
    // Where the last line of `held` begins, which has no line feed yet.
    line: usize,
}

impl Model for Cutter {
    ghost use Rattle.std.specs.Prelude.{ℕ, List};
    ghost use Rattle.script_text.specs.Cuts.{IsHeld};

    ghost Value = { List ℕ };

    ghost view = { λ c. c.held.items };

    ghost invariant = { λ c. IsHeld c.held.items c.line };
}

impl Cutter {
    /// A cutter that was fed nothing.
    pub fn new(alloc: Global) -> Cutter
        ensures { result ≡ [] }
    {
        Cutter {
            held: Vec::new(alloc),
            line: 0,
        }
    }

    /// Takes bytes of the piece, up to the one that ends a line `section` behind the first line of the part under
    /// way: there it answers with that part, and holds that line. Without such a line it takes the whole piece.
    /// Where memory is wanting it takes nothing.
    pub fn feed(&mut self, piece: &[u8]) -> Result<Fed, AllocError>
        requires { length piece.now ≤ 65536 }
        ensures feeds { IfOk result (λ fed. Feeds self.old piece.now fed self.new) }
        ensures err { OnErr result (self.new ≡ self.old) }
    {
        match find_cut(self.held.as_slice(), self.line, piece) {
            Scan::Open(line) => {
                self.held.extend_from_slice(piece)?;
                self.line = line;
                Ok(Fed::More)
            }
            Scan::Cut(taken) => {
                let part = cut(&mut self.held, piece, taken)?;
                self.line = SECTION_LINE.len();
                Ok(Fed::Part {
                    taken: taken as u32,
                    part: ByteList::from_vec(part),
                })
            }
        }
    }

    /// The bytes since the last cut, which are the last part once the text has been fed.
    pub fn end(self) -> ByteList
        ensures bytes { result ≡ self }
        ensures uncut { IsUncut result }
    {
        let Cutter { held, .. } = self;
        ByteList::from_vec(held)
    }
}

/// What was found in a piece.
enum Scan {
    // No cut. The last line of all bytes begins here.
    Open(usize),
    // A cut. So many bytes of the piece stand before the end of its line.
    Cut(usize),
}

// Whether the two halves are the line `section`.
fn is_section(head: &[u8], text: &[u8]) -> bool
    ensures yes { IsTrue result → head.now ++ text.now ≡ codes "section" }
    ensures no { IsFalse result → head.now ++ text.now ≡ codes "section" → ⊥ }
{
    match after(SECTION, head) {
        None => false,
        Some(tail) => is_same(tail, text),
    }
}

// What stands before the last line feed, and what stands behind it.
fn cut_last_line(bytes: &[u8]) -> Option<(&[u8], &[u8])>
    ensures { IfSome result (λ p. bytes.now ≡ p.0.now ++ 10 ∷ p.1.now) }
{
    match memrchr(b'\n', bytes) {
        None => None,
        Some(at) => Some((&bytes[..at], &bytes[at + 1..])),
    }
}

// Skips lines that cannot be the line `section`, since they have no `s`, and gives what stands behind them. The bytes
// begin a line.
fn behind_other_lines(bytes: &[u8]) -> &[u8]
    ensures { (lines : List ℕ) × (bytes.now ≡ lines ++ result.now) × ((lines ≡ []) ⊎ EndsLine lines) × AllByRecursion (λ b. (b == 115) ≡ false) lines }
{
    let calm = match cut_at(b's', bytes) {
        None => bytes,
        Some((calm, _)) => calm,
    };
    match cut_last_line(calm) {
        None => bytes,
        Some((lines, _)) => &bytes[lines.len() + 1..],
    }
}

// Looks for the first cut in a piece behind the bytes that are held, the last line of which begins here.
fn find_cut(held: &[u8], line: usize, piece: &[u8]) -> Scan
    requires { IsHeld held.now line }
    ensures open { (next : ℕ) → result ≡ scans.Open next → IsHeld (held.now ++ piece.now) next }
    ensures cut { (taken : ℕ) → result ≡ scans.Cut taken → CutsAt held.now piece.now taken }
{
    let (_, unfinished) = held.split_at(line);
    let mut head = unfinished;
    let mut start = line;
    let mut rest = piece;
    while let Some((text, behind)) = cut_line(rest) {
        let seen = piece.len() - behind.len();
        if start > 0 && is_section(head, text) {
            return Scan::Cut(seen);
        }
        head = b"";
        rest = behind_other_lines(behind);
        start = held.len() + (piece.len() - rest.len());
    }
    Scan::Open(start)
}

// Takes so many bytes of a piece, gives the part that ends before their last line, and holds that line.
fn cut(held: &mut Vec<u8>, piece: &[u8], taken: usize) -> Result<Vec<u8>, AllocError>
    requires { CutsAt held.old.items piece.now taken }
    ensures part { IfOk result (λ part. IsCutOff held.old.items piece.now taken part.items) }
    ensures held { IfOk result (λ part. held.new.items ≡ codes "section\n") }
    ensures err { OnErr result (held.new.items ≡ held.old.items) }
{
    let fresh = Vec::from_slice(*held.allocator(), SECTION_LINE)?;
    let before = SECTION_LINE.len();
    if taken >= before {
        held.extend_from_slice(&piece[..taken - before])?;
        return Ok(mem::replace(held, fresh));
    }
    held.truncate(held.len() - (before - taken));
    Ok(mem::replace(held, fresh))
}
