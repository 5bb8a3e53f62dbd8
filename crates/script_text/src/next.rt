//! The next line of a part.

ghost use Rattle.std.specs.Prelude.{◌≡◌, ◌+◌, ◌++◌, ◌∷◌, ◌^◌, ◌<◌, ◌≤◌, ℕ, List, Some, None, length, not, bytes_eq, IfOk, IsErrOf};
ghost use Rattle.std.specs.List.{list_any};
ghost use Rattle.script_text.specs.declared.fault.Which.{Which};
ghost use Rattle.script_text.specs.Lines.{IsLine, spelled};
ghost use Rattle.script_text.specs.Faults.{SyntaxAt, LimitAt};
ghost use Rattle.script_text.specs.Limits.{passed_by_bytes};
ghost use Rattle.script_text.specs.Order.{is_fresh as is_fresh_by};
ghost use Rattle.script_text.specs.Limits.{IsSmall};
ghost use Rattle.script_text.specs.Drafts.{BeginsWithNoLine, Takes, second_of};

use crate::fault::{LineFault, ScriptFault};
use crate::fields::cut_line;
use crate::limits::Tally;
use crate::line::Line;
use crate::place::{Place, follows};
use acct_base::{ByteList, Iface, NameList};
use std::alloc::Global;

// Whether this is the name that is given.
fn is_named(given: &(Iface, ByteList), name: &ByteList) -> bool
    ensures { result ≡ bytes_eq given.now.1 name.now }
{
    given.1.as_slice() == name.as_slice()
}

// Whether a name is one of these.
fn has_name(names: &NameList, name: &ByteList) -> bool
    ensures { result ≡ list_any (λ (n : ℕ × List ℕ). bytes_eq n.1 name.now) names.now }
{
    names.as_slice().iter().any(|n| is_named(n, name))
}

// Whether a line gives none of these names.
#[inline(always)]
fn is_fresh(names: &NameList, line: &Line) -> bool
    ensures { result ≡ is_fresh_by (second_of names.now) line.now }
{
    match line {
        Line::If(_, name) => !has_name(names, name),
        _ => true,
    }
}

// The line with which a text begins, its bytes with the line feed, and what stands behind it.
#[inline(always)]
fn read_line<'a>(
    alloc: Global,
    tally: &Tally,
    number: u64,
    rest: &'a [u8],
) -> Result<(Line, usize, &'a [u8]), ScriptFault>
    requires small { IsSmall tally.now }
    ensures found { IfOk result (λ p. IsLine p.0 × (rest.now ≡ spelled p.0 ++ p.2.now)) }
    ensures size { IfOk result (λ p. p.1 ≡ length (spelled p.0)) }
    ensures room { IfOk result (λ p. tally.now.bytes + p.1 ≤ 268435456) }
    ensures bytes { IfOk result (λ p. passed_by_bytes tally.now rest.now ≡ None) }
    ensures syntax { (n : ℕ) → IsErrOf result (ScriptFault.Syntax n) → (n ≡ number) × (passed_by_bytes tally.now rest.now ≡ None) × BeginsWithNoLine rest.now }
    ensures limit { (w : Which) (n : ℕ) → IsErrOf result (ScriptFault.Limit w n) → (n ≡ number) × (passed_by_bytes tally.now rest.now ≡ Some w) }
{
    match cut_line(rest) {
        None => match tally.passed_by_bytes(rest.len(), rest.len(), rest) {
            Some(which) => Err(ScriptFault::Limit {
                which,
                line: number,
            }),
            None => Err(ScriptFault::Syntax { line: number }),
        },
        Some((text, behind)) => match tally.passed_by_bytes(text.len(), text.len() + 1, rest) {
            Some(which) => Err(ScriptFault::Limit {
                which,
                line: number,
            }),
            None => match Line::parse(alloc, text) {
                Ok(line) => Ok((line, text.len() + 1, behind)),
                Err(LineFault::Syntax) => Err(ScriptFault::Syntax { line: number }),
                Err(LineFault::Memory) => Err(ScriptFault::Memory),
            },
        },
    }
}

/// Takes the line with which the rest of a text begins, at a place behind these names, and gives it, the tally
/// with it, and what stands behind it.
#[inline(always)]
pub fn next_line<'a>(
    alloc: Global,
    place: Place,
    names: &NameList,
    tally: &Tally,
    number: u64,
    rest: &'a [u8],
) -> Result<(Line, Tally, &'a [u8]), ScriptFault>
    requires small { IsSmall tally.now }
    ensures found { IfOk result (λ p. Takes place (second_of names.now) tally.now rest.now p.0 p.1 p.2.now) }
    ensures syntax { (n : ℕ) → IsErrOf result (ScriptFault.Syntax n) → (n ≡ number) × SyntaxAt place (second_of names.now) tally.now rest.now }
    ensures limit { (w : Which) (n : ℕ) → IsErrOf result (ScriptFault.Limit w n) → (n ≡ number) × LimitAt w place (second_of names.now) tally.now rest.now }
{
    match read_line(alloc, tally, number, rest) {
        Err(fault) => Err(fault),
        Ok((line, size, behind)) => {
            if !follows(place, &line) {
                return Err(ScriptFault::Syntax { line: number });
            }
            if !is_fresh(names, &line) {
                return Err(ScriptFault::Syntax { line: number });
            }
            let with = tally.added(&line, size);
            match with.passed(&line) {
                Some(which) => Err(ScriptFault::Limit {
                    which,
                    line: number,
                }),
                None => Ok((line, with, behind)),
            }
        }
    }
}
