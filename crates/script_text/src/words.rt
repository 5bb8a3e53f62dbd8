//! Fields that are words, names or bytes.

ghost use Rattle.std.specs.Prelude.{◌≡◌, ◌≢◌, ℕ, List, IfOk, IfErr, OnErr, IsErrOf, if◌then◌else◌, IsTrue, IsFalse};
ghost use Rattle.std.specs.List.{list_all};
ghost use Rattle.hex.specs.Hex.{encode_lower};
ghost use Rattle.acct_base.specs.declared.packet.Family.{Family};
ghost use Rattle.desk_core.specs.declared.command.Chain.{Chain};
ghost use Rattle.desk_core.specs.declared.command.Bit.{Bit};
ghost use Rattle.script_text.specs.declared.map_name.MapName.{MapName};
ghost use Rattle.script_text.specs.Lines.{family_word, chain_word, bit_word, map_word, head_word, is_name, is_letter, is_name_byte, IsHex, IsHead};

use crate::fault::LineFault;
use crate::hex_digits::read_digits;
use crate::map_name::MapName;
use acct_base::{ByteList, Family};
use desk_core::{Bit, Chain};
use std::alloc::Global;

const DOZABLE: &[u8] = b"dozable";

const STANDBY: &[u8] = b"standby";

const POWER_SAVE: &[u8] = b"powersave";

const HAPPY: &[u8] = b"happy";

const PENALTY: &[u8] = b"penalty";

const IFACE: &[u8] = b"iface";

const ROWS: &[u8] = b"rows";

const COOKIES: &[u8] = b"cookies";

const SETS: &[u8] = b"sets";

const OWNERS: &[u8] = b"owners";

const WRITES: &[u8] = b"writes";

const APPS: &[u8] = b"apps";

const IFACES: &[u8] = b"ifaces";

/// The protocol family that a field names.
#[inline(always)]
pub fn family_of(field: &[u8]) -> Result<Family, LineFault>
    ensures found { IfOk result (λ f. field.now ≡ family_word f) }
    ensures syntax { OnErr result ((f : Family) → field.now ≢ family_word f) }
    ensures fault { IfErr result (λ e. e ≡ LineFault.Syntax) }
{
    match field {
        b"4" => Ok(Family::V4),
        b"6" => Ok(Family::V6),
        b"o" => Ok(Family::Other),
        _ => Err(LineFault::Syntax),
    }
}

/// The chain that a field names.
pub fn chain_of(field: &[u8]) -> Result<Chain, LineFault>
    ensures found { IfOk result (λ c. field.now ≡ chain_word c) }
    ensures syntax { OnErr result ((c : Chain) → field.now ≢ chain_word c) }
    ensures fault { IfErr result (λ e. e ≡ LineFault.Syntax) }
{
    if field == DOZABLE {
        Ok(Chain::Dozable)
    } else if field == STANDBY {
        Ok(Chain::Standby)
    } else if field == POWER_SAVE {
        Ok(Chain::PowerSave)
    } else {
        Err(LineFault::Syntax)
    }
}

/// The rule bit that a field names.
pub fn bit_of(field: &[u8]) -> Result<Bit, LineFault>
    ensures found { IfOk result (λ b. field.now ≡ bit_word b) }
    ensures syntax { OnErr result ((b : Bit) → field.now ≢ bit_word b) }
    ensures fault { IfErr result (λ e. e ≡ LineFault.Syntax) }
{
    if field == HAPPY {
        Ok(Bit::Happy)
    } else if field == PENALTY {
        Ok(Bit::Penalty)
    } else if field == DOZABLE {
        Ok(Bit::Dozable)
    } else if field == STANDBY {
        Ok(Bit::Standby)
    } else if field == POWER_SAVE {
        Ok(Bit::PowerSave)
    } else if field == IFACE {
        Ok(Bit::Iface)
    } else {
        Err(LineFault::Syntax)
    }
}

/// The table that a field names.
pub fn map_of(field: &[u8]) -> Result<MapName, LineFault>
    ensures found { IfOk result (λ m. field.now ≡ map_word m) }
    ensures syntax { OnErr result ((m : MapName) → field.now ≢ map_word m) }
    ensures fault { IfErr result (λ e. e ≡ LineFault.Syntax) }
{
    if field == ROWS {
        Ok(MapName::Rows)
    } else if field == COOKIES {
        Ok(MapName::Cookies)
    } else if field == SETS {
        Ok(MapName::Sets)
    } else if field == OWNERS {
        Ok(MapName::Owners)
    } else if field == WRITES {
        Ok(MapName::Writes)
    } else if field == APPS {
        Ok(MapName::Apps)
    } else if field == IFACES {
        Ok(MapName::Ifaces)
    } else {
        Err(LineFault::Syntax)
    }
}

/// Which of two words a field is.
pub fn choice_of(field: &[u8], yes: &[u8], no: &[u8]) -> Result<bool, LineFault>
    ensures found { IfOk result (λ b. field.now ≡ (if b then yes.now else no.now)) }
    ensures is_yes { OnErr result (field.now ≢ yes.now) }
    ensures is_no { OnErr result (field.now ≢ no.now) }
    ensures fault { IfErr result (λ e. e ≡ LineFault.Syntax) }
{
    if field == yes {
        Ok(true)
    } else if field == no {
        Ok(false)
    } else {
        Err(LineFault::Syntax)
    }
}

// Whether a byte is a letter.
fn is_letter_byte(byte: u8) -> bool
    ensures { result ≡ is_letter byte }
{
    (65 <= byte && byte <= 90) || (97 <= byte && byte <= 122)
}

// Whether a byte may stand in a name.
fn may_stand(byte: u8) -> bool
    ensures { result ≡ is_name_byte byte }
{
    is_letter_byte(byte) || (48 <= byte && byte <= 57) || byte == 95 || byte == 45 || byte == 46
}

// Whether all bytes may stand in a name.
fn are_name_bytes(field: &[u8]) -> bool
    ensures { result ≡ list_all is_name_byte field.now }
{
    field.iter().all(|b| may_stand(*b))
}

// Whether some bytes are the name of an interface.
fn is_iface_name(field: &[u8]) -> bool
    ensures { result ≡ is_name field.now }
{
    match field.first() {
        None => false,
        Some(first) => {
            if !is_letter_byte(*first) {
                return false;
            }
            if field.len() > 15 {
                return false;
            }
            are_name_bytes(field)
        }
    }
}

/// The name of an interface that a field is.
pub fn name_of(alloc: Global, field: &[u8]) -> Result<ByteList, LineFault>
    ensures found { IfOk result (λ name. IsTrue (is_name name) × (field.now ≡ name)) }
    ensures syntax { IsErrOf result LineFault.Syntax → IsTrue (is_name field.now) → ⊥ }
{
    if !is_iface_name(field) {
        return Err(LineFault::Syntax);
    }
    Ok(ByteList::from_vec(Vec::from_slice(alloc, field)?))
}

/// Whether two texts are the same.
#[inline(always)]
pub fn is_same(text: &[u8], other: &[u8]) -> bool
    ensures yes { IsTrue result → text.now ≡ other.now }
    ensures no { IsFalse result → text.now ≢ other.now }
{
    text == other
}

/// The bytes, from one to `most`, that a field writes in lower-case digits, two for each.
pub fn hex_of(alloc: Global, field: &[u8], most: usize) -> Result<ByteList, LineFault>
    ensures found { IfOk result (λ bytes. IsHex most bytes × (field.now ≡ encode_lower bytes)) }
    ensures syntax { IsErrOf result LineFault.Syntax → (bytes : List ℕ) → IsHex most bytes →
        field.now ≢ encode_lower bytes }
{
    let size = field.len() / 2;
    if size == 0 {
        return Err(LineFault::Syntax);
    }
    if size > most {
        return Err(LineFault::Syntax);
    }
    if field.len() % 2 != 0 {
        return Err(LineFault::Syntax);
    }
    let mut bytes = vec![in alloc; 0u8; size]?;
    if read_digits(field, bytes.as_mut_slice()) {
        return Ok(ByteList::from_vec(bytes));
    }
    Err(LineFault::Syntax)
}

/// The first bytes of a packet, 128 and `len` of them at most, that a field tells.
#[inline(always)]
pub fn head_of(alloc: Global, field: &[u8], len: u32) -> Result<ByteList, LineFault>
    ensures found { IfOk result (λ head. IsHead len head × (field.now ≡ head_word head)) }
    ensures syntax { IsErrOf result LineFault.Syntax → (head : List ℕ) → IsHead len head →
        field.now ≢ head_word head }
{
    match field {
        b"-" => Ok(ByteList::new(alloc)),
        _ => hex_of(alloc, field, if len < 128 { len as usize } else { 128 }),
    }
}
