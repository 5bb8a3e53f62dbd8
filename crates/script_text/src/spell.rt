//! Lines as a script spells them.

ghost use Rattle.std.specs.Prelude.{◌≡◌, ◌++◌, ◌∷◌, [], IfOk, OnOk, codes, decimal, map, string_bytes, if◌then◌else◌};
ghost use Rattle.std.specs.List.{flat_map};
ghost use Rattle.acct_base.specs.Text.{line_text};
ghost use Rattle.script_text.specs.declared.line.Line.TheVariants as lines;
ghost use Rattle.script_text.specs.Lines.{spelled, family_word, chain_word, bit_word, map_word, hook_word, packet_word, iface_word, head_word};
ghost use Rattle.script_text.specs.Lanes.{lane_line};
ghost use Rattle.script_text.specs.Prints.{uid_text};

use crate::hook_line::HookLine;
use crate::map_name::MapName;
use acct_base::{Dir, Family, IfaceIn, Uid};
use desk_core::{Bit, Chain, Command};
use std::alloc::{AllocError, Global};
use std::fmt::Write;

// The word of a protocol family.
fn family_text(family: Family) -> &'static str
    ensures { result.now ≡ family_word family }
{
    match family {
        Family::V4 => "4",
        Family::V6 => "6",
        Family::Other => "o",
    }
}

// The word of a chain.
fn chain_text(chain: Chain) -> &'static str
    ensures { result.now ≡ chain_word chain }
{
    match chain {
        Chain::Dozable => "dozable",
        Chain::Standby => "standby",
        Chain::PowerSave => "powersave",
    }
}

// The word of a rule bit.
fn bit_text(bit: Bit) -> &'static str
    ensures { result.now ≡ bit_word bit }
{
    match bit {
        Bit::Happy => "happy",
        Bit::Penalty => "penalty",
        Bit::Dozable => "dozable",
        Bit::Standby => "standby",
        Bit::PowerSave => "powersave",
        Bit::Iface => "iface",
    }
}

// The word of a table.
fn map_text(name: MapName) -> &'static str
    ensures { result.now ≡ map_word name }
{
    match name {
        MapName::Rows => "rows",
        MapName::Cookies => "cookies",
        MapName::Sets => "sets",
        MapName::Owners => "owners",
        MapName::Writes => "writes",
        MapName::Apps => "apps",
        MapName::Ifaces => "ifaces",
    }
}

/// Puts a `map` line behind a text.
pub fn put_map(out: &mut String, name: MapName, size: u32) -> Result<(), AllocError>
    ensures { OnOk result (string_bytes out.new ≡ string_bytes out.old ++ spelled (lines.Map name size)) }
{
    let name = map_text(name);
    write!(out, "map {} {}\n", name, size)
}

// The word of a packet at a hook.
fn hook_text(dir: Dir) -> &'static str
    ensures { result.now ≡ hook_word dir }
{
    match dir {
        Dir::Ingress => "in",
        Dir::Egress => "out",
    }
}

// The word of a captured packet.
fn packet_text(dir: Dir) -> &'static str
    ensures { result.now ≡ packet_word dir }
{
    match dir {
        Dir::Ingress => "rin",
        Dir::Egress => "rout",
    }
}

// The word of a packet at an interface program.
fn iface_text(dir: Dir) -> &'static str
    ensures { result.now ≡ iface_word dir }
{
    match dir {
        Dir::Ingress => "iin",
        Dir::Egress => "iout",
    }
}

// The first bytes of a packet in hexadecimal digits, or a dash for none.
fn head_text(alloc: Global, head: &[u8]) -> Result<String, AllocError>
    ensures { IfOk result (λ text. string_bytes text ≡ head_word head.now) }
{
    if head.is_empty() {
        return String::from_str(alloc, "-");
    }
    hex::encode(alloc, head)
}

// `in UID COOKIE IFACE FAMILY LEN HEAD` and `out ..`.
fn put_packet(
    out: &mut String,
    word: &str,
    numbers: (u32, u64, u32),
    family: &str,
    len: u32,
    head: &str,
) -> Result<(), AllocError>
    ensures { OnOk result (string_bytes out.new ≡ string_bytes out.old ++
        line_text (word.now ∷ decimal numbers.0 ∷ decimal numbers.1 ∷ decimal numbers.2 ∷ family.now ∷ decimal len ∷ head.now ∷ [])) }
{
    let (uid, cookie, iface) = numbers;
    write!(
        out,
        "{} {} {} {} {} {} {}\n",
        word, uid, cookie, iface, family, len, head
    )
}

/// Puts a hook line behind a text.
pub fn put_hook(alloc: Global, out: &mut String, line: &HookLine<&[u8]>) -> Result<(), AllocError>
    ensures { OnOk result (string_bytes out.new ≡ string_bytes out.old ++ spelled (lines.Hook (lane_line line.now))) }
{
    match line {
        HookLine::Hook {
            dir,
            family,
            sock_uid,
            iface,
            len,
            cookie,
            head,
        } => {
            let head = head_text(alloc, head)?;
            put_packet(
                out,
                hook_text(*dir),
                (*sock_uid, *cookie, *iface),
                family_text(*family),
                *len,
                head.as_str(),
            )
        }
        HookLine::Packet {
            dir,
            sock_uid,
            iface,
            index,
            cookie,
        } => put_captured(out, packet_text(*dir), *sock_uid, *cookie, *iface, *index),
        HookLine::Iface(call) => put_iface(out, call),
        HookLine::Allow {
            received,
            sock_uid,
            cookie,
        } => put_allow(out, *received, *sock_uid, *cookie),
        HookLine::Deny { sock_uid } => write!(out, "deny {}\n", *sock_uid),
    }
}

// `rin UID COOKIE IFACE K` and `rout ..`.
fn put_captured(
    out: &mut String,
    word: &str,
    uid: u32,
    cookie: u64,
    iface: u32,
    index: u32,
) -> Result<(), AllocError>
    ensures { OnOk result (string_bytes out.new ≡ string_bytes out.old ++
        line_text (word.now ∷ decimal uid ∷ decimal cookie ∷ decimal iface ∷ decimal index ∷ [])) }
{
    write!(out, "{} {} {} {} {}\n", word, uid, cookie, iface, index)
}

// `iin UID IFACE FAMILY LEN` and `iout ..`.
fn put_iface(out: &mut String, call: &IfaceIn) -> Result<(), AllocError>
    ensures { OnOk result (string_bytes out.new ≡ string_bytes out.old ++
        line_text (iface_word call.now.dir ∷ decimal call.now.sock_uid ∷ decimal call.now.iface ∷ family_word call.now.family ∷ decimal call.now.len ∷ [])) }
{
    let word = iface_text(call.dir);
    let family = family_text(call.family);
    write!(
        out,
        "{} {} {} {} {}\n",
        word, call.sock_uid, call.iface, family, call.len
    )
}

// `allow UID COOKIE rx` and `allow UID COOKIE tx`.
fn put_allow(out: &mut String, received: bool, uid: u32, cookie: u64) -> Result<(), AllocError>
    ensures { OnOk result (string_bytes out.new ≡ string_bytes out.old ++
        line_text (codes "allow" ∷ decimal uid ∷ decimal cookie ∷ (if received then codes "rx" else codes "tx") ∷ [])) }
{
    let way = if received { "rx" } else { "tx" };
    write!(out, "allow {} {} {}\n", uid, cookie, way)
}

/// Puts a desk line behind a text.
pub fn put_command(out: &mut String, command: &Command) -> Result<(), AllocError>
    ensures { OnOk result (string_bytes out.new ≡ string_bytes out.old ++ spelled (lines.Command command.now)) }
{
    match command {
        Command::Tag {
            caller,
            cookie,
            uid,
            tag,
        } => write!(out, "tag {} {} {} {}\n", *caller, *cookie, *uid, *tag),
        Command::Untag { cookie } => write!(out, "untag {}\n", *cookie),
        Command::Set { caller, uid, set } => write!(out, "set {} {} {}\n", *caller, *uid, *set),
        Command::Delete { caller, uid, tag } => write!(out, "del {} {} {}\n", *caller, *uid, *tag),
        Command::Add { uid, bit, iface } => put_add(out, *uid, *bit, *iface),
        Command::Remove { uid, bit } => put_remove(out, *uid, *bit),
        Command::Toggle { chain, on } => put_toggle(out, *chain, *on),
        Command::Firewall { chain, uid, allow } => put_firewall(out, *chain, *uid, *allow),
        Command::Replace { chain, uids } => put_replace(out, *chain, uids.as_slice()),
        Command::Collect => write!(out, "collect\n"),
    }
}

// `add UID BIT IFACE`.
fn put_add(out: &mut String, uid: u32, bit: Bit, iface: u32) -> Result<(), AllocError>
    ensures { OnOk result (string_bytes out.new ≡ string_bytes out.old ++
        line_text (codes "add" ∷ decimal uid ∷ bit_word bit ∷ decimal iface ∷ [])) }
{
    let bit = bit_text(bit);
    write!(out, "add {} {} {}\n", uid, bit, iface)
}

// `remove UID BIT`.
fn put_remove(out: &mut String, uid: u32, bit: Bit) -> Result<(), AllocError>
    ensures { OnOk result (string_bytes out.new ≡ string_bytes out.old ++
        line_text (codes "remove" ∷ decimal uid ∷ bit_word bit ∷ [])) }
{
    let bit = bit_text(bit);
    write!(out, "remove {} {}\n", uid, bit)
}

// `chain CHAIN on` and `chain CHAIN off`.
fn put_toggle(out: &mut String, chain: Chain, on: bool) -> Result<(), AllocError>
    ensures { OnOk result (string_bytes out.new ≡ string_bytes out.old ++
        line_text (codes "chain" ∷ chain_word chain ∷ (if on then codes "on" else codes "off") ∷ [])) }
{
    let chain = chain_text(chain);
    let switch = if on { "on" } else { "off" };
    write!(out, "chain {} {}\n", chain, switch)
}

// `fw CHAIN UID allow` and `fw CHAIN UID deny`.
fn put_firewall(out: &mut String, chain: Chain, uid: u32, allow: bool) -> Result<(), AllocError>
    ensures { OnOk result (string_bytes out.new ≡ string_bytes out.old ++
        line_text (codes "fw" ∷ chain_word chain ∷ decimal uid ∷ (if allow then codes "allow" else codes "deny") ∷ [])) }
{
    let chain = chain_text(chain);
    let rule = if allow { "allow" } else { "deny" };
    write!(out, "fw {} {} {}\n", chain, uid, rule)
}

// `replace CHAIN` and then uids.
fn put_replace(out: &mut String, chain: Chain, uids: &[Uid]) -> Result<(), AllocError>
    ensures { OnOk result (string_bytes out.new ≡ string_bytes out.old ++
        line_text (codes "replace" ∷ chain_word chain ∷ map decimal uids.now)) }
{
    let chain = chain_text(chain);
    put_text(out, "replace ")?;
    put_text(out, chain)?;
    put_uids(out, uids)?;
    put_text(out, "\n")
}

/// Puts a text behind another.
pub fn put_text(out: &mut String, text: &str) -> Result<(), AllocError>
    ensures { OnOk result (string_bytes out.new ≡ string_bytes out.old ++ text.now) }
{
    out.push_str(text)
}

// Uids, each behind a space.
fn put_uids(out: &mut String, uids: &[Uid]) -> Result<(), AllocError>
    ensures { OnOk result (string_bytes out.new ≡ string_bytes out.old ++ flat_map uid_text uids.now) }
{
    for uid in uids {
        write!(out, " {}", *uid)?;
    }
    Ok(())
}
