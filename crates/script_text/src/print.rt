//! Parts of a script, printed as they are spelled.

ghost use Rattle.std.specs.Prelude.{◌≡◌, ◌++◌, length, IfOk, OnOk, string_bytes};
ghost use Rattle.std.specs.List.{flat_map};
ghost use Rattle.script_text.specs.declared.line.Line.TheVariants as lines;
ghost use Rattle.script_text.specs.Lines.{spelled};
ghost use Rattle.script_text.specs.Parts.{lines_text, header_text, cap_lines, section_text, IsSection, sum_of};
ghost use Rattle.script_text.specs.Prints.{map_text, priv_text, name_text, hook_text, command_text, lane_text, desk_text};

use crate::header::Header;
use crate::lane::HookLineList;
use crate::map_name::MapName;
use crate::section::{DeskLineList, Section};
use crate::spell::{put_command, put_hook, put_map, put_text};
use acct_base::{ByteList, Iface};
use desk_core::Command;
use std::alloc::{AllocError, Global};
use std::fmt::Write;

/// The text of a header, which is its one spelling: what was read is printed byte for byte.
pub fn print_header(alloc: Global, header: &Header) -> Result<ByteList, AllocError>
    ensures { IfOk result (λ bytes. bytes ≡ header_text header.now) }
{
    let mut out = String::new(alloc);
    put_text(&mut out, "netacct 1\n")?;
    put_maps(&mut out, header.maps.as_slice())?;
    put_privs(&mut out, header.privileged.as_slice())?;
    let mut bytes = out.into_bytes();
    put_names(alloc, &mut bytes, header.names.as_slice())?;
    Ok(ByteList::from_vec(bytes))
}

/// The text of a section, which is its one spelling: what was read is printed byte for byte.
pub fn print_section(alloc: Global, section: &Section) -> Result<ByteList, AllocError>
    requires { IsSection section.now }
    ensures { IfOk result (λ bytes. bytes ≡ section_text section.now) }
{
    let mut out = String::new(alloc);
    put_text(&mut out, "section\n")?;
    put_caps(
        alloc,
        &mut out,
        section.caps.as_slice(),
        section.capture.as_slice(),
    )?;
    put_lanes(alloc, &mut out, section.lanes.as_slice())?;
    put_desk(&mut out, &section.desk)?;
    Ok(ByteList::from_vec(out.into_bytes()))
}

fn put_maps(out: &mut String, maps: &[(MapName, u32)]) -> Result<(), AllocError>
    ensures { OnOk result (string_bytes out.new ≡ string_bytes out.old ++ flat_map map_text maps.now) }
{
    for map in maps {
        put_map(out, map.0, map.1)?;
    }
    Ok(())
}

fn put_privs(out: &mut String, apps: &[u32]) -> Result<(), AllocError>
    ensures { OnOk result (string_bytes out.new ≡ string_bytes out.old ++ flat_map priv_text apps.now) }
{
    for app in apps {
        write!(out, "priv {}\n", *app)?;
    }
    Ok(())
}

// Names are bytes, and no text of Rust's.
fn put_names(
    alloc: Global,
    out: &mut Vec<u8>,
    names: &[(Iface, ByteList)],
) -> Result<(), AllocError>
    ensures { OnOk result (out.new.items ≡ out.old.items ++ flat_map name_text names.now) }
{
    for name in names {
        put_name(alloc, out, name)?;
    }
    Ok(())
}

fn put_name(alloc: Global, out: &mut Vec<u8>, name: &(Iface, ByteList)) -> Result<(), AllocError>
    ensures { OnOk result (out.new.items ≡ out.old.items ++ name_text name.now) }
{
    let mut front = String::new(alloc);
    write!(front, "if {} ", name.0)?;
    out.extend_from_slice(front.as_bytes())?;
    out.extend_from_slice(name.1.as_slice())?;
    out.extend_from_slice(b"\n")
}

fn put_caps(alloc: Global, out: &mut String, caps: &[u32], capture: &[u8]) -> Result<(), AllocError>
    requires { sum_of caps.now ≡ length capture.now }
    ensures { OnOk result (string_bytes out.new ≡ string_bytes out.old ++ lines_text (cap_lines caps.now capture.now)) }
{
    let mut rest = capture;
    for cap in caps {
        let (line, behind) = rest.split_at(*cap as usize);
        put_cap(alloc, out, line)?;
        rest = behind;
    }
    Ok(())
}

fn put_cap(alloc: Global, out: &mut String, bytes: &[u8]) -> Result<(), AllocError>
    ensures { OnOk result (string_bytes out.new ≡ string_bytes out.old ++ spelled (lines.Cap bytes.now)) }
{
    let text = hex::encode(alloc, bytes)?;
    write!(out, "cap {}\n", text.as_str())
}

fn put_lanes(alloc: Global, out: &mut String, lanes: &[HookLineList]) -> Result<(), AllocError>
    ensures { OnOk result (string_bytes out.new ≡ string_bytes out.old ++ flat_map lane_text lanes.now) }
{
    for lane in lanes {
        put_lane(alloc, out, lane)?;
    }
    Ok(())
}

fn put_lane(alloc: Global, out: &mut String, lane: &HookLineList) -> Result<(), AllocError>
    ensures { OnOk result (string_bytes out.new ≡ string_bytes out.old ++ lane_text lane.now) }
{
    put_text(out, "lane\n")?;
    put_hooks(alloc, out, lane)
}

fn put_hooks(alloc: Global, out: &mut String, lane: &HookLineList) -> Result<(), AllocError>
    ensures { OnOk result (string_bytes out.new ≡ string_bytes out.old ++ flat_map hook_text lane.now) }
{
    for place in 0..lane.len() {
        match lane.get(place) {
            None => return Ok(()),
            Some((_, line)) => put_hook(alloc, out, &line)?,
        }
    }
    Ok(())
}

fn put_desk(out: &mut String, desk: &Option<DeskLineList>) -> Result<(), AllocError>
    ensures { OnOk result (string_bytes out.new ≡ string_bytes out.old ++ desk_text desk.now) }
{
    match desk {
        None => Ok(()),
        Some(commands) => {
            put_text(out, "desk\n")?;
            put_commands(out, commands.as_slice())
        }
    }
}

fn put_commands(out: &mut String, commands: &[(u64, Command)]) -> Result<(), AllocError>
    ensures { OnOk result (string_bytes out.new ≡ string_bytes out.old ++ flat_map command_text commands.now) }
{
    for command in commands {
        put_command(out, &command.1)?;
    }
    Ok(())
}
