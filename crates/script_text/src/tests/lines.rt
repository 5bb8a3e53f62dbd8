//! Each form of line, broken in each of its fields.

use super::fault_of;
use crate::{ScriptFault, parse_header};
use std::alloc::Global;
use std::test::Fail;

// A line of each form of a lane, and what puts each of its fields out of its range.
const CALLS: [(&str, &str); 10] = [
    (
        "in 10050 0 2 4 60 4500",
        "inn 4294967295 18446744073709551616 16777216 5 262145 45000",
    ),
    (
        "out 0 7 1 o 1 -",
        "ou 4294967295 18446744073709551616 0 x 0 --",
    ),
    (
        "out 4294967294 18446744073709551615 16777215 6 262144 -",
        "OUT -1 1x 16777217 46 1000000 00x",
    ),
    (
        "rin 10050 0 2 0",
        "in 4294967295 18446744073709551616 16777216 4294967296",
    ),
    (
        "rout 0 7 1 4294967295",
        "routs 5000000000 99999999999999999999 0 x",
    ),
    ("iin 10050 2 4 60", "iinn 4294967295 16777216 v4 262145"),
    ("iout 0 1 o 262144", "oout 4294967296 0 O 0"),
    (
        "allow 10050 0 rx",
        "allows 4294967295 18446744073709551616 RX",
    ),
    (
        "allow 0 18446744073709551615 tx",
        "alow x 18446744073709551617 tx1",
    ),
    ("deny 4294967294", "den 4294967295"),
];

// The same for a desk.
const COMMANDS: [(&str, &str); 12] = [
    (
        "tag 10050 77 10051 4294967295",
        "tagg 4294967295 18446744073709551616 4294967295 4294967296",
    ),
    ("untag 18446744073709551615", "tag 18446744073709551616"),
    (
        "set 1000 10050 4294967295",
        "sett 4294967295 4294967295 4294967296",
    ),
    (
        "del 1000 10050 4294967295",
        "dele 4294967295 4294967295 4294967296",
    ),
    ("add 4294967294 happy 0", "ad 4294967295 happi 16777216"),
    ("add 0 iface 16777215", "addd x ifac 99999999"),
    ("remove 4294967294 penalty", "remov 4294967295 penalt"),
    ("chain dozable on", "chains doz ON"),
    ("chain standby off", "chan stand of"),
    (
        "fw powersave 4294967294 allow",
        "fww power 4294967295 allowed",
    ),
    ("fw dozable 0 deny", "f dozabl 4294967296 den"),
    ("replace standby", "replac standbyy"),
];

// The same for the lines of a header.
const HEADERS: [(&str, &str); 9] = [
    ("map rows 5000", "maps row 5001"),
    ("map cookies 262144", "maps cookie 262145"),
    ("map sets 65536", "maps set 65537"),
    ("map owners 65536", "maps owner 65537"),
    ("map writes 262144", "maps write 262145"),
    ("map apps 65536", "maps app 65537"),
    ("map ifaces 65536", "maps iface 0"),
    ("priv 99999", "privs 100000"),
    ("if 16777215 wlan0_-.", "ifs 16777216 wlan0123456789_-."),
];

// A line with another field at a place, or without one there.
fn changed(alloc: Global, line: &str, at: usize, other: &str) -> Result<String, Fail> {
    let mut text = String::new(alloc);
    for (place, field) in line.split(' ').enumerate() {
        let field = if place == at { other } else { field };
        if !field.is_empty() {
            if !text.is_empty() {
                text.push_str(" ")?;
            }
            text.push_str(field)?;
        }
    }
    Ok(text)
}

// The line at whose place a text has a syntax fault.
fn refused_at(alloc: Global, text: &str) -> Option<u64> {
    let bytes = text.as_bytes();
    let fault = if text.starts_with("section") {
        fault_of(alloc, bytes)
    } else {
        parse_header(alloc, bytes).err()
    };
    match fault {
        Some(ScriptFault::Syntax { line }) => Some(line),
        _ => None,
    }
}

// How often a line behind these is refused at its own place: with each field out of its range, with a zero before
// it, and left out, and with a field more.
fn refusals(alloc: Global, front: &str, line: u64, forms: (&str, &str)) -> Result<usize, Fail> {
    let (good, wrong) = forms;
    let mut refused = 0usize;
    for (at, (field, other)) in good.split(' ').zip(wrong.split(' ')).enumerate() {
        let zero = format!(in alloc; "0{}", field)?;
        for put in [other, zero.as_str(), ""] {
            let broken = changed(alloc, good, at, put)?;
            let text = format!(in alloc; "{}{}\n", front, broken.as_str())?;
            if refused_at(alloc, text.as_str()) == Some(line) {
                refused = refused.saturating_add(1);
            }
        }
    }
    let text = format!(in alloc; "{}{} 01\n", front, good)?;
    if refused_at(alloc, text.as_str()) == Some(line) {
        refused = refused.saturating_add(1);
    }
    Ok(refused)
}

// Whether a line is read, and refused with each fault.
fn is_exact(alloc: Global, front: &str, line: u64, forms: (&str, &str)) -> Result<bool, Fail> {
    let text = format!(in alloc; "{}{}\n", front, forms.0)?;
    let fields = forms.0.split(' ').count();
    let all = fields.saturating_mul(3).saturating_add(1);
    let refused = refusals(alloc, front, line, forms)?;
    Ok(refused_at(alloc, text.as_str()).is_none() && refused == all)
}

#[test]
fn each_field_of_each_line_is_read(rt: HostRuntime) -> Result<(), Fail> {
    let alloc = rt.alloc();
    for forms in CALLS {
        assert!(rt;
            is_exact(alloc, "section\nlane\n", 4, forms)?,
            "{}",
            forms.0
        );
    }
    for forms in COMMANDS {
        assert!(rt;
            is_exact(alloc, "section\ndesk\n", 4, forms)?,
            "{}",
            forms.0
        );
    }
    for forms in HEADERS {
        assert!(rt; is_exact(alloc, "netacct 1\n", 2, forms)?, "{}", forms.0);
    }
    for forms in [
        ("lane", "lanes"),
        ("desk", "des"),
        ("cap 00ff", "caps 00fF"),
    ] {
        assert!(rt; is_exact(alloc, "section\n", 3, forms)?, "{}", forms.0);
    }
    assert!(rt; is_exact(alloc, "", 1, ("netacct 1", "netacc 2"))?);
    assert!(rt; is_exact(alloc, "section\ndesk\n", 4, ("collect", "collects"))?);
    Ok(())
}
