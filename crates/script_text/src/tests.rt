mod lines;
mod whole;

use super::*;
use crate::fields::after;
use acct_base::ByteList;
use std::alloc::Global;
use std::fmt::Write;
use std::test::Fail;

// Of the header of a script, and of the section that the other text is: what they are printed as.
fn printed(alloc: Global, header: &[u8], section: &[u8]) -> Result<(ByteList, ByteList), Fail> {
    let (first, before) = parse_header(alloc, header).ok().ok_or("a header")?;
    if after(section, b"section\n").is_none() {
        return Err("a line `section`".into());
    }
    let (second, _) = parse_section(alloc, section, &before)
        .ok()
        .ok_or("a section")?;
    Ok((print_header(alloc, &first)?, print_section(alloc, &second)?))
}

const HEADER: &[u8] =
    b"netacct 1\nmap rows 2\nmap apps 65536\npriv 0\npriv 1073\nif 1 lo\nif 2 wlan0\n";

const SECTION: &[u8] =
    b"section\ncap d4c3b2a1\ncap 00ff\nlane\nrin 10050 77 2 0\nrout 10050 77 2 4294967295\nlane\niin 10050 2 4 52\niout 10050 2 6 1501\nlane\nin 10050 0 1 o 84 4500ab\nout 0 18446744073709551615 16777215 4 262144 -\nallow 1 2 rx\nallow 1 2 tx\ndeny 4294967294\ndesk\ntag 10050 77 10050 7\nuntag 77\nset 1000 10051 1\ndel 1000 10051 0\nadd 1 iface 0\nremove 1 happy\nchain powersave off\nfw standby 7 deny\nreplace dozable\nreplace dozable 0 1 4294967294\ncollect\n";

#[test]
fn prints_what_it_read(rt: HostRuntime) -> Result<(), Fail> {
    let alloc = rt.alloc();
    let (header, section) = printed(alloc, HEADER, SECTION)?;
    assert_eq!(rt; header.as_slice(), HEADER);
    assert_eq!(rt; section.as_slice(), SECTION);
    Ok(())
}

#[test]
fn cuts_a_text_into_its_parts(rt: HostRuntime) -> Result<(), Fail> {
    let alloc = rt.alloc();
    let mut cutter = Cutter::new(alloc);
    assert!(rt; matches!(cutter.feed(b"netacct 1\nsec")?, Fed::More));
    match cutter.feed(b"tion\nlane\nsection\n")? {
        Fed::More => return Err("a part".into()),
        Fed::Part { taken, part } => {
            assert_eq!(rt; (taken, part.as_slice()), (5, b"netacct 1\n".as_slice()));
        }
    }
    match cutter.feed(b"lane\nsection\n")? {
        Fed::More => return Err("a part".into()),
        Fed::Part { taken, part } => {
            assert_eq!(rt;
                (taken, part.as_slice()),
                (13, b"section\nlane\n".as_slice())
            );
        }
    }
    assert_eq!(rt; cutter.end().as_slice(), b"section\n".as_slice());
    Ok(())
}

const NOTHING: Counts = Counts {
    bytes: 10,
    lines: 1,
    sections: 0,
    hooks: 0,
    desk_lines: 0,
    collections: 0,
};

// The fault of a section behind the line `netacct 1`.
fn fault_of(alloc: Global, section: &[u8]) -> Option<ScriptFault> {
    match after(section, b"section\n") {
        None => None,
        Some(_) => parse_section(alloc, section, &NOTHING).err(),
    }
}

// Lines of a lane that are each broken in one place.
const BROKEN_CALLS: [&str; 34] = [
    "in 10050 0 2 4 60",
    "in 10050 0 2 4 60 - -",
    "in 010050 0 2 4 60 -",
    "in +1 0 2 4 60 -",
    "in 4294967295 0 2 4 60 -",
    "in 1 18446744073709551616 2 4 60 -",
    "in 1 00 2 4 60 -",
    "in 1 0 0 4 60 -",
    "in 1 0 16777216 4 60 -",
    "in 1 0 2 5 60 -",
    "in 1 0 2 4 0 -",
    "in 1 0 2 4 262145 -",
    "in 1 0 2 4 60 4A",
    "in 1 0 2 4 60 450",
    "in 1 0 2 4 1 4500",
    "in  1 0 2 4 60 -",
    "in 1 0 2 4 60 - ",
    " in 1 0 2 4 60 -",
    "inn 1 0 2 4 60 -",
    "rin 1 0 2",
    "rin 1 0 2 4294967296",
    "rout 1 0 2 01",
    "rout 1 0 2 1 1",
    "iin 1 2 4",
    "iin 1 0 4 60",
    "iout 1 2 x 60",
    "iout 1 2 4 060",
    "iout 1 2 4 60 1",
    "allow 1 2",
    "allow 1 2 xx",
    "allow 1 2 rx 1",
    "deny",
    "deny 4294967295",
    "deny 1 1",
];

// Lines of a desk that are each broken in one place.
const BROKEN_COMMANDS: [&str; 33] = [
    "tag 1 2 3",
    "tag 4294967295 2 3 4",
    "tag 1 2 3 4294967296",
    "tag 1 2 3 4 5",
    "untag",
    "untag 01",
    "untag 1 1",
    "set 1 2",
    "set 1 2 x",
    "set 1 2 4294967296",
    "set 1 2 1 1",
    "del 1 2",
    "del 1 4294967295 0",
    "del 1 2 0 0",
    "add 1 happy",
    "add 1 glad 0",
    "add 1 iface 16777216",
    "add 1 happy 0 0",
    "remove 1",
    "remove 1 ifaces",
    "remove 1 happy 0",
    "chain dozable",
    "chain doze on",
    "chain dozable On",
    "chain dozable on on",
    "fw dozable 1",
    "fw dozable x allow",
    "fw dozable 1 drop",
    "fw dozable 1 allow allow",
    "replace",
    "replace dozable 2 1",
    "replace dozable 1 1",
    "collect 1",
];

// How many of these lines, each behind this one, are refused at their own line.
fn refused(alloc: Global, head: &str, lines: &[&str]) -> Result<usize, Fail> {
    let mut named = 0usize;
    for line in lines {
        let text = format!(in alloc; "section\n{}\n{}\n", head, *line)?;
        if fault_of(alloc, text.as_bytes()) == Some(ScriptFault::Syntax { line: 4 }) {
            named = named.saturating_add(1);
        }
    }
    Ok(named)
}

#[test]
fn names_each_broken_line(rt: HostRuntime) -> Result<(), Fail> {
    let alloc = rt.alloc();
    assert_eq!(rt; refused(alloc, "lane", &BROKEN_CALLS)?, 34);
    assert_eq!(rt; refused(alloc, "desk", &BROKEN_COMMANDS)?, 33);
    Ok(())
}

// A text that repeats lines, and what is behind them.
fn repeated(alloc: Global, front: &str, line: &str, times: u32, end: &str) -> Result<String, Fail> {
    let mut text = String::from_str(alloc, front)?;
    for _ in 0..times {
        text.push_str(line)?;
    }
    text.push_str(end)?;
    Ok(text)
}

// A header with so many lines, whose numbers ascend.
fn ascending(alloc: Global, word: &str, count: u32) -> Result<String, Fail> {
    let mut text = String::from_str(alloc, "netacct 1\n")?;
    for number in 1..=count {
        if word == "priv" {
            write!(text, "priv {}\n", number)?;
        } else {
            write!(text, "if {} n{}\n", number, number)?;
        }
    }
    Ok(text)
}

// A section that replaces a chain's list by so many uids.
fn replacing(alloc: Global, count: u32) -> Result<String, Fail> {
    let mut text = String::from_str(alloc, "section\ndesk\nreplace dozable")?;
    for uid in 0..count {
        write!(text, " {}", uid)?;
    }
    text.push_str("\n")?;
    Ok(text)
}

// A limit that is passed at a line.
fn limit(which: Which, line: u64) -> Option<ScriptFault> {
    Some(ScriptFault::Limit { which, line })
}

#[test]
fn names_each_limit_of_a_header(rt: HostRuntime) -> Result<(), Fail> {
    let alloc = rt.alloc();
    let privs = ascending(alloc, "priv", 64)?;
    assert_eq!(rt; parse_header(alloc, privs.as_bytes()).err(), None);
    let privs = ascending(alloc, "priv", 65)?;
    assert_eq!(rt;
        parse_header(alloc, privs.as_bytes()).err(),
        limit(Which::Privs, 66)
    );
    let names = ascending(alloc, "if", 1_000)?;
    assert_eq!(rt; parse_header(alloc, names.as_bytes()).err(), None);
    let names = ascending(alloc, "if", 1_001)?;
    assert_eq!(rt;
        parse_header(alloc, names.as_bytes()).err(),
        limit(Which::Ifs, 1_002)
    );
    Ok(())
}

#[test]
fn names_each_limit_of_a_section(rt: HostRuntime) -> Result<(), Fail> {
    let alloc = rt.alloc();
    let lanes = repeated(alloc, "section\n", "lane\n", 16, "")?;
    assert_eq!(rt; fault_of(alloc, lanes.as_bytes()), None);
    let lanes = repeated(alloc, "section\n", "lane\n", 17, "")?;
    assert_eq!(rt; fault_of(alloc, lanes.as_bytes()), limit(Which::Lanes, 19));
    let uids = replacing(alloc, 2_000)?;
    assert_eq!(rt; fault_of(alloc, uids.as_bytes()), None);
    let uids = replacing(alloc, 2_001)?;
    assert_eq!(rt; fault_of(alloc, uids.as_bytes()), limit(Which::Uids, 4));
    let cap = repeated(alloc, "cap ", "00", 512, "\n")?;
    let caps = repeated(alloc, "section\n", cap.as_str(), 2_048, "")?;
    assert_eq!(rt; fault_of(alloc, caps.as_bytes()), None);
    let caps = repeated(alloc, "section\n", cap.as_str(), 2_048, "cap 00\n")?;
    assert_eq!(rt;
        fault_of(alloc, caps.as_bytes()),
        limit(Which::CaptureBytes, 2_051)
    );
    let line = repeated(alloc, "section\nlane\n", "x", 65_536, "\n")?;
    assert_eq!(rt;
        fault_of(alloc, line.as_bytes()),
        Some(ScriptFault::Syntax { line: 4 })
    );
    let line = repeated(alloc, "section\nlane\n", "x", 65_537, "\n")?;
    assert_eq!(rt;
        fault_of(alloc, line.as_bytes()),
        limit(Which::LineBytes, 4)
    );
    Ok(())
}

#[test]
fn names_each_limit_of_a_script(rt: HostRuntime) {
    let alloc = rt.alloc();
    let room = Counts {
        bytes: 268_435_448,
        sections: 4_095,
        ..NOTHING
    };
    assert_eq!(rt; parse_section(alloc, b"section\n", &room).err(), None);
    let bytes = Counts {
        bytes: 268_435_449,
        ..NOTHING
    };
    assert_eq!(rt;
        parse_section(alloc, b"section\n", &bytes).err(),
        limit(Which::ScriptBytes, 2)
    );
    let sections = Counts {
        sections: 4_096,
        ..NOTHING
    };
    assert_eq!(rt;
        parse_section(alloc, b"section\n", &sections).err(),
        limit(Which::Sections, 2)
    );
    let last = Counts {
        hooks: 1_048_575,
        desk_lines: 65_535,
        collections: 1_023,
        ..NOTHING
    };
    let text = b"section\nlane\ndeny 1\ndesk\ncollect\n";
    assert_eq!(rt; parse_section(alloc, text, &last).err(), None);
    let text = b"section\nlane\ndeny 1\ndeny 2\n";
    assert_eq!(rt;
        parse_section(alloc, text, &last).err(),
        limit(Which::Hooks, 5)
    );
    let text = b"section\ndesk\nuntag 1\nuntag 2\n";
    assert_eq!(rt;
        parse_section(alloc, text, &last).err(),
        limit(Which::DeskLines, 5)
    );
    let calls = Counts {
        collections: 1_023,
        ..NOTHING
    };
    let text = b"section\ndesk\ncollect\ndel 0 1 2\n";
    assert_eq!(rt;
        parse_section(alloc, text, &calls).err(),
        limit(Which::Collections, 5)
    );
}

#[test]
fn names_other_faults(rt: HostRuntime) -> Result<(), Fail> {
    let alloc = rt.alloc();
    let headers: [(&[u8], u64); 9] = [
        (b"", 1),
        (b"netacct 1", 1),
        (b"netacct 2\n", 1),
        (b"section\n", 1),
        (b"netacct 1\nmap rows 5001\n", 2),
        (b"netacct 1\nmap sets 1\nmap cookies 1\n", 3),
        (b"netacct 1\npriv 100000\n", 2),
        (b"netacct 1\nif 1 lo\nif 2 lo\n", 3),
        (b"netacct 1\nif 1 1o\n", 2),
    ];
    for (text, line) in headers {
        assert_eq!(rt;
            parse_header(alloc, text).err(),
            Some(ScriptFault::Syntax { line }),
            "at {text:?}"
        );
    }
    let sections: [(&[u8], u64); 6] = [
        (b"section\nlane", 3),
        (b"section\ndesk\nlane\n", 4),
        (b"section\nlane\ncap 00\n", 4),
        (b"section\ncap \n", 3),
        (b"section\n\n", 3),
        (b"section\nlane\nuntag 1\nin 01 0 2 4 60 -\n", 4),
    ];
    for (text, line) in sections {
        assert_eq!(rt;
            fault_of(alloc, text),
            Some(ScriptFault::Syntax { line }),
            "at {text:?}"
        );
    }
    Ok(())
}
