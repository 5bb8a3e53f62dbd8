//! A whole script, read part by part and printed back.

ghost use Rattle.std.specs.Prelude.{◌≤◌, IfOk};
ghost use Rattle.script_text.specs.Limits.{IsWithinLimits};

use crate::fields::after;
use crate::{Counts, parse_header, parse_section, print_header, print_section};
use std::alloc::Global;
use std::test::Fail;

const HEADER: &[u8] = b"netacct 1\nif 1 lo\nif 2 wlan0\n";

// A tagged socket, and a uid in a counter set.
const TAGGED: &[u8] = b"section\ndesk\ntag 10050 77 10050 7\nset 1000 10051 1\n";

// A capture of two Linux cooked packets, and four lanes.
const CAPTURED: &[u8] = b"section\n\
cap d4c3b2a10200040000000000000000000000040071000000\n\
cap 0000000000000000240000004400000000000001000602000000000a00000800450000340000400040060000c0000201c6336401\n\
cap 000000000000000038000000ed05000000000001000602000000000a000086dd6000000005b5064020010db800000000000000000000000120010db8000000000000000000000002\n\
lane\nrin 10050 77 2 0\nrout 10050 77 2 1\nlane\nrin 10051 0 2 1\nlane\niin 10050 2 4 52\niout 10050 2 6 1501\n\
lane\nin 10050 0 1 4 84 -\n";

const COLLECTED: &[u8] = b"section\ndesk\ncollect\n";

const ONE_MORE: &[u8] = b"section\nlane\nout 10051 0 2 4 40 -\n";

// Prints a section that is read behind these counts, and gives the counts behind it.
fn printed(alloc: Global, out: &mut Vec<u8>, section: &[u8], before: Counts) -> Result<Counts, Fail>
    requires limits { IsWithinLimits before }
    requires lines { before.lines ≤ before.bytes }
    ensures limits { IfOk result (λ counts. IsWithinLimits counts) }
    ensures lines { IfOk result (λ counts. counts.lines ≤ counts.bytes) }
{
    if after(section, b"section\n").is_none() {
        return Err("a line `section`".into());
    }
    match parse_section(alloc, section, &before) {
        Err(_) => Err("a section".into()),
        Ok((read, counts)) => {
            out.extend_from_slice(print_section(alloc, &read)?.as_slice())?;
            Ok(counts)
        }
    }
}

#[test]
fn a_script_is_printed_back(rt: HostRuntime) -> Result<(), Fail> {
    let alloc = rt.alloc();
    let (header, counts) = parse_header(alloc, HEADER).ok().ok_or("a header")?;
    let mut out = print_header(alloc, &header)?.into_vec();
    let counts = printed(alloc, &mut out, TAGGED, counts)?;
    let counts = printed(alloc, &mut out, CAPTURED, counts)?;
    let counts = printed(alloc, &mut out, COLLECTED, counts)?;
    let counts = printed(alloc, &mut out, ONE_MORE, counts)?;
    let counts = printed(alloc, &mut out, COLLECTED, counts)?;
    let mut whole = Vec::from_slice(alloc, HEADER)?;
    for part in [TAGGED, CAPTURED, COLLECTED, ONE_MORE, COLLECTED] {
        whole.extend_from_slice(part)?;
    }
    assert_eq!(rt; out.as_slice(), whole.as_slice());
    assert_eq!(rt; (counts.bytes, counts.lines), (whole.len() as u64, 30));
    Ok(())
}
