//! What the program does with its words, its input and its output, over sources and sinks in memory.

mod beside;
mod deleting;
mod failing;
mod generated;
mod meeting;

use hook_engine::NoTally;
use outside::{ArgList, Gate, MemSink, MemSource, NoGate, Sink, Source};
use replay_main::{Fault, Outcome, run, run_plain};
use script_text::Which;
use std::alloc::{AllocError, Global};
use std::sync::Wait;
use std::test::Fail;
use std::thread::Threads;

const ONE_PACKET: &[u8] = b"netacct 1\nsection\nlane\nin 10050 0 2 4 60 -\n";

const ONE_PACKET_DUMP: &[u8] = b"netacct-dump 1\n\
calls 1 pass 1 drop 0 full 0\n\
writes 0 phase 0\n\
replies\n\
live 0\n\
row 10050 0 0 2 1 60 0 0\n\
total\n\
row 10050 0 0 2 1 60 0 0\n\
apps\n\
app 10050 1 60 0 0\n\
ifaces\n\
end\n";

const EMPTY_DUMP: &[u8] = b"netacct-dump 1\n\
calls 0 pass 0 drop 0 full 0\n\
writes 0 phase 0\n\
replies\n\
live 0\n\
total\n\
apps\n\
ifaces\n\
end\n";

// A capture of packets that were cut short, four lanes, tags and two collections.
const FOUR_LANES: &[u8] = b"netacct 1\n\
if 1 lo\n\
if 2 wlan0\n\
section\n\
desk\n\
tag 10050 77 10050 7\n\
set 1000 10051 1\n\
section\n\
cap d4c3b2a10200040000000000000000000000040071000000\n\
cap 0000000000000000240000004400000000000001000602000000000a00000800450000340000400040060000c0000201c6336401\n\
cap 000000000000000038000000ed05000000000001000602000000000a000086dd6000000005b5064020010db800000000000000000000000120010db8000000000000000000000002\n\
lane\n\
rin 10050 77 2 0\n\
rout 10050 77 2 1\n\
lane\n\
rin 10051 0 2 1\n\
lane\n\
iin 10050 2 4 52\n\
iout 10050 2 6 1501\n\
lane\n\
in 10050 0 1 4 84 -\n\
section\n\
desk\n\
collect\n\
section\n\
lane\n\
out 10051 0 2 4 40 -\n\
section\n\
desk\n\
collect\n";

const FOUR_LANES_DUMP: &[u8] = b"netacct-dump 1\n\
calls 7 pass 5 drop 0 full 0\n\
writes 2 phase 2\n\
replies\n\
reply 6 done\n\
reply 7 done\n\
reply 24 done\n\
reply 30 done\n\
snapshot 0\n\
row 10050 0 0 lo 1 84 0 0\n\
row 10050 0 0 wlan0 1 52 2 1573\n\
row 10050 7 0 wlan0 1 52 2 1573\n\
row 10051 0 1 wlan0 2 1573 0 0\n\
snapshot 1\n\
row 10051 0 1 wlan0 0 0 1 40\n\
live 2\n\
total\n\
row 10050 0 0 lo 1 84 0 0\n\
row 10050 0 0 wlan0 1 52 2 1573\n\
row 10050 7 0 wlan0 1 52 2 1573\n\
row 10051 0 1 wlan0 2 1573 1 40\n\
apps\n\
app 10050 2 136 2 1573\n\
app 10051 2 1573 1 40\n\
ifaces\n\
iface wlan0 1 52 2 1573\n\
end\n";

// Words, as a program is called with them.
fn words(alloc: Global, all: &[&str]) -> Result<ArgList, AllocError> {
    let mut words = ArgList::new(alloc);
    for word in all {
        words.push(word.to_string(alloc)?)?;
    }
    Ok(words)
}

/// What a run came to.
#[derive(Clone, Copy)]
struct Ended {
    status: u8,
    fault: Option<Fault>,
    has_report: bool,
}

// Of an outcome what is more than its report.
fn without_report(outcome: &Outcome) -> Ended {
    Ended {
        status: outcome.status,
        fault: outcome.fault,
        has_report: outcome.report.is_some(),
    }
}

// What a program comes to that is called with these words. Its tally is told nothing.
fn called_with_gate<R: Threads + Wait + Sync, S: Source, K: Sink, G: Gate>(
    rt: &R,
    alloc: Global,
    call: &[&str],
    source: &mut S,
    sink: &mut K,
    gate: &G,
) -> Result<Outcome, AllocError> {
    let words = words(alloc, call)?;
    Ok(run(rt, alloc, &words, source, sink, gate, &mut NoTally))
}

// The same with a gate that holds nothing up, and without the report.
fn called<R: Threads + Wait + Sync, S: Source, K: Sink>(
    rt: &R,
    alloc: Global,
    call: &[&str],
    source: &mut S,
    sink: &mut K,
) -> Result<Ended, AllocError> {
    let outcome = called_with_gate(rt, alloc, call, source, sink, &NoGate)?;
    Ok(without_report(&outcome))
}

// What a program without other threads comes to.
fn called_alone<S: Source, K: Sink>(
    alloc: Global,
    call: &[&str],
    source: &mut S,
    sink: &mut K,
) -> Result<Ended, AllocError> {
    let outcome = run_plain(alloc, &words(alloc, call)?, source, sink);
    Ok(without_report(&outcome))
}

// What a program comes to on a script that is read in pieces of 10 bytes, and what it writes in pieces of 16.
fn called_on<R: Threads + Wait + Sync>(
    rt: &R,
    alloc: Global,
    call: &[&str],
    script: &[u8],
) -> Result<(Ended, MemSink), AllocError> {
    let mut source = MemSource::new(alloc, script, 10, &[])?;
    let mut sink = MemSink::new(alloc, 4_096, 16, &[])?;
    let ended = called(rt, alloc, call, &mut source, &mut sink)?;
    Ok((ended, sink))
}

// The same of a program without other threads.
fn called_alone_on(
    alloc: Global,
    call: &[&str],
    script: &[u8],
) -> Result<(Ended, MemSink), AllocError> {
    let mut source = MemSource::new(alloc, script, 10, &[])?;
    let mut sink = MemSink::new(alloc, 4_096, 16, &[])?;
    let ended = called_alone(alloc, call, &mut source, &mut sink)?;
    Ok((ended, sink))
}

// What `replay` comes to on a script that is read in pieces of so many bytes, and what it writes in pieces of 16.
// The calls of these numbers fail.
fn replay<R: Threads + Wait + Sync>(
    rt: &R,
    alloc: Global,
    script: &[u8],
    piece: usize,
    failing_read: u64,
    failing_write: u64,
) -> Result<(Ended, MemSink), AllocError> {
    // A source gives a byte at a time at least.
    let mut source = MemSource::new(alloc, script, piece.max(1), &[failing_read])?;
    let mut sink = MemSink::new(alloc, 4_096, 16, &[failing_write])?;
    let ended = called(rt, alloc, &["replay"], &mut source, &mut sink)?;
    Ok((ended, sink))
}

// What `replay` comes to beside a gate, with the report.
fn replay_with_gate<R: Threads + Wait + Sync, G: Gate>(
    rt: &R,
    alloc: Global,
    script: &[u8],
    gate: &G,
) -> Result<Outcome, AllocError> {
    let mut source = MemSource::new(alloc, script, 4_096, &[])?;
    let mut sink = MemSink::new(alloc, 65_536, 4_096, &[])?;
    called_with_gate(rt, alloc, &["replay"], &mut source, &mut sink, gate)
}

#[test]
fn scripts_are_replayed(rt: HostRuntime) -> Result<(), Fail> {
    let cases: [(&[u8], &[u8]); 3] = [
        (b"netacct 1\nsection\nlane\n", EMPTY_DUMP),
        (b"netacct 1\n", EMPTY_DUMP),
        (ONE_PACKET, ONE_PACKET_DUMP),
    ];
    for (script, dump) in cases {
        let (ended, sink) = called_on(&rt, rt.alloc(), &["replay"], script)?;
        assert_eq!(rt; (ended.status, ended.fault), (0, None));
        assert!(rt; ended.has_report);
        assert_eq!(rt; sink.written(), dump);
    }
    Ok(())
}

// A script is the same however its bytes come in: all at once, or line ends apart from their lines.
#[test]
fn pieces_change_nothing(rt: HostRuntime) -> Result<(), Fail> {
    for piece in [1, 7, 4_096] {
        let (ended, sink) = replay(&rt, rt.alloc(), FOUR_LANES, piece, 0, 0)?;
        assert_eq!(rt; (ended.status, ended.fault), (0, None));
        assert_eq!(rt; sink.written(), FOUR_LANES_DUMP);
    }
    Ok(())
}

#[test]
fn a_failed_read_leaves_the_sink_empty(rt: HostRuntime) -> Result<(), Fail> {
    for piece in [1, 7, 10] {
        let (ended, sink) = replay(&rt, rt.alloc(), ONE_PACKET, piece, 3, 0)?;
        assert_eq!(rt; (ended.status, ended.fault), (3, Some(Fault::ReadFault)));
        assert!(rt; !ended.has_report);
        assert_eq!(rt; sink.written(), b"".as_slice());
    }
    Ok(())
}

#[test]
fn a_failed_write_leaves_a_front_of_the_dump(rt: HostRuntime) -> Result<(), Fail> {
    for piece in [1, 7, 4_096] {
        let (ended, sink) = replay(&rt, rt.alloc(), ONE_PACKET, piece, 0, 2)?;
        assert_eq!(rt; (ended.status, ended.fault), (4, Some(Fault::WriteFault)));
        assert!(rt; ended.has_report);
        assert_eq!(rt; sink.written(), b"netacct-dump 1\nc".as_slice());
    }
    Ok(())
}

#[test]
fn a_text_has_its_fault(rt: HostRuntime) -> Result<(), Fail> {
    let cases: [(&[u8], u8, Fault); 9] = [
        (b"", 5, Fault::Syntax { line: 1 }),
        (
            b"netacct 1\nsection\nlane\nin 10050 0 2 4 60 -",
            5,
            Fault::Syntax { line: 4 },
        ),
        (
            b"netacct 1\nsection\nlane\nin 010050 0 2 4 60 -\n",
            5,
            Fault::Syntax { line: 4 },
        ),
        (b"netacct 1\nsection\nlane", 5, Fault::Syntax { line: 3 }),
        (b"netacct 1\nlane\n", 5, Fault::Syntax { line: 2 }),
        // The first section that has a fault decides, whatever stands behind it.
        (
            b"netacct 1\nsection\nlane\nrin 10050 0 2 0\nsection\nlanes\n",
            8,
            Fault::NoPacket { line: 4 },
        ),
        (
            b"netacct 1\nsection\nlane\nsection\nlane\nlanes\nsection\nlane\nrin 10050 0 2 0\n",
            5,
            Fault::Syntax { line: 6 },
        ),
        (
            b"netacct 1\nsection\ncap 00\nlane\nrin 10050 0 2 0\n",
            7,
            Fault::CaptureBad { line: 3, place: 0 },
        ),
        (
            b"netacct 1\nsection\nlane\nrin 10050 0 2 0\n",
            8,
            Fault::NoPacket { line: 4 },
        ),
    ];
    for (script, status, fault) in cases {
        for piece in [1, 7, 4_096] {
            let (ended, sink) = replay(&rt, rt.alloc(), script, piece, 0, 0)?;
            assert_eq!(rt; (ended.status, ended.fault), (status, Some(fault)));
            assert_eq!(rt; sink.written(), b"".as_slice());
        }
    }
    Ok(())
}

#[test]
fn words_say_what_is_done(rt: HostRuntime) -> Result<(), Fail> {
    let cases: [(&[&str], Option<Fault>, &[u8]); 5] = [
        (&["plain"], None, ONE_PACKET_DUMP),
        (
            &["check"],
            None,
            b"check lines 4 sections 1 hooks 1 desk 0\n",
        ),
        (&[], Some(Fault::Usage), b""),
        (&["check", "--receipts"], Some(Fault::Usage), b""),
        (&["replays"], Some(Fault::Usage), b""),
    ];
    for (call, fault, written) in cases {
        let (ended, sink) = called_on(&rt, rt.alloc(), call, ONE_PACKET)?;
        assert_eq!(rt; ended.fault, fault);
        assert_eq!(rt; sink.written(), written);
    }
    Ok(())
}

// Without other threads the words of `replay` are no words.
#[test]
fn plain_words_need_no_thread(rt: HostRuntime) -> Result<(), Fail> {
    let cases: [(&[&str], Option<Fault>, &[u8]); 4] = [
        (&["plain"], None, ONE_PACKET_DUMP),
        (
            &["check"],
            None,
            b"check lines 4 sections 1 hooks 1 desk 0\n",
        ),
        (&["replay"], Some(Fault::Usage), b""),
        (&["replay", "--receipts"], Some(Fault::Usage), b""),
    ];
    for (call, fault, written) in cases {
        let (ended, sink) = called_alone_on(rt.alloc(), call, ONE_PACKET)?;
        assert_eq!(rt; ended.fault, fault);
        assert_eq!(rt; sink.written(), written);
    }
    Ok(())
}

#[test]
fn faults_print_their_texts(rt: HostRuntime) -> Result<(), Fail> {
    let hooks = Which::Hooks;
    let texts = [
        (
            Fault::Usage,
            "usage: netacct replay [--receipts], plain [--receipts], check, gen N, bulk N",
        ),
        (Fault::ReadFault, "read fault"),
        (Fault::WriteFault, "write fault"),
        (Fault::Syntax { line: 4 }, "syntax fault in line 4"),
        (
            Fault::Limit {
                which: hooks,
                line: 9,
            },
            "limit hooks passed in line 9",
        ),
        (
            Fault::CaptureBad { line: 9, place: 76 },
            "capture fault in line 9 at byte 76",
        ),
        (Fault::NoPacket { line: 13 }, "no packet for line 13"),
        (Fault::Memory, "out of memory"),
    ];
    for (fault, text) in texts {
        assert_eq!(rt; format!(in rt.alloc(); "{fault}")?.as_str(), text);
    }
    Ok(())
}
