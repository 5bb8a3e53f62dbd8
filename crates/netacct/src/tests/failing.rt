//! Each read of a replay fails once, and each write; and a sink has too little room.

use super::{Ended, FOUR_LANES, FOUR_LANES_DUMP, ONE_PACKET, ONE_PACKET_DUMP, called};
use outside::{Failed, MemSink, MemSource, Sink, Source};
use replay_main::Fault;
use std::alloc::{AllocError, Global};
use std::process::Abort;
use std::sync::Wait;
use std::test::Fail;
use std::thread::Threads;

/// How many bytes a source gives at once, and a sink takes.
const PIECE: usize = 64;

/// Room for each of the dumps.
const ROOM: usize = 4_096;

// The uid of a tag is not the one that owns the socket, and the match is by the latter.
const TWO_OWNERS: &[u8] = b"netacct 1\n\
section\n\
desk\n\
tag 1000 77 10060 7\n\
chain dozable on\n\
add 10050 dozable 0\n\
section\n\
lane\n\
in 10050 77 2 4 100 -\n\
in 10060 0 2 4 100 -\n";

const TWO_OWNERS_DUMP: &[u8] = b"netacct-dump 1\n\
calls 2 pass 1 drop 1 full 0\n\
writes 3 phase 0\n\
replies\n\
reply 4 done\n\
reply 5 done\n\
reply 6 done\n\
receipts\n\
rc 9 pass 3 1:10060/7 2:4 3:4/0 0:- 0 10060 7 0 landed landed landed\n\
rc 10 drop 3 0:- 2:4 0:- 0:- 0 10060 0 0 - landed landed\n\
live 0\n\
row 10060 0 0 2 2 200 0 0\n\
row 10060 7 0 2 1 100 0 0\n\
total\n\
row 10060 0 0 2 2 200 0 0\n\
row 10060 7 0 2 1 100 0 0\n\
apps\n\
app 10060 2 200 0 0\n\
ifaces\n\
end\n";

/// A replay: the words that ask for it, its script, and the dump that it writes where nothing fails.
#[derive(Clone, Copy)]
struct Replay {
    call: &'static [&'static str],
    script: &'static [u8],
    dump: &'static [u8],
}

const REPLAYS: [Replay; 3] = [
    Replay {
        call: &["replay"],
        script: ONE_PACKET,
        dump: ONE_PACKET_DUMP,
    },
    Replay {
        call: &["replay", "--receipts"],
        script: TWO_OWNERS,
        dump: TWO_OWNERS_DUMP,
    },
    Replay {
        call: &["replay"],
        script: FOUR_LANES,
        dump: FOUR_LANES_DUMP,
    },
];

/// A source or a sink, and how often it was called.
#[derive(Drop)]
struct Counted<O> {
    outside: O,
    calls: u64,
}

impl<S: Source> Source for Counted<S> {
    ghost left = { λ s. S.left s.outside };

    ghost faults = { λ s. S.faults s.outside };

    fn read(&mut self, into: &mut [u8]) -> Result<usize, Failed> {
        self.calls = self.calls.saturating_add(1);
        self.outside.read(into)
    }
}

impl<K: Sink> Sink for Counted<K> {
    ghost written = { λ s. K.written s.outside };

    ghost faults = { λ s. K.faults s.outside };

    fn write(&mut self, bytes: &[u8]) -> Result<usize, Failed> {
        self.calls = self.calls.saturating_add(1);
        self.outside.write(bytes)
    }
}

/// What a replay came to, and how its source and its sink were called.
#[derive(Drop)]
struct Done {
    ended: Ended,
    reads: u64,
    writes: u64,
    sink: MemSink,
}

// Replays with a sink of so much room. The calls of these numbers fail.
fn replayed<R: Threads + Wait + Sync>(
    rt: &R,
    alloc: Global,
    replay: &Replay,
    room: usize,
    failing_read: u64,
    failing_write: u64,
) -> Result<Done, AllocError> {
    let mut source = Counted {
        outside: MemSource::new(alloc, replay.script, PIECE, &[failing_read])?,
        calls: 0,
    };
    let mut sink = Counted {
        outside: MemSink::new(alloc, room, PIECE, &[failing_write])?,
        calls: 0,
    };
    let ended = called(rt, alloc, replay.call, &mut source, &mut sink)?;
    Ok(Done {
        ended,
        reads: source.calls,
        writes: sink.calls,
        sink: sink.outside,
    })
}

// A replay in which nothing fails.
fn untroubled<R: Threads + Wait + Sync + Abort>(
    rt: &R,
    alloc: Global,
    replay: &Replay,
) -> Result<Done, Fail> {
    let done = replayed(rt, alloc, replay, ROOM, 0, 0)?;
    assert_eq!(rt; (done.ended.status, done.ended.fault), (0, None));
    assert!(rt; done.ended.has_report);
    assert_eq!(rt; done.sink.written(), replay.dump);
    // A call moves a piece at most.
    assert!(rt; done.reads >= replay.script.len().div_ceil(PIECE) as u64);
    assert!(rt; done.writes >= replay.dump.len().div_ceil(PIECE) as u64);
    Ok(done)
}

// The read of this number fails: there is no report, and nothing is written.
fn fails_at_read<R: Threads + Wait + Sync + Abort>(
    rt: &R,
    alloc: Global,
    replay: &Replay,
    failing: u64,
) -> Result<(), Fail> {
    let done = replayed(rt, alloc, replay, ROOM, failing, 0)?;
    assert_eq!(rt;
        (done.ended.status, done.ended.fault),
        (3, Some(Fault::ReadFault))
    );
    assert!(rt; !done.ended.has_report);
    assert_eq!(rt; done.sink.written(), b"".as_slice());
    Ok(())
}

// A write fails, the one of this number or the first for which there is no room: there is a report, and a front of
// the dump is written.
fn fails_at_write<R: Threads + Wait + Sync + Abort>(
    rt: &R,
    alloc: Global,
    replay: &Replay,
    room: usize,
    failing: u64,
) -> Result<MemSink, Fail> {
    let done = replayed(rt, alloc, replay, room, 0, failing)?;
    assert_eq!(rt;
        (done.ended.status, done.ended.fault),
        (4, Some(Fault::WriteFault))
    );
    assert!(rt; done.ended.has_report);
    assert!(rt; replay.dump.starts_with(done.sink.written()));
    Ok(done.sink)
}

#[test]
fn each_read_fails(rt: HostRuntime) -> Result<(), Fail> {
    for replay in &REPLAYS {
        let whole = untroubled(&rt, rt.alloc(), replay)?;
        for place in 0..whole.reads {
            fails_at_read(&rt, rt.alloc(), replay, place.wrapping_add(1))?;
        }
    }
    Ok(())
}

#[test]
fn each_write_fails(rt: HostRuntime) -> Result<(), Fail> {
    for replay in &REPLAYS {
        let whole = untroubled(&rt, rt.alloc(), replay)?;
        for place in 0..whole.writes {
            let sink = fails_at_write(&rt, rt.alloc(), replay, ROOM, place.wrapping_add(1))?;
            assert!(rt; sink.written().len() < replay.dump.len());
        }
    }
    Ok(())
}

// The room lacks one byte, or nearly all.
#[test]
fn a_dump_finds_no_room(rt: HostRuntime) -> Result<(), Fail> {
    for replay in &REPLAYS {
        for room in [0, 1, PIECE, replay.dump.len().saturating_sub(1)] {
            let sink = fails_at_write(&rt, rt.alloc(), replay, room, 0)?;
            assert_eq!(rt; sink.written().len(), room);
        }
    }
    Ok(())
}
