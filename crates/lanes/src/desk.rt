//! The desk of a section.

ghost use Rattle.std.specs.Prelude.{◌≡◌, ◌+◌, ◌<◌, ◌≤◌, [], true, false, length, vec_capacity, IfOk};
ghost use Rattle.desk_core.specs.Commands.{collects};
ghost use Rattle.desk_core.specs.Ranges.{IsInRange};
ghost use Rattle.lanes.specs.Desks.{AreCommandsInRange, collecting};
ghost use Rattle.lanes.specs.Controls.{IsControlOf, IsLevelControl, Keeps, Obeyed, ObeyedAll};

use collector::{Collector, collect, delete_tag_data};
use desk_core::{Command, Reply};
use desk_regs::Desk;
use hook_engine::Engine;
use std::alloc::{AllocError, Global};
use std::sync::Wait;

/// A desk and a collector, which carry out the commands of a section.
#[derive(Drop)]
pub(crate) struct Control {
    pub(crate) desk: Desk,
    pub(crate) collector: Collector,
}

/// The replies of a desk, each with the number of its line, or want of memory.
pub(crate) type Replies = Result<Vec<(u64, Reply)>, AllocError>;

// Ends the live phase.
fn end_phase<R: Wait>(
    rt: &R,
    alloc: Global,
    engine: &Engine,
    control: Control,
) -> (Control, Result<Reply, AllocError>)
    requires of { IsControlOf engine.now control }
    requires level { IsLevelControl control }
    requires early { control.collector.seat.phase < 1024 }
    ensures of { IsControlOf engine.now result.0 }
    ensures level { IsLevelControl result.0 }
    ensures keeps { Keeps control result.0 }
    ensures ok { IfOk result.1 (λ answer. Obeyed control Command.Collect answer result.0) }
{
    let Control { desk, collector } = control;
    let (collector, ended) = collect(rt, alloc, collector, engine.paired(), engine.apps());
    let reply = match ended {
        Ok(_) => Ok(Reply::Done),
        Err(_) => Err(AllocError),
    };
    (Control { desk, collector }, reply)
}

// Deletes what was counted for a uid.
fn delete<R: Wait>(
    rt: &R,
    alloc: Global,
    engine: &Engine,
    control: Control,
    caller: u32,
    uid: u32,
    tag: u32,
) -> (Control, Result<Reply, AllocError>)
    requires of { IsControlOf engine.now control }
    requires level { IsLevelControl control }
    requires uids { (caller < 4294967295) × (uid < 4294967295) }
    requires early { control.collector.seat.phase < 1024 }
    ensures of { IsControlOf engine.now result.0 }
    ensures level { IsLevelControl result.0 }
    ensures keeps { Keeps control result.0 }
    ensures ok { IfOk result.1 (λ answer. Obeyed control (Command.Delete caller uid tag) answer result.0) }
{
    let Control {
        mut desk,
        collector,
    } = control;
    let (collector, deleted) = delete_tag_data(
        rt,
        alloc,
        collector,
        &mut desk,
        engine.regs(),
        engine.paired(),
        engine.apps(),
        caller,
        uid,
        tag,
    );
    let deleted = match deleted {
        Ok(reply) => Ok(reply),
        Err(_) => Err(AllocError),
    };
    (Control { desk, collector }, deleted)
}

// Carries a command out that ends no phase.
fn command(
    alloc: Global,
    engine: &Engine,
    control: Control,
    command: &Command,
) -> (Control, Result<Reply, AllocError>)
    requires of { IsControlOf engine.now control }
    requires level { IsLevelControl control }
    requires range { IsInRange command.now }
    requires ends_no_phase { collects command.now ≡ false }
    ensures of { IsControlOf engine.now result.0 }
    ensures level { IsLevelControl result.0 }
    ensures keeps { Keeps control result.0 }
    ensures ok { IfOk result.1 (λ answer. Obeyed control command.now answer result.0) }
{
    let mut control = control;
    let reply = control.desk.command(alloc, engine.regs(), command);
    (control, reply)
}

// Carries a command out. Where memory is wanting the desk and the collector are level, too.
fn obey<R: Wait>(
    rt: &R,
    alloc: Global,
    engine: &Engine,
    control: Control,
    line: &Command,
) -> (Control, Result<Reply, AllocError>)
    requires of { IsControlOf engine.now control }
    requires level { IsLevelControl control }
    requires range { IsInRange line.now }
    requires phases { collects line.now ≡ true → control.collector.seat.phase < 1024 }
    ensures of { IsControlOf engine.now result.0 }
    ensures level { IsLevelControl result.0 }
    ensures keeps { Keeps control result.0 }
    ensures ok { IfOk result.1 (λ answer. Obeyed control line.now answer result.0) }
{
    match line {
        Command::Collect => end_phase(rt, alloc, engine, control),
        Command::Delete { caller, uid, tag } => {
            delete(rt, alloc, engine, control, *caller, *uid, *tag)
        }
        _ => command(alloc, engine, control, line),
    }
}

/// Carries the lines of a desk out, in order. It may wait. Where memory is wanting they may be done in part; the
/// desk and the collector are level, too.
pub(crate) fn obey_all<R: Wait>(
    rt: &R,
    alloc: Global,
    engine: &Engine,
    control: Control,
    lines: &[(u64, Command)],
    replies: Vec<(u64, Reply)>,
) -> (Control, Replies)
    requires of { IsControlOf engine.now control }
    requires level { IsLevelControl control }
    requires range { AreCommandsInRange lines.now }
    requires phases { control.collector.seat.phase + length (collecting lines.now) ≤ 1024 }
    requires replies { (replies.items ≡ []) × (length lines.now ≤ vec_capacity replies) }
    ensures of { IsControlOf engine.now result.0 }
    ensures level { IsLevelControl result.0 }
    ensures keeps { Keeps control result.0 }
    ensures ok { IfOk result.1 (λ replies. ObeyedAll control lines.now replies.items result.0) }
{
    let mut control = control;
    let mut replies = replies;
    for (number, line) in lines {
        let (next, reply) = obey(rt, alloc, engine, control, line);
        control = next;
        match reply {
            Ok(reply) => replies.push_reserved((*number, reply)),
            Err(failed) => return (control, Err(failed)),
        }
    }
    (control, Ok(replies))
}
