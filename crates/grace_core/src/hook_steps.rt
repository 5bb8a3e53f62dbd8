//! The steps of the hooks.

ghost use Rattle.std.specs.Prelude.{◌≡◌, ◌<◌, ◌^◌, IfOk, OnErr};
ghost use Rattle.grace_core.specs.Machine as machine;
ghost use Rattle.grace_core.specs.Machine.{after, exits_at, Steps};
ghost use Rattle.grace_core.specs.Good.{IsGood};
ghost use Rattle.grace_core.specs.declared.event.Event.TheVariants as event;

use crate::job::{bytes_column, packets_column};
use crate::state::{State, claimed, word_of};
use crate::view::{At, HookView, both};
use acct_base::{ChargeList, Job};
use row_probe::{pack1, pack2, place};
use std::alloc::{AllocError, Global};

/// A call begins.
pub(crate) fn enter(state: &mut State, hook: u32) -> bool
    requires { IsGood state.old }
    ensures { Steps (after state.old (event.Enter hook)) result state.old state.new }
{
    let Some(view) = state.hooks.get(hook) else {
        return false;
    };
    let At::Outside = view.at else {
        return false;
    };
    if view.left == 0 {
        return false;
    }
    let phase = (state.choice >> 32) as u32;
    state.choice += 1;
    state.hooks.enter(hook, phase);
    true
}

/// The first key of a row is claimed for a job.
pub(crate) fn claim_first(state: &mut State, hook: u32, job: &Job) -> Result<bool, AllocError>
    requires { IsGood state.old }
    ensures ok { IfOk result (λ done.
        Steps (after state.old (event.ClaimFirst hook job.now)) done state.old state.new) }
    ensures err { OnErr result (state.new ≡ state.old) }
{
    let Some(view) = state.hooks.get(hook) else {
        return Ok(false);
    };
    let Some(at) = view.at.first_turn(job) else {
        return Ok(false);
    };
    let key = pack1(&at.job.label);
    let row = place(key, pack2(&at.job.label), at.turn, state.rows);
    let word = word_of(state.rows, at.phase, row, 0);
    let found = state.words.get(word);
    state.hooks.find_first(hook, state.rows, at, key, found)?;
    state.words.set(word, claimed(key, found));
    Ok(true)
}

/// The second key of a row is claimed.
pub(crate) fn claim_second(state: &mut State, hook: u32) -> Result<bool, AllocError>
    requires { IsGood state.old }
    ensures ok { IfOk result (λ done.
        Steps (after state.old (event.ClaimSecond hook)) done state.old state.new) }
    ensures err { OnErr result (state.new ≡ state.old) }
{
    let Some(view) = state.hooks.get(hook) else {
        return Ok(false);
    };
    let Some(at) = view.at.second_turn() else {
        return Ok(false);
    };
    let key = pack2(&at.job.label);
    let row = place(pack1(&at.job.label), key, at.turn, state.rows);
    let word = word_of(state.rows, at.phase, row, 1);
    let found = state.words.get(word);
    state
        .hooks
        .find_second(hook, state.rows, at, key, row, found)?;
    state.words.set(word, claimed(key, found));
    Ok(true)
}

/// The packets of the job under way are added to its row, or the bytes after them, which completes its charge.
pub(crate) fn add(state: &mut State, hook: u32) -> Result<bool, AllocError>
    requires { IsGood state.old }
    ensures ok { IfOk result (λ done. Steps (after state.old (event.Add hook)) done state.old state.new) }
    ensures err { OnErr result (state.new ≡ state.old) }
{
    let Some(view) = state.hooks.get(hook) else {
        return Ok(false);
    };
    let At::Adding {
        phase,
        charges,
        job,
        row,
        packets_done,
    } = view.at
    else {
        return Ok(false);
    };
    if packets_done {
        let word = word_of(state.rows, phase, row, bytes_column(job.dir));
        let bytes = state.words.get(word) + job.bytes;
        state.hooks.record(hook, phase, charges, job, true)?;
        state.words.set(word, bytes);
        return Ok(true);
    }
    let word = word_of(state.rows, phase, row, packets_column(job.dir));
    let packets = state.words.get(word) + job.packets;
    state.words.set(word, packets);
    state.hooks.stand(
        hook,
        At::Adding {
            phase,
            charges,
            job,
            row,
            packets_done: true,
        },
    );
    Ok(true)
}

/// A call ends.
pub(crate) fn exit(state: &mut State, hook: u32) -> bool
    requires { IsGood state.old }
    ensures { Steps (after state.old (event.Exit hook)) result state.old state.new }
{
    let Some(view) = state.hooks.get(hook) else {
        return false;
    };
    let At::Inside { phase, .. } = view.at else {
        return false;
    };
    state.exits = one_more(state.exits, phase);
    state.hooks.stand(hook, At::Outside);
    true
}

/// The exits of both sides, after one more of a phase's side.
fn one_more(exits: (u64, u64), phase: u32) -> (u64, u64)
    requires { exits_at exits phase < 2 ^ 28 }
    ensures { result ≡ machine.one_more exits phase }
{
    if phase % 2 == 0 {
        (exits.0 + 1, exits.1)
    } else {
        (exits.0, exits.1 + 1)
    }
}

/// A new hook gets some of a hook's calls.
pub(crate) fn split(alloc: Global, state: &mut State, hook: u32, n: u64) -> Result<bool, AllocError>
    requires { IsGood state.old }
    ensures ok { IfOk result (λ done. Steps (after state.old (event.Split hook n)) done state.old state.new) }
    ensures err { OnErr result (state.new ≡ state.old) }
{
    let Some(view) = state.hooks.get(hook) else {
        return Ok(false);
    };
    let At::Outside = view.at else {
        return Ok(false);
    };
    if n > view.left {
        return Ok(false);
    }
    let phase = view.phase;
    state.hooks.push(HookView {
        left: n,
        made: 0,
        phase,
        at: At::Outside,
        list: ChargeList::new(alloc),
    })?;
    state.hooks.cut(hook, n);
    Ok(true)
}

/// One hook takes what another has.
pub(crate) fn join(
    alloc: Global,
    state: &mut State,
    hook: u32,
    other: u32,
) -> Result<bool, AllocError>
    requires { IsGood state.old }
    ensures ok { IfOk result (λ done.
        Steps (after state.old (event.Join hook other)) done state.old state.new) }
    ensures err { OnErr result (state.new ≡ state.old) }
{
    let Some(view) = state.hooks.get(hook) else {
        return Ok(false);
    };
    let Some(second) = state.hooks.get(other) else {
        return Ok(false);
    };
    let At::Outside = view.at else {
        return Ok(false);
    };
    let At::Outside = second.at else {
        return Ok(false);
    };
    if hook == other {
        return Ok(false);
    }
    let joined = HookView {
        left: view.left + second.left,
        made: view.made + second.made,
        phase: view.phase.max(second.phase),
        at: At::Outside,
        list: both(alloc, &view.list, &second.list)?,
    };
    let gone = HookView {
        left: 0,
        made: 0,
        phase: 0,
        at: At::Gone,
        list: ChargeList::new(alloc),
    };
    state.hooks.set(hook, joined);
    state.hooks.set(other, gone);
    Ok(true)
}
