//! The steps of the collector.

ghost use Rattle.std.specs.Prelude.{◌≡◌, ◌+◌, ◌*◌, IfOk, OnErr, OnOk, vec_len};
ghost use Rattle.grace_core.specs.Machine as machine;
ghost use Rattle.grace_core.specs.Machine.{after, Steps};
ghost use Rattle.grace_core.specs.Good.{IsGood};
ghost use Rattle.grace_core.specs.declared.event.Event.TheVariants as event;

use crate::rows::ascending_rows;
use crate::state::{CollectAt, CollectView, State, word_at};
use acct_base::{Snapshot, WordList};
use std::alloc::{AllocError, Global};

/// The last phase that there may be.
const LAST_PHASE: u32 = 1024;

/// The next phase becomes the live one, and the collector waits for the entries of this one.
pub(crate) fn flip(state: &mut State) -> bool
    requires { IsGood state.old }
    ensures { Steps (after state.old event.Flip) result state.old state.new }
{
    let CollectAt::Resting = state.collector.at else {
        return false;
    };
    let phase = state.collector.phase;
    if phase >= LAST_PHASE {
        return false;
    }
    let entered = state.choice % ENTRIES;
    state.choice = u64::from(phase + 1) * ENTRIES;
    state.collector = CollectView {
        phase: phase + 1,
        at: CollectAt::Waiting { entered },
    };
    true
}

/// How far the phase stands above the entries in the choice.
const ENTRIES: u64 = 4294967296;

/// Where all that entered the old phase have left it, its side is drained.
pub(crate) fn load_exits(alloc: Global, state: &mut State) -> bool
    requires { IsGood state.old }
    ensures { Steps (after state.old event.LoadExits) result state.old state.new }
{
    let CollectAt::Waiting { entered } = state.collector.at else {
        return false;
    };
    let exits = exits_at(state.exits, state.collector.phase - 1);
    if exits == entered {
        state.collector.at = CollectAt::Draining {
            next: 0,
            taken: WordList::new(alloc),
        };
    }
    true
}

/// How often the side of a phase was left.
fn exits_at(exits: (u64, u64), phase: u32) -> u64
    ensures { result ≡ machine.exits_at exits phase }
{
    if phase % 2 == 0 { exits.0 } else { exits.1 }
}

/// The next word of the old side is taken.
pub(crate) fn take_word(state: &mut State) -> Result<bool, AllocError>
    requires { IsGood state.old }
    ensures ok { IfOk result (λ done. Steps (after state.old event.TakeWord) done state.old state.new) }
    ensures err { OnErr result (state.new ≡ state.old) }
{
    let old = state.collector.phase.saturating_sub(1);
    let CollectAt::Draining { next, taken } = &mut state.collector.at else {
        return Ok(false);
    };
    if *next >= 6 * state.rows {
        return Ok(false);
    }
    let place = word_at(state.rows, old, *next);
    taken.push(state.words.get(place))?;
    *next += 1;
    state.words.set(place, 0);
    Ok(true)
}

/// The old side is given back, and what it counted becomes a snapshot.
pub(crate) fn reopen(alloc: Global, state: &mut State) -> Result<bool, AllocError>
    requires { IsGood state.old }
    ensures ok { IfOk result (λ done. Steps (after state.old event.Reopen) done state.old state.new) }
    ensures err { OnErr result (state.new ≡ state.old) }
{
    let old = state.collector.phase.saturating_sub(1);
    let CollectAt::Draining { next, taken } = &state.collector.at else {
        return Ok(false);
    };
    if *next != 6 * state.rows {
        return Ok(false);
    }
    let rows = ascending_rows(alloc, state.rows, taken)?;
    state.snapshots.push(Snapshot { phase: old, rows })?;
    state.exits = no_more(state.exits, old);
    state.collector.at = CollectAt::Resting;
    Ok(true)
}

/// The exits of both sides, where a phase's side has none any more.
fn no_more(exits: (u64, u64), phase: u32) -> (u64, u64)
    ensures { result ≡ machine.no_more exits phase }
{
    if phase % 2 == 0 {
        (0, exits.1)
    } else {
        (exits.0, 0)
    }
}
