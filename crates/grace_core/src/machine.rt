//! One event of the machine.

ghost use Rattle.std.specs.Prelude.{◌≡◌, IfOk, OnErr};
ghost use Rattle.grace_core.specs.Good.{IsGood};
ghost use Rattle.grace_core.specs.Machine.{after, Steps};

use crate::collector_steps::{flip, load_exits, reopen, take_word};
use crate::event::Event;
use crate::hook_steps::{add, claim_first, claim_second, enter, exit, join, split};
use crate::state::State;
use std::alloc::{AllocError, Global};

/// Makes an event and answers true, or answers false exactly where the event is not enabled; then the state stays
/// as it was. Where memory is wanting it stays as well.
///
/// A good state stays good: see [`crate::every_state_is_good`] for what that says of each list of events.
pub fn step(alloc: Global, state: &mut State, event: &Event) -> Result<bool, AllocError>
    requires { IsGood state.old }
    ensures done { IfOk result (λ done. Steps (after state.old event.now) done state.old state.new) }
    ensures err { OnErr result (state.new ≡ state.old) }
    ensures good { IsGood state.new }
{
    match *event {
        Event::Enter { hook } => Ok(enter(state, hook)),
        Event::ClaimFirst { hook, job } => claim_first(state, hook, &job),
        Event::ClaimSecond { hook } => claim_second(state, hook),
        Event::Add { hook } => add(state, hook),
        Event::Exit { hook } => Ok(exit(state, hook)),
        Event::Split { hook, n } => split(alloc, state, hook, n),
        Event::Join { hook, other } => join(alloc, state, hook, other),
        Event::Flip => Ok(flip(state)),
        Event::LoadExits => Ok(load_exits(alloc, state)),
        Event::TakeWord => take_word(state),
        Event::Reopen => reopen(alloc, state),
    }
}
