//! The program `table_costs`: it does one thing to a table very often, so that a clock outside can tell
//! what it costs once. `bench/table_costs` is that clock.
//!
//! Its words are `SUBJECT SPREAD ROWS KEYS CALLS`. The subject is `charges`, `reads`, `adds`,
//! `hooks` or `nothing`, and the spread `near` or `far`. A table of ROWS rows gets KEYS keys, and then CALLS calls
//! go to them in a scattered order. The line that it prints ends with a sum of what the calls gave, so
//! that no call can be left out.
#![tactic(auto)]

ghost use Rattle.std.specs.Prelude.{◌≡◌, ◌+◌, IfOk};

mod adds;
mod charges;
mod hooks;
mod keys;
mod nothing;
mod plan;
mod reads;
mod table;

use adds::Adds;
use charges::Charges;
use hooks::Hooks;
use nothing::Nothing;
use outside::ArgList;
use plan::{Plan, Subject};
use reads::Reads;
use std::alloc::{AllocError, Global};
use std::process::ExitCode;
use std::{env, io};
use table::{Tally, all_turns};

const USAGE: &str = "usage: table_costs charges|reads|adds|hooks|nothing near|far ROWS KEYS CALLS";

// The words that the program is called with, without its own name.
fn words(rt: &HostRuntime) -> io::Result<ArgList> {
    let mut words = ArgList::new(rt.alloc());
    for word in env::args(rt)?.skip(1) {
        words.push(word)?;
    }
    Ok(words)
}

// Fills the table that is asked for, and makes the calls.
fn tally_of(alloc: Global, plan: &Plan) -> Result<Tally, AllocError>
    ensures { IfOk result (λ t. t.hits + t.misses ≡ plan.now.calls) }
{
    match plan.subject {
        Subject::Charges => {
            let mut table = Charges::new(alloc, plan)?;
            Ok(all_turns(&mut table, plan))
        }
        Subject::Reads => {
            let mut table = Reads::new(alloc, plan)?;
            Ok(all_turns(&mut table, plan))
        }
        Subject::Adds => {
            let mut table = Adds::new(alloc, plan)?;
            Ok(all_turns(&mut table, plan))
        }
        Subject::Hooks => {
            let mut table = Hooks::new(alloc, plan)?;
            Ok(all_turns(&mut table, plan))
        }
        Subject::Nothing => Ok(all_turns(&mut Nothing, plan)),
    }
}

// Prints what was done.
fn print_tally(rt: &HostRuntime, plan: &Plan, tally: &Tally) -> io::Result<()> {
    let subject = plan.subject.word();
    let spread = plan.spread.word();
    let Plan {
        rows,
        keys,
        calls,
        ..
    } = plan;
    let Tally { hits, misses, sum } = tally;
    println!(rt;
        "{subject} {spread} rows {rows} keys {keys} calls {calls} hits {hits} misses {misses} sum {sum}"
    )
}

fn main(rt: HostRuntime) -> io::Result<ExitCode> {
    let Some(plan) = Plan::of(&words(&rt)?) else {
        eprintln!(rt; "{USAGE}")?;
        return Ok(ExitCode::from(2));
    };
    let tally = tally_of(rt.alloc(), &plan)?;
    print_tally(&rt, &plan, &tally)?;
    Ok(ExitCode::from(0))
}
