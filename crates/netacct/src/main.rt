//! The program `netacct`: it replays the script on its standard input and prints the dump.
//!
//! All that it does is `replay_main`'s `run`, over the real standard streams. Its status is that of the
//! run, and the text of a fault goes to standard error.
#![tactic(auto)]

#[cfg(test)]
mod tests;

use hook_engine::NoTally;
use outside::{ArgList, NoGate, StdSink, StdSource};
use replay_main::{Fault, run};
use std::io::ErrorKind;
use std::process::ExitCode;
use std::{env, io};

// The words that the program is called with, without its own name.
fn words(rt: &HostRuntime) -> io::Result<ArgList> {
    let mut words = ArgList::new(rt.alloc());
    for word in env::args(rt)?.skip(1) {
        words.push(word)?;
    }
    Ok(words)
}

// Why there are no words: memory was wanting, or one of them is no text, as no word of the program is.
fn no_words(error: &io::Error) -> Fault {
    if error.kind() == ErrorKind::OutOfMemory {
        Fault::Memory
    } else {
        Fault::Usage
    }
}

// Prints a fault's text. Where even that cannot be printed, the status alone tells the fault.
fn print_fault(rt: &HostRuntime, fault: Fault) {
    let _ = eprintln!(rt; "{fault}");
}

fn main(rt: HostRuntime) -> ExitCode {
    let words = match words(&rt) {
        Ok(words) => words,
        Err(error) => {
            let fault = no_words(&error);
            print_fault(&rt, fault);
            return ExitCode::from(fault.status());
        }
    };
    let mut source = StdSource::new(rt.stdin());
    let mut sink = StdSink::new(rt.stdout());
    let outcome = run(
        &rt,
        rt.alloc(),
        &words,
        &mut source,
        &mut sink,
        &NoGate,
        &mut NoTally,
    );
    if let Some(fault) = outcome.fault {
        print_fault(&rt, fault);
    }
    ExitCode::from(outcome.status)
}
