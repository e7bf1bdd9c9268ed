//! The program: it runs a loader script on a code server and reports what the run did.
#![tactic(auto)]

#[cfg(test)]
mod answer_tests;
mod check_form;
#[cfg(test)]
mod check_tests;
#[cfg(test)]
mod fault_tests;
mod form;
#[cfg(test)]
mod held_tests;
mod make_form;
#[cfg(test)]
mod outside_tests;
mod progress_form;
mod run_form;
#[cfg(test)]
mod run_tests;
#[cfg(test)]
mod tests;
mod top;
mod trial_form;
mod work;

use outside::{NO_MEMORY, StdSink, StdSource};
use std::alloc::Global;
use std::env;
use std::io::ErrorKind;
use std::process::ExitCode;
use std::rt::Env;
use term_core::NoMemory;
use top::beam_top;
use write_permit::NoGate;

/// Runs the top call on the words after the program's name, standard input and standard output.
fn main(rt: HostRuntime) -> ExitCode {
    let mut source = StdSource::new(rt.stdin());
    let mut sink = StdSink::new(rt.stdout());
    let status = match words_of(&rt) {
        Ok(words) => {
            let words = words.as_slice();
            beam_top(&rt, rt.alloc(), words, &mut source, &mut sink, &NoGate).status
        }
        Err(NoMemory) => NO_MEMORY,
    };
    ExitCode::from(status)
}

/// The words after the program's name. Where one of them is no text, there are none, which is no form.
fn words_of<R: Env + Alloc<A = Global>>(rt: &R) -> Result<Vec<String>, NoMemory> {
    match env::args(rt) {
        Ok(words) => Ok(words.skip(1).collect(rt.alloc())?),
        Err(fault) if fault.kind() == ErrorKind::OutOfMemory => Err(NoMemory),
        Err(_) => Ok(Vec::new(rt.alloc())),
    }
}
