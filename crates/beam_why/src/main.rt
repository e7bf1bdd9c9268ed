//! The program that says why a report is not lawful: it names a clause of a lawful log that does not hold.
#![tactic(auto)]

mod complete;
mod course;
mod expected;
mod finding;
mod generations;
mod halves;
mod hints;
mod inquiry;
mod lines;
mod lingering;
mod order;
mod places;
mod replay;
mod seen;
mod shown;
mod sightings;
mod standing;
mod turns;
mod why;
mod words;

use outside::{StdSink, StdSource};
use std::process::ExitCode;
use why::why_top;

/// Reads a script with a report behind it from standard input, and writes what is said of it to standard output.
fn main(rt: HostRuntime) -> ExitCode {
    let mut source = StdSource::new(rt.stdin());
    let mut sink = StdSink::new(rt.stdout());
    ExitCode::from(why_top(rt.alloc(), &mut source, &mut sink))
}
