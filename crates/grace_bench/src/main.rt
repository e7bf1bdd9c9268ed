//! Does one kind of work on the shared words so often as the words after the program's name say, so that
//! its time can be taken from outside, and then writes a line of what was done. Without words it does a
//! little of each.
#![tactic(auto)]

mod delays;
mod grace;
mod holds;
mod reports;
mod scans;
mod slots;
mod tables;
mod waits;
mod works;

use delays::delay_alone;
use grace::{MOST_READERS, wait_beside};
use holds::hold_alone;
use reports::report_alone;
use scans::scan_alone;
use slots::load_alone;
use std::alloc::Global;
use std::env;
use std::io::{self, Print};
use std::process::ExitCode;
use std::sync::Wait;
use std::thread::Threads;
use term_core::NoMemory;
use works::{LITTLE, Work, work_of};

/// All was done.
const DONE: u8 = 0;

/// The words have no form.
const NOT_UNDERSTOOD: u8 = 2;

/// What was done could not be written.
const NOT_WRITTEN: u8 = 5;

/// Memory was refused.
const NO_MEMORY: u8 = 6;

fn main(rt: HostRuntime) -> ExitCode {
    let words = match env::args(&rt) {
        Ok(words) => words.skip(1).collect(rt.alloc()),
        Err(_) => Ok(Vec::new(rt.alloc())),
    };
    let status = match words {
        Ok(words) => do_words(&rt, rt.alloc(), words.as_slice()),
        Err(_) => NO_MEMORY,
    };
    ExitCode::from(status)
}

/// Does what the words ask for, or a little of each where there are none.
fn do_words<R: Threads + Wait + Sync + Print>(rt: &R, alloc: Global, words: &[String]) -> u8 {
    if words.is_empty() {
        return do_little(rt, alloc);
    }
    match work_of(words) {
        Some(work) => do_work(rt, alloc, work),
        None => NOT_UNDERSTOOD,
    }
}

/// Does a little of each work.
fn do_little<R: Threads + Wait + Sync + Print>(rt: &R, alloc: Global) -> u8 {
    for work in LITTLE {
        let status = do_work(rt, alloc, work);
        if status != DONE {
            return status;
        }
    }
    DONE
}

/// Does the work, and writes how often it was done.
fn do_work<R: Threads + Wait + Sync + Print>(rt: &R, alloc: Global, work: Work) -> u8 {
    let done = match work {
        Work::Report { times } => report_alone(alloc, times),
        Work::Hold { times } => hold_alone(alloc, times),
        Work::Scan { times } => scan_alone(rt, alloc, times),
        Work::Delay { times } => delay_alone(alloc, times),
        Work::Load { times } => load_alone(alloc, times),
        Work::Wait { readers, times } if readers > 0 && readers <= MOST_READERS => {
            wait_beside(rt, alloc, readers, times)
        }
        Work::Wait { .. } => return NOT_UNDERSTOOD,
    };
    match done {
        Ok(done) => told(write_done(rt, work, done)),
        Err(NoMemory) => NO_MEMORY,
    }
}

/// The status after a line was written.
fn told(written: io::Result<()>) -> u8 {
    match written {
        Ok(()) => DONE,
        Err(_) => NOT_WRITTEN,
    }
}

/// Writes how often the work was done.
fn write_done<R: Print>(rt: &R, work: Work, done: u32) -> io::Result<()> {
    match work {
        Work::Report { .. } => println!(rt; "report {done}"),
        Work::Hold { .. } => println!(rt; "hold {done}"),
        Work::Scan { .. } => println!(rt; "scan {done}"),
        Work::Delay { .. } => println!(rt; "delay {done}"),
        Work::Load { .. } => println!(rt; "load {done}"),
        Work::Wait { readers, .. } => println!(rt; "wait {readers} {done}"),
    }
}
