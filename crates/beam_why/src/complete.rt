// What is missing in a log, is too much, or is of a generation that was not published.
use crate::expected::Expected;
use crate::finding::Finding;
use crate::shown::quote_call;
use legality::Place;
use run_log::{ProcessLog, RunLog, SnapshotList};
use script_core::{CommandList, Script, ScriptCmd};
use std::alloc::Global;
use term_core::NoMemory;

/// What is missing in a log, is too much, or is of a generation that was not published.
pub fn expected_part(
    alloc: Global,
    script: &Script,
    log: &RunLog,
    expected: &mut Expected,
) -> Result<Option<Finding>, NoMemory> {
    if let Some(number) = first_other(script, log) {
        say_spawn(alloc, script, number, expected)?;
        return Ok(Some(Finding::new(Place::Process(number))));
    }
    let published = published_in(log);
    let Some(at) = first_unfit(script, log, published) else {
        return Ok(None);
    };
    say_unfit(script, log, at, published, expected)?;
    Ok(Some(Finding::new(at)))
}

/// The first number at which the log has another process than the script spawns, or one of both has none.
fn first_other(script: &Script, log: &RunLog) -> Option<usize> {
    for (number, process) in log.processes.as_slice().iter().enumerate() {
        if !is_log_of(process, spawn_at(script, number)) {
            return Some(number);
        }
    }
    let next = log.processes.len();
    match spawn_at(script, next) {
        Some(_) => Some(next),
        None => None,
    }
}

/// Whether the log of a process is that of this spawn.
fn is_log_of(process: &ProcessLog, spawn: Option<&ScriptCmd>) -> bool {
    match spawn {
        Some(ScriptCmd::Spawn { target, args }) => {
            process.target == *target && process.args == *args
        }
        _ => false,
    }
}

/// Says the process that the script spawns by this number, or that it spawns no further one.
fn say_spawn(
    alloc: Global,
    script: &Script,
    number: usize,
    expected: &mut Expected,
) -> Result<(), NoMemory> {
    match spawn_at(script, number) {
        Some(ScriptCmd::Spawn { target, args }) => {
            expected.say_number(b"a log of process ", number as u64)?;
            expected.say(b", ")?;
            quote_call(alloc, &script.names, *target, args, expected)
        }
        _ => expected.say_number(b"no further process: the script spawns ", number as u64),
    }
}

/// The spawn with this number in the script, counted from 0.
fn spawn_at(script: &Script, number: usize) -> Option<&ScriptCmd> {
    let mut left = number;
    for commands in script.loaders.as_slice() {
        if let Some(spawn) = spawn_in(commands, &mut left) {
            return Some(spawn);
        }
    }
    None
}

/// The spawn of a loader behind so many others. Where it has fewer, they are counted off.
fn spawn_in<'a>(commands: &'a CommandList, left: &mut usize) -> Option<&'a ScriptCmd> {
    for command in commands.as_slice() {
        if let ScriptCmd::Spawn { .. } = command {
            if *left == 0 {
                return Some(command);
            }
            *left -= 1;
        }
    }
    None
}

/// The first place that lacks something, or is of a generation that was not published.
fn first_unfit(script: &Script, log: &RunLog, published: u64) -> Option<Place> {
    match unfit_process(log, published) {
        Some(at) => Some(at),
        None => unfit_observer(script, log, published),
    }
}

/// The first process that has no turn, or the first span of one under a generation that was not published.
fn unfit_process(log: &RunLog, published: u64) -> Option<Place> {
    for (process, told) in log.processes.as_slice().iter().enumerate() {
        if told.spans.is_empty() {
            return Some(Place::Process(process));
        }
        if let Some(span) = unpublished_span(told, published) {
            return Some(Place::Span { process, span });
        }
    }
    None
}

/// The first observer that is missing or is too many, or the first snapshot of a generation that was not published.
fn unfit_observer(script: &Script, log: &RunLog, published: u64) -> Option<Place> {
    let wanted = script.observers.len();
    if log.observers.len() != wanted {
        let observer = log.observers.len().min(wanted);
        return Some(Place::Snapshot {
            observer,
            snapshot: 0,
        });
    }
    for (observer, shots) in log.observers.as_slice().iter().enumerate() {
        if let Some(snapshot) = unpublished_snapshot(shots, published) {
            return Some(Place::Snapshot { observer, snapshot });
        }
    }
    None
}

fn unpublished_snapshot(shots: &SnapshotList, published: u64) -> Option<usize> {
    for (snapshot, shot) in shots.as_slice().iter().enumerate() {
        if shot.generation > published {
            return Some(snapshot);
        }
    }
    None
}

fn unpublished_span(process: &ProcessLog, published: u64) -> Option<usize> {
    for (place, span) in process.spans.as_slice().iter().enumerate() {
        if span.generation > published {
            return Some(place);
        }
    }
    None
}

/// How many generations the log publishes.
fn published_in(log: &RunLog) -> u64 {
    let mut count = 0u64;
    for entry in log.journal.as_slice() {
        if entry.published.is_some() {
            count = count.saturating_add(1);
        }
    }
    count
}

/// Says what was expected at a place that lacks something, or is of a generation that was not published.
fn say_unfit(
    script: &Script,
    log: &RunLog,
    at: Place,
    published: u64,
    expected: &mut Expected,
) -> Result<(), NoMemory> {
    let wanted = script.observers.len();
    match at {
        Place::Process(_) => expected.say(b"a turn of this process"),
        Place::Snapshot { .. } if log.observers.len() != wanted => expected.say_number(
            b"what each observer of the script saw, so many: ",
            wanted as u64,
        ),
        _ => expected.say_number(b"a generation that was published: 0 to ", published),
    }
}
