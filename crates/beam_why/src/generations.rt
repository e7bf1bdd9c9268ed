// Where the generations of a log, or the counts of its snapshots, are not those that it may have.
ghost use Rattle.script_core.specs.Sound.{IsScript};

use crate::expected::Expected;
use crate::finding::Finding;
use legality::Place;
use run_log::{Entry, ProcessLog, RunLog, SnapshotList, Who};
use script_core::{Script, first_numbers};
use server_core::Cmd;
use term_core::NoMemory;

/// The first process whose first turn is under an older generation than its spawn saw.
pub fn expected_first_turn(
    script: &Script,
    log: &RunLog,
    expected: &mut Expected,
) -> Result<Option<Finding>, NoMemory>
    requires { IsScript script.now }
{
    let mut numbers = first_numbers(&script.loaders);
    let Some((process, generation)) = first_early(log, &mut numbers) else {
        return Ok(None);
    };
    expected.say_number(b"a first turn under generation ", generation)?;
    expected.say(b", which its spawn saw, or a later one")?;
    Ok(Some(Finding::new(Place::Span { process, span: 0 })))
}

/// The first process whose first turn is under an older generation than its spawn saw, and that generation. So many processes come
/// before those of each loader.
fn first_early(log: &RunLog, numbers: &mut [usize]) -> Option<(usize, u64)> {
    let mut published = 0u64;
    for entry in log.journal.as_slice() {
        if let Some(number) = spawned(entry, numbers) {
            if begins_before(log, number, published) {
                return Some((number, published));
            }
        }
        published = entry.published.unwrap_or(published);
    }
    None
}

/// The number of the process that an entry spawns. The next spawn of its loader has the next number.
fn spawned(entry: &Entry, numbers: &mut [usize]) -> Option<usize> {
    let Who::Loader(loader) = entry.who else {
        return None;
    };
    let Cmd::Spawn { .. } = &entry.cmd else {
        return None;
    };
    let next = numbers.get_mut(loader as usize)?;
    let number = *next;
    *next = number.saturating_add(1);
    Some(number)
}

fn begins_before(log: &RunLog, number: usize, published: u64) -> bool {
    let Some(process) = log.processes.get(number) else {
        return false;
    };
    match process.spans.as_slice().first() {
        Some(span) => span.generation < published,
        None => false,
    }
}

/// The first span under an older generation than the one before it.
pub fn expected_later_span(
    log: &RunLog,
    expected: &mut Expected,
) -> Result<Option<Finding>, NoMemory> {
    let Some((at, generation)) = first_falling_span(log) else {
        return Ok(None);
    };
    say_not_before(generation, expected)?;
    Ok(Some(Finding::new(at)))
}

/// The first span that falls, and the generation before it.
fn first_falling_span(log: &RunLog) -> Option<(Place, u64)> {
    for (process, told) in log.processes.as_slice().iter().enumerate() {
        if let Some((span, generation)) = falling_span(told) {
            return Some((Place::Span { process, span }, generation));
        }
    }
    None
}

/// The first span of a process that falls, and the generation before it.
fn falling_span(process: &ProcessLog) -> Option<(usize, u64)> {
    let mut last = 0;
    for (place, span) in process.spans.as_slice().iter().enumerate() {
        if span.generation < last {
            return Some((place, last));
        }
        last = span.generation;
    }
    None
}

fn say_not_before(generation: u64, expected: &mut Expected) -> Result<(), NoMemory> {
    expected.say_number(b"generation ", generation)?;
    expected.say(b" or a later one, as before it")
}

/// The first observer with more or fewer snapshots than its line says, or one that falls.
pub fn expected_snapshot(
    script: &Script,
    log: &RunLog,
    expected: &mut Expected,
) -> Result<Option<Finding>, NoMemory> {
    for (observer, shots) in log.observers.as_slice().iter().enumerate() {
        let wanted = count_at(script, observer);
        if shots.len() as u64 != wanted {
            expected.say_number(b"so many snapshots of this observer: ", wanted)?;
            let snapshot = shots.len();
            return Ok(Some(Finding::new(Place::Snapshot { observer, snapshot })));
        }
        if let Some((snapshot, generation)) = falling_snapshot(shots) {
            say_not_before(generation, expected)?;
            return Ok(Some(Finding::new(Place::Snapshot { observer, snapshot })));
        }
    }
    Ok(None)
}

/// How many snapshots an observer of the script takes.
fn count_at(script: &Script, observer: usize) -> u64 {
    match script.observers.get(observer) {
        Some(count) => *count,
        None => 0,
    }
}

/// The first snapshot that falls, and the generation before it.
fn falling_snapshot(shots: &SnapshotList) -> Option<(usize, u64)> {
    let mut last = 0;
    for (place, shot) in shots.as_slice().iter().enumerate() {
        if shot.generation < last {
            return Some((place, last));
        }
        last = shot.generation;
    }
    None
}
