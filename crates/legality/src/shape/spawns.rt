ghost use Rattle.std.specs.Prelude.{◌≡◌, ◌∷◌, ◌+◌, ◌<◌, ◌↔◌, ℕ, List, length, slice_get, slice_index, IsTrue, IfSome};
ghost use Rattle.script_core.specs.Sound.{IsScript};
ghost use Rattle.run_log.specs.declared.logs.Entry.{Entry};
ghost use Rattle.run_log.specs.Journal.{publishes};
ghost use Rattle.run_log.specs.Legal.{SpawnBeforeTurns, commands_in, commands_of};
ghost use Rattle.legality.specs.SpawnNumbers.{is_spawn, spawning_loader, BeginsFrom, HasMovedOn, LaterSpawnsFit};

use crate::shape::generations::publishes;
use run_log::{Entry, ProcessLog, RunLog, Who};
use script_core::{Script, first_numbers};
use server_core::Cmd;

fn is_spawn(cmd: &Cmd) -> bool
    ensures { result ≡ is_spawn cmd.now }
{
    matches!(cmd, Cmd::Spawn { .. })
}

// The loader that an entry is a spawn of, if it is one.
fn spawning_loader(entry: &Entry) -> Option<usize>
    ensures { result ≡ spawning_loader entry.now }
{
    match entry.who {
        Who::Loader(loader) if is_spawn(&entry.cmd) => Some(loader as usize),
        _ => None,
    }
}

// Whether the first turn of a process is under no older generation than so many.
fn begins_from(process: &ProcessLog, published: u64) -> bool
    ensures { IsTrue result ↔ BeginsFrom published process.now }
{
    match process.spans.as_slice().first() {
        Some(span) => published <= span.generation,
        None => true,
    }
}

// Whether a loader's next process begins under what was published before. The process behind it is then the next one.
fn next_begins_from(
    processes: &[ProcessLog],
    numbers: &mut [usize],
    loader: usize,
    published: u64,
) -> bool
    requires { loader < length numbers.old }
    ensures answer { IsTrue result ↔ IfSome (slice_get processes.now (slice_index numbers.old loader)) (BeginsFrom published) }
    ensures next { HasMovedOn (length processes.now) loader numbers.old numbers.new }
{
    let number = numbers[loader];
    match processes.get(number) {
        Some(process) => {
            numbers[loader] = number + 1;
            begins_from(process, published)
        }
        None => true,
    }
}

// Whether the process that an entry spawns, if it spawns one, begins under what was published before.
fn has_seen_spawn(
    entry: &Entry,
    processes: &[ProcessLog],
    numbers: &mut [usize],
    published: u64,
) -> bool
    ensures { (journal : List Entry) → LaterSpawnsFit processes.now published numbers.old (entry.now ∷ journal) ↔ IsTrue result × LaterSpawnsFit processes.now (published + publishes entry.now) numbers.new journal }
{
    let Some(loader) = spawning_loader(entry) else {
        return true;
    };
    if loader >= numbers.len() {
        return true;
    }
    next_begins_from(processes, numbers, loader, published)
}

/// Whether the first turn of each process is under a generation that its spawn had seen, or a later one.
///
/// It goes over the journal once.
pub fn spawns_come_first(script: &Script, log: &RunLog) -> bool
    requires script { IsScript script.now }
    requires in_order { (loader : ℕ) → commands_in loader log.now.journal ≡ commands_of script.now loader }
    ensures { IsTrue result ↔ SpawnBeforeTurns script.now log.now }
{
    let processes = log.processes.as_slice();
    let mut numbers = first_numbers(&script.loaders);
    let mut published = 0;
    for entry in log.journal.as_slice() {
        if !has_seen_spawn(entry, processes, &mut numbers, published) {
            return false;
        }
        published += publishes(entry);
    }
    true
}
