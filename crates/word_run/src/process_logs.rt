//! The logs of the processes at the end of a run.

ghost use Rattle.std.specs.Prelude.{◌≡◌, ◌<◌, IfOk, length, slice_get, slice_set, None};
ghost use Rattle.script_core.specs.Processes.{spawn_count, spawns_of};
ghost use Rattle.script_core.specs.Sound.{IsScript};
ghost use Rattle.word_run.specs.Finished.{AreLogged, IsLogOfRun};
ghost use Rattle.word_lap.specs.Laws.{log_of_run};

use machine_core::{End, Process};
use run_log::{ProcessLog, ProcessLogList};
use script_core::{CommandList, Script, ScriptCmd};
use std::alloc::Global;
use term_core::NoMemory;
use word_lap::ProcessRun;

/// The log of each process of the script, by number. Process p stands at place p of the scheduler p modulo their count; where one is missing, which
/// never happens, there is no log.
pub fn process_logs(
    alloc: Global,
    script: &Script,
    processes: Vec<Vec<Option<ProcessRun>>>,
) -> Result<ProcessLogList, NoMemory>
    requires script { IsScript script.now }
    requires some { 0 < length processes.items }
    ensures { IfOk result (AreLogged processes.items (length (spawns_of 0 script.now.loaders))) }
{
    let mut processes = processes;
    let homes = processes.len();
    let mut logs = ProcessLogList::new(alloc);
    for number in 0..count_spawns(script) {
        let log = taken_log(number, &mut processes[number % homes])?;
        logs.push(log)?;
    }
    Ok(logs)
}

/// The log of the process at a place.
fn taken_log(number: usize, places: &mut Vec<Option<ProcessRun>>) -> Result<ProcessLog, NoMemory>
    ensures log { IfOk result (IsLogOfRun (slice_get places.old.items number)) }
    ensures places { places.new.items ≡ slice_set places.old.items number None }
{
    if number >= places.len() {
        return Err(NoMemory);
    }
    match places[number].take() {
        Some(run) => Ok(log_of(run)),
        None => Err(NoMemory),
    }
}

/// How many processes a script makes.
fn count_spawns(script: &Script) -> usize
    requires { IsScript script.now }
    ensures { result ≡ length (spawns_of 0 script.now.loaders) }
{
    let mut count = 0;
    for commands in script.loaders.as_slice() {
        count += count_in(commands);
    }
    count
}

/// How many processes these commands make.
fn count_in(commands: &CommandList) -> usize
    ensures { result ≡ spawn_count commands.now }
{
    let mut count = 0;
    for command in commands.as_slice() {
        if let ScriptCmd::Spawn { .. } = command {
            count += 1;
        }
    }
    count
}

/// The log of a process that has ended.
fn log_of(run: ProcessRun) -> ProcessLog
    ensures { result ≡ log_of_run run }
{
    let ProcessRun {
        process,
        spans,
        fin,
    } = run;
    let Process { target, args, .. } = process;
    ProcessLog {
        target,
        args,
        spans,
        fin: fin.unwrap_or(End::Normal),
    }
}
