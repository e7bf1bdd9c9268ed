// The first entry that is not the next command of its loader.
use crate::expected::Expected;
use crate::finding::Finding;
use crate::shown::quote_command;
use legality::Place;
use run_log::{Entry, RunLog, Who};
use script_core::{LoaderList, MOST_LOADERS, Script, ScriptCmd};
use server_core::Cmd;
use std::alloc::Global;
use term_core::NoMemory;

/// The first entry that is not the next command of its loader, or the first loader with commands left.
pub fn expected_command(
    alloc: Global,
    script: &Script,
    log: &RunLog,
    expected: &mut Expected,
) -> Result<Option<Finding>, NoMemory> {
    let mut places = [0usize; MOST_LOADERS];
    let first = match first_other(&script.loaders, log, &mut places) {
        Some((place, loader)) => Some((Place::Entry(place), loader)),
        None => first_left(&script.loaders, &places),
    };
    let Some((at, loader)) = first else {
        return Ok(None);
    };
    say_next(alloc, script, loader, place_of(&places, loader), expected)?;
    Ok(Some(Finding::new(at)))
}

/// The first entry that is not the next command of its loader, by its place, and that loader.
fn first_other(loaders: &LoaderList, log: &RunLog, places: &mut [usize]) -> Option<(usize, usize)> {
    for (place, entry) in log.journal.as_slice().iter().enumerate() {
        if let Some(loader) = other_than_next(loaders, entry, places) {
            return Some((place, loader));
        }
    }
    None
}

/// The first loader with commands left behind the last entry.
fn first_left(loaders: &LoaderList, places: &[usize]) -> Option<(Place, usize)> {
    for (loader, commands) in loaders.as_slice().iter().enumerate() {
        if place_of(places, loader) < commands.len() {
            return Some((Place::End, loader));
        }
    }
    None
}

/// How many commands of a loader were made.
fn place_of(places: &[usize], loader: usize) -> usize {
    match places.get(loader) {
        Some(place) => *place,
        None => 0,
    }
}

/// Says the next command of a loader, by its number from 1 on.
fn say_next(
    alloc: Global,
    script: &Script,
    loader: usize,
    next: usize,
    expected: &mut Expected,
) -> Result<(), NoMemory> {
    let Some(command) = command_at(&script.loaders, loader, next) else {
        return expected.say_number(b"no further command of L", loader as u64);
    };
    quote_command(alloc, &script.names, command, expected)?;
    expected.say_number(b", command ", next.saturating_add(1) as u64)?;
    expected.say_number(b" of L", loader as u64)
}

/// The loader of an entry that is not its next command. One that is takes the loader on.
fn other_than_next(loaders: &LoaderList, entry: &Entry, places: &mut [usize]) -> Option<usize> {
    let Who::Loader(number) = entry.who else {
        return None;
    };
    if let Cmd::Doom(_) | Cmd::Release(_) = &entry.cmd {
        return None;
    }
    let loader = number as usize;
    let Some(place) = places.get_mut(loader) else {
        return Some(loader);
    };
    match command_at(loaders, loader, *place) {
        Some(command) if is_made_of(&entry.cmd, command) => {
            *place = place.saturating_add(1);
            None
        }
        _ => Some(loader),
    }
}

fn command_at(loaders: &LoaderList, loader: usize, place: usize) -> Option<&ScriptCmd> {
    loaders.get(loader)?.get(place)
}

/// Whether a command of the journal is this one of the script.
fn is_made_of(cmd: &Cmd, command: &ScriptCmd) -> bool {
    match (cmd, command) {
        (Cmd::Load(refs), ScriptCmd::Load(wanted)) => refs.as_slice() == wanted.as_slice(),
        (Cmd::Delete(module), ScriptCmd::Delete(wanted)) => module == wanted,
        (Cmd::SoftPurge { module, .. }, ScriptCmd::SoftPurge(wanted)) => module == wanted,
        (Cmd::Purge { module, .. }, ScriptCmd::Purge(wanted)) => module == wanted,
        (Cmd::CheckOld(module), ScriptCmd::CheckOld(wanted)) => module == wanted,
        (
            Cmd::Put { key, term },
            ScriptCmd::Put {
                key: to,
                term: value,
            },
        ) => { key == to && term == value }
        (Cmd::Erase(key), ScriptCmd::Erase(wanted)) => key == wanted,
        (
            Cmd::Trace { target, on },
            ScriptCmd::Trace {
                target: function,
                on: set,
            },
        ) => { target == function && on == set }
        (
            Cmd::Spawn { target, args },
            ScriptCmd::Spawn {
                target: function,
                args: values,
            },
        ) => { target == function && args == values }
        _ => false,
    }
}
