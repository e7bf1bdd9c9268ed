// What an observer should have seen.
ghost use Rattle.std.specs.Prelude.{All};
ghost use Rattle.server_core.specs.CommandTable.{IsOfText};
ghost use Rattle.script_core.specs.Sound.{IsScript};

use crate::expected::Expected;
use crate::finding::Finding;
use crate::inquiry::Inquiry;
use crate::lines::snapshot_line;
use crate::shown::quote_export;
use legality::Place;
use run_log::{ExportList, RunLog, Snapshot, exported_functions, snapshot_of};
use script_core::Script;
use std::alloc::Global;
use term_core::{Mfa, Names, NoMemory};

/// What a snapshot should have shown of its generation.
pub fn expected_export(
    alloc: Global,
    script: &Script,
    log: &RunLog,
    observer: usize,
    snapshot: usize,
    inquiry: &mut Inquiry,
) -> Result<Option<Finding>, NoMemory>
    requires script { IsScript script.now }
    requires put { All (λ e. IsOfText e.cmd) log.now.journal }
{
    let Some(shot) = snapshot_at(log, observer, snapshot) else {
        return Ok(None);
    };
    let seen = seen_at(alloc, script, log, shot.generation, inquiry)?;
    if seen.generation != shot.generation {
        return Ok(None);
    }
    let place = same_exports(&seen.exports, &shot.exports);
    say_export(alloc, &script.names, seen, place, &mut inquiry.expected)?;
    let first = snapshot_line(log, observer, snapshot).saturating_add(1);
    Ok(Some(Finding::on_line(
        Place::Snapshot { observer, snapshot },
        first.saturating_add(place),
    )))
}

/// What an observer sees where a generation is published.
fn seen_at(
    alloc: Global,
    script: &Script,
    log: &RunLog,
    generation: u64,
    inquiry: &mut Inquiry,
) -> Result<Snapshot, NoMemory>
    requires script { IsScript script.now }
    requires put { All (λ e. IsOfText e.cmd) log.now.journal }
{
    let replay = &mut inquiry.replay;
    replay.restart(alloc)?;
    replay.make_generation(generation, &log.journal, &script.modules)?;
    let functions = exported_functions(alloc, script)?;
    snapshot_of(alloc, &replay.server, &functions)
}

fn snapshot_at(log: &RunLog, observer: usize, snapshot: usize) -> Option<&Snapshot> {
    log.observers.get(observer)?.get(snapshot)
}

/// How many exports from the first on are the same in both.
fn same_exports(exports: &ExportList, others: &ExportList) -> usize {
    let mut same = 0usize;
    for (export, other) in exports.as_slice().iter().zip(others.as_slice().iter()) {
        if !is_same(export, other) {
            return same;
        }
        same = same.saturating_add(1);
    }
    same
}

fn is_same(export: &(Mfa, u64), other: &(Mfa, u64)) -> bool {
    export.0 == other.0 && export.1 == other.1
}

/// Says which export was expected at a place, if any.
fn say_export(
    alloc: Global,
    names: &Names,
    seen: Snapshot,
    place: usize,
    expected: &mut Expected,
) -> Result<(), NoMemory> {
    if place < seen.exports.len() {
        expected.say(b"the line ")?;
        return quote_export(alloc, names, seen, place, expected);
    }
    expected.say(b"no further export of this generation")
}
