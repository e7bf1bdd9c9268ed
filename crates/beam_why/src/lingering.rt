// The soft purge that tells of a process what is not so.
ghost use Rattle.std.specs.Prelude.{All};
ghost use Rattle.server_core.specs.CommandTable.{AreTexts, IsOfText};

use crate::course::go_along;
use crate::expected::Expected;
use crate::finding::Finding;
use crate::inquiry::Inquiry;
use crate::sightings::{Sightings, Telling};
use legality::Place;
use run_log::{Entry, ProcessLog, RunLog};
use script_core::Script;
use server_core::{Cmd, Linger, Server};
use std::alloc::Global;
use term_core::{AtomId, NoMemory};

/// A soft purge that tells of a process another turn than one of those that it was after by then.
#[derive(Clone, Copy)]
struct OtherTurn {
    place: usize,
    linger: Linger,
    least: u64,
    most: u64,
}

/// The first soft purge that tells of this process what is not so, if it was found.
pub fn expected_linger(
    alloc: Global,
    script: &Script,
    log: &RunLog,
    process: usize,
    inquiry: &mut Inquiry,
) -> Result<Option<Finding>, NoMemory>
    requires texts { AreTexts script.now.modules }
    requires put { All (λ e. IsOfText e.cmd) log.now.journal }
{
    let other = first_other_turn(alloc, script, log, process, inquiry)?;
    go_along(alloc, script, log, process, u64::MAX, inquiry)?;
    match inquiry.seen.absent {
        Some(place) => stands_not(log, place, &mut inquiry.expected),
        None => told_otherwise(other, &mut inquiry.expected),
    }
}

/// That an entry tells of a process which the script does not spawn.
pub fn expected_other_process(
    log: &RunLog,
    place: usize,
    expected: &mut Expected,
) -> Result<Option<Finding>, NoMemory> {
    let Some((_, linger)) = log.journal.get(place).and_then(told_by) else {
        return Ok(None);
    };
    let number = u64::from(linger.process);
    expected.say_number(b"another answer: the script spawns no process ", number)?;
    Ok(Some(Finding::new(Place::Entry(place))))
}

/// The module of a soft purge, and who lingers in its old code, if one does.
fn told_by(entry: &Entry) -> Option<(AtomId, Linger)> {
    match &entry.cmd {
        Cmd::SoftPurge {
            module,
            lingers: Some(linger),
        } => Some((*module, *linger)),
        _ => None,
    }
}

/// The first soft purge that is wrong by the turn alone that it tells of a process. What is told before it is taken in, to be looked
/// at on the way of the process.
fn first_other_turn(
    alloc: Global,
    script: &Script,
    log: &RunLog,
    process: usize,
    inquiry: &mut Inquiry,
) -> Result<Option<OtherTurn>, NoMemory>
    requires texts { AreTexts script.now.modules }
    requires put { All (λ e. IsOfText e.cmd) log.now.journal }
{
    let Some(process_log) = log.processes.get(process) else {
        return Ok(None);
    };
    let turns = TurnCount::new(alloc, process_log)?;
    inquiry.replay.restart(alloc)?;
    let other = take_tellings(script, log, process, &turns, inquiry)?;
    inquiry.seen.sort();
    Ok(other)
}

/// Takes in what the journal tells of a process, while it is made again, up to what is wrong by its turn alone.
fn take_tellings(
    script: &Script,
    log: &RunLog,
    process: usize,
    turns: &TurnCount,
    inquiry: &mut Inquiry,
) -> Result<Option<OtherTurn>, NoMemory>
    requires texts { AreTexts script.now.modules }
    requires put { All (λ e. IsOfText e.cmd) log.now.journal }
{
    for (place, entry) in log.journal.as_slice().iter().enumerate() {
        if let Some((module, linger)) = told_of(entry, process) {
            let old = inquiry.replay.server.old(module);
            let generation = inquiry.replay.server.generation();
            if let Some(other) = turns.other_turn(generation, place, linger) {
                return Ok(Some(other));
            }
            take_telling(place, linger, old, &mut inquiry.seen)?;
        }
        inquiry.replay.step(&log.journal, &script.modules)?;
    }
    Ok(None)
}

/// What an entry tells of this process.
fn told_of(entry: &Entry, process: usize) -> Option<(AtomId, Linger)> {
    let (module, linger) = told_by(entry)?;
    if linger.process as usize == process {
        return Some((module, linger));
    }
    None
}

/// Takes in that a process lingers in old code, if there is any.
fn take_telling(
    place: usize,
    linger: Linger,
    old: Option<u64>,
    seen: &mut Sightings,
) -> Result<(), NoMemory> {
    match old {
        Some(serial) => seen.tell(Telling {
            turn: linger.turn,
            place,
            serial,
        }),
        None => Ok(()),
    }
}

/// How many turns a process has had behind each of its spans, with the generation of the span.
#[derive(Drop)]
struct TurnCount {
    behind: Vec<(u64, u64)>,
}

impl TurnCount {
    fn new(alloc: Global, process: &ProcessLog) -> Result<TurnCount, NoMemory> {
        let mut behind = Vec::new(alloc);
        let mut turns = 0u64;
        for span in process.spans.as_slice() {
            turns = turns.saturating_add(span.turns);
            behind.push((span.generation, turns))?;
        }
        Ok(TurnCount { behind })
    }

    /// How many turns the process has under the generations before one.
    fn before(&self, generation: u64) -> u64 {
        let earlier = self.behind.partition_point(|span| span.0 < generation);
        match earlier
            .checked_sub(1)
            .and_then(|last| self.behind.get(last))
        {
            Some((_, turns)) => *turns,
            None => 0,
        }
    }

    /// That the entry at a place tells another turn than the process was after under its generation.
    fn other_turn(&self, generation: u64, place: usize, linger: Linger) -> Option<OtherTurn> {
        let least = self.before(generation);
        let most = self.before(generation.saturating_add(1));
        let turn = u64::from(linger.turn);
        if turn < least || turn > most {
            return Some(OtherTurn {
                place,
                linger,
                least,
                most,
            });
        }
        None
    }
}

/// That the process was after another turn, if it was.
fn told_otherwise(
    other: Option<OtherTurn>,
    expected: &mut Expected,
) -> Result<Option<Finding>, NoMemory> {
    let Some(other) = other else {
        return Ok(None);
    };
    let number = u64::from(other.linger.process);
    expected.say_number(b"another answer: by then process ", number)?;
    if other.least == other.most {
        expected.say_number(b" was after its turn ", other.most)?;
    } else {
        expected.say_number(b" was after one of its turns ", other.least)?;
        expected.say_number(b" to ", other.most)?;
    }
    Ok(Some(Finding::new(Place::Entry(other.place))))
}

/// That the process does not stand where the soft purge at a place tells it.
fn stands_not(
    log: &RunLog,
    place: usize,
    expected: &mut Expected,
) -> Result<Option<Finding>, NoMemory> {
    let Some((_, linger)) = log.journal.get(place).and_then(told_by) else {
        return Ok(None);
    };
    let number = u64::from(linger.process);
    expected.say_number(b"another answer: process ", number)?;
    let turn = u64::from(linger.turn);
    expected.say_number(b" does not stand in that old code after turn ", turn)?;
    Ok(Some(Finding::new(Place::Entry(place))))
}
