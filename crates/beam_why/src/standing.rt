// The process that stands in code that is dropped, or that names an area that is released.
ghost use Rattle.std.specs.Prelude.{All};
ghost use Rattle.server_core.specs.CommandTable.{AreTexts, IsOfText};

use crate::course::go_along;
use crate::expected::Expected;
use crate::finding::Finding;
use crate::inquiry::Inquiry;
use crate::replay::say_answer_at;
use crate::sightings::Asked;
use legality::Place;
use machine_core::{End, Frame, Process, Value};
use run_log::RunLog;
use script_core::Script;
use server_core::{Cmd, Server};
use std::alloc::Global;
use term_core::{AtomId, NoMemory};

/// What was expected of an entry that drops code or releases an area.
pub fn expected_unnamed(
    alloc: Global,
    script: &Script,
    log: &RunLog,
    place: usize,
    inquiry: &mut Inquiry,
) -> Result<Option<Finding>, NoMemory>
    requires texts { AreTexts script.now.modules }
    requires put { All (λ e. IsOfText e.cmd) log.now.journal }
{
    let Some(entry) = log.journal.get(place) else {
        return Ok(None);
    };
    let generation = give_up(alloc, script, log, place, &entry.cmd, inquiry)?;
    if let Some(number) = first_naming(alloc, script, log, generation, inquiry)? {
        say_still_there(number, &entry.cmd, &mut inquiry.expected)?;
        return Ok(Some(Finding::new(Place::Entry(place))));
    }
    match (&entry.cmd, inquiry.seen.asked) {
        (Cmd::Purge { module, .. }, Asked::Stands(serial)) => {
            expected_kill(alloc, script, log, place, *module, serial, inquiry)
        }
        _ => Ok(None),
    }
}

/// Asks of processes what a command gives up in the place of an entry. Answers the newest generation then.
fn give_up(
    alloc: Global,
    script: &Script,
    log: &RunLog,
    place: usize,
    cmd: &Cmd,
    inquiry: &mut Inquiry,
) -> Result<u64, NoMemory>
    requires texts { AreTexts script.now.modules }
    requires put { All (λ e. IsOfText e.cmd) log.now.journal }
{
    let replay = &mut inquiry.replay;
    replay.make_before(alloc, place, &log.journal, &script.modules)?;
    inquiry.seen.asked = asked_by(&replay.server, cmd);
    Ok(replay.server.generation())
}

/// What is asked of a process for a command: of old code that it drops, or of what it releases.
fn asked_by(server: &Server, cmd: &Cmd) -> Asked {
    match cmd {
        Cmd::SoftPurge {
            module,
            lingers: None,
        }
        | Cmd::Purge { module, .. } => match server.old(*module) {
            Some(serial) => Asked::Stands(serial),
            None => Asked::Nothing,
        },
        Cmd::Release(serial) => Asked::Names(*serial),
        _ => Asked::Nothing,
    }
}

/// The first process of which it is so what is asked, after its turns up to a generation.
fn first_naming(
    alloc: Global,
    script: &Script,
    log: &RunLog,
    generation: u64,
    inquiry: &mut Inquiry,
) -> Result<Option<usize>, NoMemory>
    requires texts { AreTexts script.now.modules }
    requires put { All (λ e. IsOfText e.cmd) log.now.journal }
{
    if let Asked::Nothing = inquiry.seen.asked {
        return Ok(None);
    }
    for number in 0..log.processes.len() {
        go_along(alloc, script, log, number, generation, inquiry)?;
        if inquiry.seen.is_so {
            return Ok(Some(number));
        }
    }
    Ok(None)
}

/// Whether a frame of the process runs the instance.
pub fn stands_in(process: &Process, serial: u64) -> bool {
    for frame in process.frames.as_slice() {
        if frame.code.area.serial == serial {
            return true;
        }
    }
    false
}

/// Whether a frame of the process runs the instance, or has a literal of the area.
pub fn names(process: &Process, serial: u64) -> bool {
    for frame in process.frames.as_slice() {
        if frame.code.area.serial == serial || quotes(frame, serial) {
            return true;
        }
    }
    false
}

/// Whether a register of the frame holds a literal of the area.
fn quotes(frame: &Frame, serial: u64) -> bool {
    for value in frame.registers.as_slice() {
        if let Value::Literal(literal) = value {
            if literal.area.serial == serial {
                return true;
            }
        }
    }
    false
}

/// Says that this process was not expected there.
fn say_still_there(number: usize, cmd: &Cmd, expected: &mut Expected) -> Result<(), NoMemory> {
    let wanted = match cmd {
        Cmd::Release(_) => {
            b"that no process names the area where it is released: process ".as_slice()
        }
        _ => b"that no process stands in the code that is dropped: process ".as_slice(),
    };
    expected.say_number(wanted, number as u64)?;
    expected.say(b" does")
}

/// The answer that a purge has by the ends of the processes.
fn expected_kill(
    alloc: Global,
    script: &Script,
    log: &RunLog,
    place: usize,
    module: AtomId,
    serial: u64,
    inquiry: &mut Inquiry,
) -> Result<Option<Finding>, NoMemory>
    requires texts { AreTexts script.now.modules }
    requires put { All (λ e. IsOfText e.cmd) log.now.journal }
{
    let killed = first_killed(log, serial);
    let cmd = Cmd::Purge {
        module,
        killed: killed.is_some(),
    };
    if say_answer_at(alloc, script, log, place, &cmd, inquiry)? {
        say_killed(killed, serial, &mut inquiry.expected)?;
        return Ok(Some(Finding::new(Place::Entry(place))));
    }
    Ok(None)
}

/// The first process that ended since it stood in this instance.
fn first_killed(log: &RunLog, serial: u64) -> Option<usize> {
    for (number, process) in log.processes.as_slice().iter().enumerate() {
        if process.fin == End::Killed(serial) {
            return Some(number);
        }
    }
    None
}

/// Says which process was killed by an instance, or that none was.
fn say_killed(killed: Option<usize>, serial: u64, expected: &mut Expected) -> Result<(), NoMemory> {
    match killed {
        Some(number) => {
            expected.say_number(b", since process ", number as u64)?;
            expected.say(b" ends as `killed ")?;
        }
        None => expected.say(b", since no process ends as `killed ")?,
    }
    expected.say_number(b"", serial)?;
    expected.say(b"`")
}
