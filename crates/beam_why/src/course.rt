// The turns of a process made again, and the first place where its log tells them otherwise.
ghost use Rattle.std.specs.Prelude.{◌≡◌, length, All, IfOk, IfSome};
ghost use Rattle.server_core.specs.ServerState.{ServerState};
ghost use Rattle.server_core.specs.CommandTable.{AreTexts, IsOfText};
ghost use Rattle.span_check.specs.Standings.{MayGoOn};

use crate::expected::Expected;
use crate::finding::Finding;
use crate::inquiry::Inquiry;
use crate::lines::{end_line, span_line};
use crate::shown::{quote_end, quote_line};
use crate::turns::{Stop, take_span};
use legality::Place;
use machine_core::{End, LineList, Process};
use run_log::{ProcessLog, RunLog};
use script_core::Script;
use std::alloc::Global;
use std::mem;
use term_core::{Names, NoMemory};

/// The first place where a process does not go on as its log tells, if it was found.
pub fn expected_turn(
    alloc: Global,
    script: &Script,
    log: &RunLog,
    number: usize,
    inquiry: &mut Inquiry,
) -> Result<Option<Finding>, NoMemory>
    requires texts { AreTexts script.now.modules }
    requires put { All (λ e. IsOfText e.cmd) log.now.journal }
{
    match go_along(alloc, script, log, number, u64::MAX, inquiry)? {
        Some((span, stop)) => {
            let below = say_stop(alloc, &script.names, stop, inquiry)?;
            Ok(below_head(log, number, span, below))
        }
        None => Ok(Some(going_on(log, number, &mut inquiry.expected)?)),
    }
}

/// Goes along the log of a process to its last turn up to a generation, and looks at it before each turn and at the end. Answers in
/// which span the way stops, and why, if it does.
pub fn go_along(
    alloc: Global,
    script: &Script,
    log: &RunLog,
    number: usize,
    generation: u64,
    inquiry: &mut Inquiry,
) -> Result<Option<(usize, Stop)>, NoMemory>
    requires texts { AreTexts script.now.modules }
    requires put { All (λ e. IsOfText e.cmd) log.now.journal }
{
    let Some(process_log) = log.processes.get(number) else {
        return Ok(Some((0, Stop::Unknown)));
    };
    let Some(mut process) = start(alloc, number, process_log)? else {
        return Ok(Some((0, Stop::Unknown)));
    };
    walk(
        alloc,
        script,
        log,
        process_log,
        generation,
        inquiry,
        &mut process,
    )
}

/// A process before its first turn. Nothing where its log has not as many arguments as its function.
fn start(alloc: Global, number: usize, log: &ProcessLog) -> Result<Option<Process>, NoMemory>
    ensures { IfOk result (λ process. IfSome process (λ p. (s : ServerState) → MayGoOn s p)) }
{
    let Ok(number) = u32::try_from(number) else {
        return Ok(None);
    };
    if log.args.len() != log.target.arity as usize {
        return Ok(None);
    }
    Ok(Some(begun(alloc, number, log)?))
}

/// A process before its first turn, whose log has as many arguments as its function.
fn begun(alloc: Global, number: u32, log: &ProcessLog) -> Result<Process, NoMemory>
    requires { length log.now.args ≡ log.now.target.arity }
    ensures { IfOk result (λ p. (s : ServerState) → MayGoOn s p) }
{
    let args = log.args.copy(alloc)?;
    Process::new(alloc, number, log.target, args)
}

/// Goes the way of a process that has had no turn, and looks at it at the end.
fn walk(
    alloc: Global,
    script: &Script,
    log: &RunLog,
    process_log: &ProcessLog,
    generation: u64,
    inquiry: &mut Inquiry,
    process: &mut Process,
) -> Result<Option<(usize, Stop)>, NoMemory>
    requires texts { AreTexts script.now.modules }
    requires put { All (λ e. IsOfText e.cmd) log.now.journal }
    requires goes { (s : ServerState) → MayGoOn s process.old }
{
    let stop = walk_spans(
        alloc,
        script,
        log,
        process_log,
        generation,
        inquiry,
        process,
    )?;
    if let None | Some((_, Stop::Told)) = stop {
        inquiry.seen.look_last(process);
    }
    Ok(stop)
}

/// Goes from span to span, while the journal is made again.
fn walk_spans(
    alloc: Global,
    script: &Script,
    log: &RunLog,
    process_log: &ProcessLog,
    generation: u64,
    inquiry: &mut Inquiry,
    process: &mut Process,
) -> Result<Option<(usize, Stop)>, NoMemory>
    requires texts { AreTexts script.now.modules }
    requires put { All (λ e. IsOfText e.cmd) log.now.journal }
    requires goes { (s : ServerState) → MayGoOn s process.old }
{
    inquiry.replay.restart(alloc)?;
    for (place, span) in process_log.spans.as_slice().iter().enumerate() {
        if span.generation > generation {
            return Ok(None);
        }
        let replay = &mut inquiry.replay;
        replay.make_generation(span.generation, &log.journal, &script.modules)?;
        let fin = fin_at(process_log, place);
        let seen = &mut inquiry.seen;
        if let Some(stop) = take_span(alloc, &inquiry.replay.server, span, fin, seen, process)? {
            return Ok(Some((place, stop)));
        }
    }
    Ok(None)
}

/// The end of the process, where this is its last span.
fn fin_at(process: &ProcessLog, place: usize) -> Option<End> {
    if place.saturating_add(1) == process.spans.len() {
        return Some(process.fin);
    }
    None
}

/// That the process goes on behind its last span.
fn going_on(log: &RunLog, number: usize, expected: &mut Expected) -> Result<Finding, NoMemory> {
    expected.say(b"another turn before its end, since the process goes on")?;
    let spans = log
        .processes
        .get(number)
        .map_or(0, |process| process.spans.len());
    let at = Place::Span {
        process: number,
        span: spans.saturating_sub(1),
    };
    Ok(Finding::on_line(at, end_line(log, number)))
}

/// A span of a process, with the line so far below its head, if that is known.
fn below_head(log: &RunLog, process: usize, span: usize, below: Option<usize>) -> Option<Finding> {
    let line = span_line(log, process, span).saturating_add(below?);
    Some(Finding::on_line(Place::Span { process, span }, line))
}

/// Says what was expected where the way along a log stopped. Answers how many lines below the head of the span that is, if it is
/// known.
fn say_stop(
    alloc: Global,
    names: &Names,
    stop: Stop,
    inquiry: &mut Inquiry,
) -> Result<Option<usize>, NoMemory> {
    let expected = &mut inquiry.expected;
    match stop {
        Stop::Other(at, number) => {
            expected.say(b"the line ")?;
            let made = mem::replace(&mut inquiry.seen.made, LineList::new(alloc));
            quote_line(alloc, names, made, number, expected)?;
            Ok(Some(at.saturating_add(1)))
        }
        Stop::Ending(at, end) => {
            expected.say(b"the end of the process, ")?;
            quote_end(alloc, names, end, expected)?;
            Ok(Some(at.saturating_add(1)))
        }
        Stop::Early(turns, end) => {
            expected.say_number(b"", turns)?;
            expected.say(b" as the count of turns, since the process then ends as ")?;
            quote_end(alloc, names, end, expected)?;
            Ok(Some(0))
        }
        Stop::Nothing(at) => {
            expected.say(b"no further line of these turns")?;
            Ok(Some(at.saturating_add(1)))
        }
        Stop::Told | Stop::Unknown => Ok(None),
    }
}
