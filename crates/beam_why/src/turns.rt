// The turns of one span of a process made again.
ghost use Rattle.std.specs.Prelude.{◌≡◌, None, IfOk};
ghost use Rattle.span_check.specs.Standings.{MayGoOn};

use crate::sightings::Sightings;
use machine_core::{End, LineList, PlainView, Process, TurnEnd, turn};
use run_log::Span;
use server_core::Server;
use std::alloc::Global;
use term_core::NoMemory;

/// How many turns of a span are made again at most: a process that waits in a loop may have any number.
const MOST_TURNS_AGAIN: u64 = 10_000;

/// Why the way along a log stops within a span. Places count the span's lines from 0.
#[derive(Clone, Copy)]
pub enum Stop {
    /// At this place the process shows another line: of the lines of its turn the one with this number, counted from 0.
    Other(usize, usize),
    /// The last of the turns ends the process so, and at this place something else is told.
    Ending(usize, End),
    /// The process ends so after so many of the turns already.
    Early(u64, End),
    /// The turns of the span make no line at this place.
    Nothing(usize),
    /// The process ends, as the log tells.
    Told,
    /// It is not known how the process goes on, as the span has too many turns to make them again.
    Unknown,
}

/// Makes the turns of a span again, at whose end the log tells this end, or that the process goes on, and looks at the process before
/// each. Answers why the way stops there, if it does; else the process may go on.
pub fn take_span(
    alloc: Global,
    server: &Server,
    span: &Span,
    fin: Option<End>,
    seen: &mut Sightings,
    process: &mut Process,
) -> Result<Option<Stop>, NoMemory>
    requires { MayGoOn server.now process.old }
    ensures { IfOk result (λ stop. stop ≡ None → MayGoOn server.now process.new) }
{
    seen.begin_span();
    for _ in 0..span.turns.min(MOST_TURNS_AGAIN) {
        seen.look(process);
        if let Some(stop) = take_next(alloc, server, span, fin, seen, process)? {
            return Ok(Some(stop));
        }
    }
    Ok(left_over(span, seen.lines))
}

/// Makes the next turn of a span again.
fn take_next(
    alloc: Global,
    server: &Server,
    span: &Span,
    fin: Option<End>,
    seen: &mut Sightings,
    process: &mut Process,
) -> Result<Option<Stop>, NoMemory>
    requires { MayGoOn server.now process.old }
    ensures { IfOk result (λ stop. stop ≡ None → MayGoOn server.now process.new) }
{
    seen.made.truncate(0);
    let end = take_turn(alloc, server, process, &mut seen.made)?;
    let before = seen.take_turn();
    if let Some(number) = first_other(span, before, &seen.made) {
        return Ok(Some(Stop::Other(before.saturating_add(number), number)));
    }
    match end {
        TurnEnd::Again => Ok(None),
        TurnEnd::Ended(ended) => Ok(Some(ended_at(span, seen, ended, fin))),
    }
}

/// One turn of a process, with its lines.
fn take_turn(
    alloc: Global,
    server: &Server,
    process: &mut Process,
    made: &mut LineList,
) -> Result<TurnEnd, NoMemory>
    requires { MayGoOn server.now process.old }
    ensures { IfOk result (λ end. end ≡ TurnEnd.Again → MayGoOn server.now process.new) }
{
    let mut view = PlainView::new(alloc, server, process)?;
    turn(alloc, process, &mut view, made)
}

/// The place among these lines of the first that the span does not have from so many of its lines on.
fn first_other(span: &Span, shown: usize, made: &LineList) -> Option<usize> {
    let lines = span.lines.as_slice();
    for (place, line) in made.as_slice().iter().enumerate() {
        match lines.get(shown.saturating_add(place)) {
            Some(told) if told == line => {}
            _ => return Some(place),
        }
    }
    None
}

/// Why the way stops where a process ended behind some turns and lines of a span: it is told so, or what was expected.
fn ended_at(span: &Span, seen: &Sightings, ended: End, fin: Option<End>) -> Stop {
    if seen.turns < span.turns {
        return Stop::Early(seen.turns, ended);
    }
    if seen.lines == span.lines.len() && fin == Some(ended) {
        return Stop::Told;
    }
    Stop::Ending(seen.lines, ended)
}

/// Why the way stops behind so many lines of a span after which the process goes on, if it does.
fn left_over(span: &Span, shown: usize) -> Option<Stop> {
    if span.turns > MOST_TURNS_AGAIN {
        return Some(Stop::Unknown);
    }
    if shown < span.lines.len() {
        return Some(Stop::Nothing(shown));
    }
    None
}
