ghost use Rattle.std.specs.Prelude.{◌≡◌, ◌↔◌, ◌<◌, ◌≤◌, drop, length, true, IfOk, IsTrue};
ghost use Rattle.std.specs.List.{AllByRecursion};
ghost use Rattle.machine_core.specs.Process.{process_of};
ghost use Rattle.machine_core.specs.View.{server_words};
ghost use Rattle.span_check.specs.Standings.{MayGoOn};
ghost use Rattle.span_check.specs.Steps.{IsSpanJudged, IsWhole};
ghost use Rattle.span_check.specs.Sweeps.{AreJudged, AreJudgedSo, IsEndJudged, count_under};
ghost use Rattle.span_check.specs.Watches.{AreInOrder, AreLater};

use crate::steps::take_step;
use crate::watch::{Watch, look};
use machine_core::{End, Process, TurnEnd};
use run_log::Span;
use server_core::Server;
use std::alloc::Global;
use term_core::NoMemory;

/// What is left of a span: its turns, and its lines from one of them on.
#[derive(Clone, Copy, Debug)]
pub struct Rest {
    pub turns: u64,
    /// How many lines were made.
    pub lines: usize,
}

/// How many spans from the front on are under this generation.
pub fn count_under(spans: &[Span], generation: u64) -> usize
    ensures value { result ≡ count_under generation spans.now }
    ensures within { result ≤ length spans.now }
{
    spans
        .iter()
        .take_while(|span| span.generation == generation)
        .count()
}

/// Takes the turns of a span, the last of which is to end so, and judges the watches up to them, from one of them on.
fn take_span(
    alloc: Global,
    server: &Server,
    span: &Span,
    wanted: TurnEnd,
    process: &mut Process,
    watches: &[Watch],
    told: &mut usize,
) -> Result<bool, NoMemory>
    requires ready { MayGoOn server.now process.old }
    requires within { told.old ≤ length watches.now }
    requires order { AreInOrder watches.now }
    requires later { AreLater process.old.turns (drop told.old watches.now) }
    ensures judged { IfOk result (IsSpanJudged server.now (process_of (server_words server.now) process.old) (process_of (server_words server.now) process.new) span.now wanted (drop told.old watches.now) (drop told.new watches.now)) }
    ensures within { IfOk result (λ _. told.new ≤ length watches.now) }
    ensures ready { IfOk result (λ yes. yes ≡ true → wanted ≡ TurnEnd.Again → MayGoOn server.now process.new) }
{
    let mut rest = Rest {
        turns: span.turns,
        lines: 0,
    };
    while rest.turns > 0 {
        match take_step(alloc, server, span, &mut rest, process)? {
            None => return Ok(false),
            Some(TurnEnd::Ended(fin)) => {
                return Ok(is_whole(span, rest, TurnEnd::Ended(fin), wanted));
            }
            Some(TurnEnd::Again) => {
                if !look(process, watches, told) {
                    return Ok(false);
                }
            }
        }
    }
    Ok(is_whole(span, rest, TurnEnd::Again, wanted))
}

/// Whether nothing of the span is left, and the last turn ended as it was to.
fn is_whole(span: &Span, rest: Rest, end: TurnEnd, wanted: TurnEnd) -> bool
    ensures { IsTrue result ↔ IsWhole span.now rest end wanted }
{
    rest.turns == 0 && rest.lines == span.lines.len() && end == wanted
}

/// Takes spans of a process in a row, the last of which is to end it so, if it is to end, and judges the watches up to them.
pub fn take_all(
    alloc: Global,
    server: &Server,
    spans: &[Span],
    fin: Option<End>,
    process: &mut Process,
    watches: &[Watch],
    told: &mut usize,
) -> Result<bool, NoMemory>
    requires some { 0 < length spans.now }
    requires here { AllByRecursion (λ span. span.generation ≡ server.now.generation) spans.now }
    requires ready { MayGoOn server.now process.old }
    requires within { told.old ≤ length watches.now }
    requires order { AreInOrder watches.now }
    requires later { AreLater process.old.turns (drop told.old watches.now) }
    ensures judged { IfOk result (AreJudgedSo server.now spans.now fin (process_of (server_words server.now) process.old) (process_of (server_words server.now) process.new) (drop told.old watches.now) (drop told.new watches.now)) }
    ensures within { IfOk result (λ _. told.new ≤ length watches.now) }
    ensures ready { IfOk result (λ yes. yes ≡ true → fin ≡ None → MayGoOn server.now process.new) }
{
    match fin {
        Some(fin) => take_end(alloc, server, spans, fin, process, watches, told),
        None => take_going(alloc, server, spans, process, watches, told),
    }
}

/// Takes spans of a process in a row, none of which is to end it, and judges the watches up to them.
fn take_going(
    alloc: Global,
    server: &Server,
    spans: &[Span],
    process: &mut Process,
    watches: &[Watch],
    told: &mut usize,
) -> Result<bool, NoMemory>
    requires here { AllByRecursion (λ span. span.generation ≡ server.now.generation) spans.now }
    requires ready { MayGoOn server.now process.old }
    requires within { told.old ≤ length watches.now }
    requires order { AreInOrder watches.now }
    requires later { AreLater process.old.turns (drop told.old watches.now) }
    ensures judged { IfOk result (AreJudged server.now spans.now (process_of (server_words server.now) process.old) (process_of (server_words server.now) process.new) (drop told.old watches.now) (drop told.new watches.now)) }
    ensures within { IfOk result (λ _. told.new ≤ length watches.now) }
    ensures ready { IfOk result (λ yes. yes ≡ true → MayGoOn server.now process.new) }
{
    for span in spans {
        if !take_span(alloc, server, span, TurnEnd::Again, process, watches, told)? {
            return Ok(false);
        }
    }
    Ok(true)
}

/// Takes the last spans of a process, which is to end so with the last turn, and judges the watches up to them.
fn take_end(
    alloc: Global,
    server: &Server,
    spans: &[Span],
    fin: End,
    process: &mut Process,
    watches: &[Watch],
    told: &mut usize,
) -> Result<bool, NoMemory>
    requires some { 0 < length spans.now }
    requires here { AllByRecursion (λ span. span.generation ≡ server.now.generation) spans.now }
    requires ready { MayGoOn server.now process.old }
    requires within { told.old ≤ length watches.now }
    requires order { AreInOrder watches.now }
    requires later { AreLater process.old.turns (drop told.old watches.now) }
    ensures judged { IfOk result (IsEndJudged server.now spans.now fin (process_of (server_words server.now) process.old) (process_of (server_words server.now) process.new) (drop told.old watches.now) (drop told.new watches.now)) }
    ensures within { IfOk result (λ _. told.new ≤ length watches.now) }
{
    let last = spans.len() - 1;
    if !take_going(alloc, server, &spans[..last], process, watches, told)? {
        return Ok(false);
    }
    take_span(
        alloc,
        server,
        &spans[last],
        TurnEnd::Ended(fin),
        process,
        watches,
        told,
    )
}
