//! The processes of a report's log: their spans, lines and ends.

ghost use Rattle.std.specs.Prelude.{◌≡◌, IfOk};
ghost use Rattle.report_text.specs.WordReading.{ReadsWord};
ghost use Rattle.report_text.specs.Taking.{may_begin, span_may_follow, with_going, spans_closed, process_taken, span_taken, shown_taken, end_taken};

use crate::line_fault::LineFault;
use crate::state::{ReportState, Stage, at};
use machine_core::{End, Line, LineList};
use run_log::{ProcessLog, RunLog, Span, SpanList};
use std::alloc::Global;
use term_core::{Items, Mfa, NoMemory, TermList};

/// Whether a process or an observer may begin: all entries that publish are there, and no process goes on.
fn may_begin(stage: &Stage) -> bool
    ensures { result ≡ may_begin stage.now }
{
    match stage {
        Stage::Entries(left) => *left == 0,
        Stage::Processes => true,
        _ => false,
    }
}

/// The state behind a `process` line.
pub fn take_process(
    alloc: Global,
    log: RunLog,
    stage: Stage,
    number: u64,
    target: Mfa,
    args: TermList,
) -> Result<ReportState, LineFault>
    ensures { ReadsWord (λ state. state) result (process_taken log stage number target args) }
{
    if !may_begin(&stage) || number != log.processes.len() as u64 {
        return Err(LineFault::Form);
    }
    let process = ProcessLog {
        target,
        args,
        spans: SpanList::new(alloc),
        fin: End::Normal,
    };
    Ok(at(log, Stage::Process(process, None)))
}

/// A list with the one that went on.
pub fn with_going<T: Drop>(mut list: Items<T>, going: Option<T>) -> Result<Items<T>, NoMemory>
    ensures { IfOk result (λ all. all ≡ with_going list going) }
{
    match going {
        None => Ok(list),
        Some(last) => {
            list.push(last)?;
            Ok(list)
        }
    }
}

/// The process with the span that went on.
fn spans_closed(mut process: ProcessLog, going: Option<Span>) -> Result<ProcessLog, NoMemory>
    ensures { IfOk result (λ closed. closed ≡ spans_closed process going) }
{
    if let Some(span) = going {
        process.spans.push(span)?;
    }
    Ok(process)
}

/// Whether a span has a turn, and another generation than the one before it.
fn may_follow(going: &Option<Span>, generation: u64, turns: u64) -> bool
    ensures { result ≡ span_may_follow going.now generation turns }
{
    match going {
        None => turns > 0,
        Some(span) => turns > 0 && span.generation != generation,
    }
}

/// The state behind a `span` line.
pub fn take_span(
    alloc: Global,
    log: RunLog,
    stage: Stage,
    generation: u64,
    turns: u64,
) -> Result<ReportState, LineFault>
    ensures { ReadsWord (λ state. state) result (span_taken log stage generation turns) }
{
    match stage {
        Stage::Process(process, going) => {
            if !may_follow(&going, generation, turns) {
                return Err(LineFault::Form);
            }
            let process = spans_closed(process, going)?;
            let span = Span {
                generation,
                turns,
                lines: LineList::new(alloc),
            };
            Ok(at(log, Stage::Process(process, Some(span))))
        }
        _ => Err(LineFault::Form),
    }
}

/// The state behind the line of a print or of a traced call.
pub fn take_shown(log: RunLog, stage: Stage, line: Line) -> Result<ReportState, LineFault>
    ensures { ReadsWord (λ state. state) result (shown_taken log stage line) }
{
    match stage {
        Stage::Process(process, going) => match going {
            Some(mut span) => {
                span.lines.push(line)?;
                Ok(at(log, Stage::Process(process, Some(span))))
            }
            None => Err(LineFault::Form),
        },
        _ => Err(LineFault::Form),
    }
}

/// The state behind an `end` line.
pub fn take_end(mut log: RunLog, stage: Stage, fin: End) -> Result<ReportState, LineFault>
    ensures { ReadsWord (λ state. state) result (end_taken log stage fin) }
{
    match stage {
        Stage::Process(process, going) => {
            let mut process = spans_closed(process, going)?;
            process.fin = fin;
            log.processes.push(process)?;
            Ok(at(log, Stage::Processes))
        }
        _ => Err(LineFault::Form),
    }
}
