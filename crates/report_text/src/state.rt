//! A report up to a line: what is read of its log, and which lines may follow.

ghost use Rattle.std.specs.Prelude.{◌≡◌};
ghost use Rattle.report_text.specs.WordReading.{ReadsWord};
ghost use Rattle.report_text.specs.Taking.{at, report_opening, head_taken, count_taken, close_taken, taken};

mod journal;
mod observer;
mod process;

use crate::line::ReportLine;
use crate::line_fault::LineFault;
use crate::state::journal::take_entry;
use crate::state::observer::{observers_closed, take_export, take_observer, take_snapshot};
use crate::state::process::{take_end, take_process, take_shown, take_span};
use run_log::{
    EntryList, ObserverList, ProcessLog, ProcessLogList, RunLog, Snapshot, SnapshotList, Span,
};
use std::alloc::Global;

/// Where in a report a line stands.
#[derive(Debug, Drop)]
pub enum Stage {
    /// In front of the first line.
    Head,
    /// In front of the count of generations.
    Count,
    /// Among the entries, of which so many are still to publish a generation.
    Entries(u64),
    /// Behind a process.
    Processes,
    /// In a process: its log with the spans so far, as if it ended here, and the span that may go on.
    Process(ProcessLog, Option<Span>),
    /// In an observer: its snapshots so far, and the one that may go on.
    Observer(SnapshotList, Option<Snapshot>),
    /// Behind the last line.
    Done,
}

/// The log so far, and where the next line stands.
#[derive(Debug, Drop)]
pub struct ReportState {
    pub log: RunLog,
    pub stage: Stage,
}

fn at(log: RunLog, stage: Stage) -> ReportState
    ensures { result ≡ at log stage }
{
    ReportState { log, stage }
}

/// Nothing is read yet. It takes no memory.
pub fn opening(alloc: Global) -> ReportState
    ensures { result ≡ report_opening }
{
    let log = RunLog {
        journal: EntryList::new(alloc),
        processes: ProcessLogList::new(alloc),
        observers: ObserverList::new(alloc),
    };
    at(log, Stage::Head)
}

fn take_head(log: RunLog, stage: Stage) -> Result<ReportState, LineFault>
    ensures { ReadsWord (λ state. state) result (head_taken log stage) }
{
    match stage {
        Stage::Head => Ok(at(log, Stage::Count)),
        _ => Err(LineFault::Form),
    }
}

fn take_count(log: RunLog, stage: Stage, count: u64) -> Result<ReportState, LineFault>
    ensures { ReadsWord (λ state. state) result (count_taken log stage count) }
{
    match stage {
        Stage::Count => Ok(at(log, Stage::Entries(count))),
        _ => Err(LineFault::Form),
    }
}

fn take_close(log: RunLog, stage: Stage) -> Result<ReportState, LineFault>
    ensures { ReadsWord (λ state. state) result (close_taken log stage) }
{
    let log = observers_closed(log, stage)?;
    Ok(at(log, Stage::Done))
}

/// The state behind a line.
pub fn take_line(
    alloc: Global,
    state: ReportState,
    line: ReportLine,
) -> Result<ReportState, LineFault>
    ensures { ReadsWord (λ state. state) result (taken state line) }
{
    let ReportState { log, stage } = state;
    match line {
        ReportLine::Head => take_head(log, stage),
        ReportLine::Generations(count) => take_count(log, stage, count),
        ReportLine::Entry(entry) => take_entry(log, stage, entry),
        ReportLine::Process {
            number,
            target,
            args,
        } => take_process(alloc, log, stage, number, target, args),
        ReportLine::Span { generation, turns } => take_span(alloc, log, stage, generation, turns),
        ReportLine::Shown(line) => take_shown(log, stage, line),
        ReportLine::End(fin) => take_end(log, stage, fin),
        ReportLine::Observer(number) => take_observer(alloc, log, stage, number),
        ReportLine::Snapshot(generation) => take_snapshot(alloc, log, stage, generation),
        ReportLine::Export(function, serial) => take_export(log, stage, function, serial),
        ReportLine::Close => take_close(log, stage),
    }
}
