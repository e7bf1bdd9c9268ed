// On which line of its report something stands, counted from 1.
use run_log::{ProcessLog, RunLog, Snapshot, SnapshotList, Span};

/// The lines before the first entry.
const HEAD: usize = 2;

/// The line of an entry.
pub fn entry_line(place: usize) -> usize {
    place.saturating_add(HEAD + 1)
}

/// The line of a process.
pub fn process_line(log: &RunLog, number: usize) -> usize {
    let mut line = entry_line(log.journal.len());
    for process in log.processes.as_slice().iter().take(number) {
        line = line.saturating_add(process_lines(process));
    }
    line
}

/// The line of a span of a process.
pub fn span_line(log: &RunLog, number: usize, place: usize) -> usize {
    let line = process_line(log, number).saturating_add(1);
    match log.processes.get(number) {
        Some(process) => line.saturating_add(spans_lines(process, place)),
        None => line,
    }
}

/// The line of a snapshot of an observer.
pub fn snapshot_line(log: &RunLog, number: usize, place: usize) -> usize {
    let mut line = process_line(log, log.processes.len());
    for shots in log.observers.as_slice().iter().take(number) {
        line = line.saturating_add(observer_lines(shots, shots.len()));
    }
    match log.observers.get(number) {
        Some(shots) => line.saturating_add(observer_lines(shots, place)),
        None => line,
    }
}

/// How many lines a process has.
fn process_lines(process: &ProcessLog) -> usize {
    spans_lines(process, process.spans.len()).saturating_add(2)
}

/// How many lines so many spans of a process have.
fn spans_lines(process: &ProcessLog, count: usize) -> usize {
    let mut lines = 0usize;
    for span in process.spans.as_slice().iter().take(count) {
        lines = lines.saturating_add(span_lines(span));
    }
    lines
}

fn span_lines(span: &Span) -> usize {
    span.lines.len().saturating_add(1)
}

/// How many lines an observer has up to one of its snapshots.
fn observer_lines(shots: &SnapshotList, count: usize) -> usize {
    let mut lines = 1usize;
    for shot in shots.as_slice().iter().take(count) {
        lines = lines.saturating_add(snapshot_lines(shot));
    }
    lines
}

fn snapshot_lines(shot: &Snapshot) -> usize {
    shot.exports.len().saturating_add(1)
}

/// The line of the end of a process.
pub fn end_line(log: &RunLog, number: usize) -> usize {
    process_line(log, number.saturating_add(1)).saturating_sub(1)
}
