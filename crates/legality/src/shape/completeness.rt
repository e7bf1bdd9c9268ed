ghost use Rattle.std.specs.Prelude.{◌≡◌, ◌<◌, ◌≤◌, ◌↔◌, length, All, IsTrue};
ghost use Rattle.std.specs.List.{AllByRecursion};
ghost use Rattle.run_log.specs.Legal.{Complete, HasTurns, LogsMatch};
ghost use Rattle.script_core.specs.Processes.{spawns_of};

use crate::shape::generations::published_count;
use crate::shape::matching::has_process_logs;
use run_log::{ObserverList, ProcessLog, ProcessLogList, RunLog, SnapshotList, Span};
use script_core::Script;

/// Whether each span has a turn.
fn are_turned(spans: &[Span]) -> bool
    ensures { IsTrue result ↔ All (λ span. 0 < span.turns) spans.now }
{
    spans.iter().all(|span| 0 < span.turns)
}

/// Whether the process has a span, and each of its spans a turn.
fn has_turns(process: &ProcessLog) -> bool
    ensures { IsTrue result ↔ HasTurns process.now }
{
    !process.spans.is_empty() && are_turned(process.spans.as_slice())
}

fn have_turns(processes: &ProcessLogList) -> bool
    ensures { IsTrue result ↔ All HasTurns processes.now }
{
    processes.as_slice().iter().all(has_turns)
}

fn are_spans_within(process: &ProcessLog, published: u64) -> bool
    ensures { IsTrue result ↔ All (λ span. span.generation ≤ published) process.now.spans }
{
    let spans = process.spans.as_slice();
    spans.iter().all(|span| span.generation <= published)
}

fn are_processes_within(processes: &ProcessLogList, published: u64) -> bool
    ensures { IsTrue result ↔ All (λ process. All (λ span. span.generation ≤ published) process.spans) processes.now }
{
    let processes = processes.as_slice();
    processes
        .iter()
        .all(|process| are_spans_within(process, published))
}

fn are_snapshots_within(shots: &SnapshotList, published: u64) -> bool
    ensures { IsTrue result ↔ AllByRecursion (λ shot. shot.generation ≤ published) shots.now }
{
    let shots = shots.as_slice();
    shots.iter().all(|shot| shot.generation <= published)
}

fn are_observers_within(observers: &ObserverList, published: u64) -> bool
    ensures { IsTrue result ↔ AllByRecursion (λ shots. AllByRecursion (λ shot. shot.generation ≤ published) shots) observers.now }
{
    let observers = observers.as_slice();
    observers
        .iter()
        .all(|shots| are_snapshots_within(shots, published))
}

fn have_all_processes(script: &Script, log: &RunLog, published: u64) -> bool
    ensures { IsTrue result ↔ LogsMatch (spawns_of 0 script.now.loaders) log.now.processes × All HasTurns log.now.processes × All (λ process. All (λ span. span.generation ≤ published) process.spans) log.now.processes }
{
    has_process_logs(script, log)
        && have_turns(&log.processes)
        && are_processes_within(&log.processes, published)
}

fn have_all_observers(script: &Script, log: &RunLog, published: u64) -> bool
    ensures { IsTrue result ↔ (length log.now.observers ≡ length script.now.observers) × AllByRecursion (λ shots. AllByRecursion (λ shot. shot.generation ≤ published) shots) log.now.observers }
{
    log.observers.len() == script.observers.len() && are_observers_within(&log.observers, published)
}

/// Whether nothing is missing in the log: each process of the script has its log and a turn, each observer its snapshots, and each turn and each snapshot is of a generation that was published.
pub fn is_complete(script: &Script, log: &RunLog) -> bool
    ensures { IsTrue result ↔ Complete script.now log.now }
{
    let published = published_count(&log.journal);
    have_all_processes(script, log, published) && have_all_observers(script, log, published)
}
