//! The observers of a report's log: their snapshots and exports.

ghost use Rattle.std.specs.Prelude.{◌≡◌, IfOk};
ghost use Rattle.report_text.specs.WordReading.{ReadsWord};
ghost use Rattle.report_text.specs.Taking.{shots_closed, observers_closed, observer_taken, snapshot_taken, export_taken};

use crate::line_fault::LineFault;
use crate::state::process::with_going;
use crate::state::{ReportState, Stage, at};
use run_log::{ExportList, RunLog, Snapshot, SnapshotList};
use std::alloc::Global;
use term_core::{Mfa, NoMemory};

/// The log with an observer's snapshots.
fn shots_closed(
    mut log: RunLog,
    shots: SnapshotList,
    going: Option<Snapshot>,
) -> Result<RunLog, NoMemory>
    ensures { IfOk result (λ closed. closed ≡ shots_closed log shots going) }
{
    let shots = with_going(shots, going)?;
    log.observers.push(shots)?;
    Ok(log)
}

/// The log where an observer may begin, or the report end: with the observer that went on, if there is one.
pub fn observers_closed(log: RunLog, stage: Stage) -> Result<RunLog, LineFault>
    ensures { ReadsWord (λ closed. closed) result (observers_closed log stage) }
{
    match stage {
        Stage::Entries(left) if left == 0 => Ok(log),
        Stage::Processes => Ok(log),
        Stage::Observer(shots, going) => Ok(shots_closed(log, shots, going)?),
        _ => Err(LineFault::Form),
    }
}

/// The state behind an `observer` line.
pub fn take_observer(
    alloc: Global,
    log: RunLog,
    stage: Stage,
    number: u64,
) -> Result<ReportState, LineFault>
    ensures { ReadsWord (λ state. state) result (observer_taken log stage number) }
{
    let log = observers_closed(log, stage)?;
    if number != log.observers.len() as u64 {
        return Err(LineFault::Form);
    }
    Ok(at(log, Stage::Observer(SnapshotList::new(alloc), None)))
}

/// The state behind a `snapshot` line.
pub fn take_snapshot(
    alloc: Global,
    log: RunLog,
    stage: Stage,
    generation: u64,
) -> Result<ReportState, LineFault>
    ensures { ReadsWord (λ state. state) result (snapshot_taken log stage generation) }
{
    match stage {
        Stage::Observer(shots, going) => {
            let shots = with_going(shots, going)?;
            let exports = ExportList::new(alloc);
            let shot = Snapshot {
                generation,
                exports,
            };
            Ok(at(log, Stage::Observer(shots, Some(shot))))
        }
        _ => Err(LineFault::Form),
    }
}

/// The state behind an `export` line.
pub fn take_export(
    log: RunLog,
    stage: Stage,
    function: Mfa,
    serial: u64,
) -> Result<ReportState, LineFault>
    ensures { ReadsWord (λ state. state) result (export_taken log stage function serial) }
{
    match stage {
        Stage::Observer(shots, going) => match going {
            Some(mut shot) => {
                shot.exports.push((function, serial))?;
                Ok(at(log, Stage::Observer(shots, Some(shot))))
            }
            None => Err(LineFault::Form),
        },
        _ => Err(LineFault::Form),
    }
}
