//! The entries of a report's log.

ghost use Rattle.std.specs.Prelude.{◌≡◌};
ghost use Rattle.report_text.specs.WordReading.{ReadsWord};
ghost use Rattle.report_text.specs.Taking.{count_after, entry_taken};

use crate::line_fault::LineFault;
use crate::state::{ReportState, Stage, at};
use run_log::{Entry, RunLog};

/// How many entries are still to publish behind one.
fn count_after(left: u64, published: Option<u64>) -> Option<u64>
    ensures { result ≡ count_after left published }
{
    match published {
        None => Some(left),
        Some(_) => left.checked_sub(1),
    }
}

/// The state behind an `entry` line.
pub fn take_entry(mut log: RunLog, stage: Stage, entry: Entry) -> Result<ReportState, LineFault>
    ensures { ReadsWord (λ state. state) result (entry_taken log stage entry) }
{
    match stage {
        Stage::Entries(left) => {
            let left = count_after(left, entry.published).ok_or(LineFault::Form)?;
            log.journal.push(entry)?;
            Ok(at(log, Stage::Entries(left)))
        }
        _ => Err(LineFault::Form),
    }
}
