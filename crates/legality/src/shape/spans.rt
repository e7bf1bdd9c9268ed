ghost use Rattle.std.specs.Prelude.{◌↔◌, ℕ, List, All, IsTrue};
ghost use Rattle.machine_core.specs.declared.process.End.{End};
ghost use Rattle.machine_core.specs.Process.{PlainProcess};
ghost use Rattle.server_core.specs.ServerState.{ServerState};
ghost use Rattle.run_log.specs.declared.logs.Span.{Span};
ghost use Rattle.run_log.specs.Legal.{SpansFollow};
ghost use Rattle.legality.specs.RisingSpans.{AreRisingSpans};

use run_log::{ProcessLog, RunLog};

fn are_rising(process: &ProcessLog) -> bool
    ensures { IsTrue result ↔ AreRisingSpans process.now.spans }
{
    let mut last = 0;
    for span in process.spans.as_slice() {
        if span.generation < last {
            return false;
        }
        last = span.generation;
    }
    true
}

/// Whether no span of a process is under an older generation than the span before it.
pub fn spans_rise(log: &RunLog) -> bool
    ensures { IsTrue result ↔ All (λ process. AreRisingSpans process.spans) log.now.processes }
{
    log.processes.as_slice().iter().all(are_rising)
}

/// A law: where the turns of a process follow one after the other, its spans rise.
pub fn spans_that_follow_rise()
    ensures { (states : ℕ → ServerState) (p : PlainProcess) (spans : List Span) (fin : End) → SpansFollow states p spans fin → AreRisingSpans spans }
{}
