ghost use Rattle.std.specs.Prelude.{◌<◌, ◌≤◌, IfOk};
ghost use Rattle.word_run.specs.declared.beginning.TheConstants.{MOST_SCHEDULERS};
ghost use Rattle.beam_tool.specs.TopCall.{TrialOf, seeded_script};
ghost use Rattle.beam_tool.specs.ClosedTables.{Closing};

use crate::work::Work;
use outside::{Answer, DONE};
use run_log::summary;
use script_maker::{MOST_COMMANDS, make_script};
use std::alloc::Global;
use std::sync::Wait;
use std::thread::Threads;
use term_core::{ByteList, NoMemory};
use word_run::{Ran, run_script};
use write_permit::Gate;

/// A run, by so many schedulers, of the script that a seed and a size make, and its summary.
pub fn trial_answer<R: Threads + Wait + Sync, G: Gate>(
    rt: &R,
    alloc: Global,
    seed: u32,
    size: u32,
    schedulers: u32,
    gate: &G,
) -> Result<Work, NoMemory>
    requires least { 1 ≤ size }
    requires most { size ≤ MOST_COMMANDS }
    requires some { 0 < schedulers }
    requires few { schedulers ≤ MOST_SCHEDULERS }
    ensures verdict { IfOk result (λ w. TrialOf seed size w.answer.status w.answer.log w.answer.text) }
    ensures closed { IfOk result (λ w. Closing (seeded_script seed size) w.answer.log w.closed) }
{
    let script = make_script(alloc, seed, size)?;
    let ran = run_script(rt, alloc, &script, schedulers, gate)?;
    let Ran { log, closed } = ran;
    let mut text = ByteList::new(alloc);
    summary(&script, &log, &mut text)?;
    Ok(Work {
        answer: Answer {
            status: DONE,
            log: Some(log),
            text,
        },
        closed: Some(closed),
    })
}
