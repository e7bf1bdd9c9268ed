ghost use Rattle.std.specs.Prelude.{◌+◌, ◌<◌, ◌≤◌, IfOk, IsErrOf};
ghost use Rattle.script_core.specs.Sound.{IsScript};
ghost use Rattle.word_run.specs.declared.beginning.TheConstants.{MOST_SCHEDULERS};
ghost use Rattle.outside.specs.Outside.{Rose, TakesUpTo};
ghost use Rattle.beam_tool.specs.TopCall.{ReadVerdict, ScriptVerdict, ReportOf};
ghost use Rattle.beam_tool.specs.ClosedTables.{Closing, ClosingOf, ClosingRead};

use crate::work::{Work, unrun};
use outside::{Answer, DONE, Input, Source, Stop, read_whole, refusal};
use run_log::render;
use script_core::{LONGEST_SCRIPT, Script};
use script_text::{ScriptFault, read_script};
use std::alloc::Global;
use std::sync::Wait;
use std::thread::Threads;
use term_core::{ByteList, NoMemory};
use word_run::{Ran, run_script};
use write_permit::Gate;

/// What a run by so many schedulers comes to apart from writing.
pub fn run_answer<R: Threads + Wait + Sync, S: Source, G: Gate>(
    rt: &R,
    alloc: Global,
    schedulers: u32,
    source: &mut S,
    gate: &G,
) -> Result<Work, Stop>
    requires some { 0 < schedulers }
    requires few { schedulers ≤ MOST_SCHEDULERS }
    ensures verdict { IfOk result
        (λ w. ReadVerdict LONGEST_SCRIPT (S.left source.old) (S.left source.new) ScriptVerdict w.answer.status w.answer.log w.answer.text) }
    ensures closed { IfOk result (λ w. ClosingRead (S.left source.old) (S.left source.new) w.answer.log w.closed) }
    ensures failed { IsErrOf result Stop.SourceFault
        → Rose (S.faults source.old) (S.faults source.new) }
    ensures stops { TakesUpTo (LONGEST_SCRIPT + 1) (S.left source.old) (S.left source.new) }
{
    match read_whole(alloc, source, LONGEST_SCRIPT)? {
        Input::Whole(bytes) => Ok(judged(rt, alloc, schedulers, bytes.as_slice(), gate)?),
        Input::TooLong => Ok(unrun(refusal(alloc, ScriptFault::FileTooLong)?)),
    }
}

/// The answer to bytes that were read whole.
fn judged<R: Threads + Wait + Sync, G: Gate>(
    rt: &R,
    alloc: Global,
    schedulers: u32,
    bytes: &[u8],
    gate: &G,
) -> Result<Work, NoMemory>
    requires some { 0 < schedulers }
    requires few { schedulers ≤ MOST_SCHEDULERS }
    ensures verdict { IfOk result (λ w. ScriptVerdict bytes.now w.answer.status w.answer.log w.answer.text) }
    ensures closed { IfOk result (λ w. ClosingOf bytes.now w.answer.log w.closed) }
{
    match read_script(alloc, bytes) {
        Ok(script) => reported(rt, alloc, schedulers, &script, gate),
        Err(fault) => Ok(unrun(refusal(alloc, fault)?)),
    }
}

/// The report of a script.
fn reported<R: Threads + Wait + Sync, G: Gate>(
    rt: &R,
    alloc: Global,
    schedulers: u32,
    script: &Script,
    gate: &G,
) -> Result<Work, NoMemory>
    requires script { IsScript script.now }
    requires some { 0 < schedulers }
    requires few { schedulers ≤ MOST_SCHEDULERS }
    ensures verdict { IfOk result (λ w. ReportOf script.now w.answer.status w.answer.log w.answer.text) }
    ensures closed { IfOk result (λ w. Closing script.now w.answer.log w.closed) }
{
    let ran = run_script(rt, alloc, script, schedulers, gate)?;
    let Ran { log, closed } = ran;
    let mut text = ByteList::new(alloc);
    render(&script.names, &log, &mut text)?;
    Ok(Work {
        answer: Answer {
            status: DONE,
            log: Some(log),
            text,
        },
        closed: Some(closed),
    })
}
