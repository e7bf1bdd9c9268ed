ghost use Rattle.std.specs.Prelude.{◌+◌, ◌≤◌, ℕ, List, length, IfOk, IsErrOf};
ghost use Rattle.script_core.specs.Sound.{IsScript};
ghost use Rattle.outside.specs.Outside.{Rose, TakesUpTo};
ghost use Rattle.outside.specs.Inputs.{IsReportRead};
ghost use Rattle.beam_tool.specs.ClosedTables.{IsUnrun};
ghost use Rattle.beam_tool.specs.TopCall.{ReadVerdict, CheckVerdict, ReportVerdict};

use crate::work::{Work, unrun};
use legality::legal;
use outside::{
    Answer, CheckInput, DONE, Input, LONGEST_CHECK, NOT_ALLOWED, Source, Stop, line_answer,
    read_input, read_whole, refusal, report_refusal,
};
use run_log::RunLog;
use script_core::Script;
use script_text::ScriptFault;
use std::alloc::Global;
use term_core::NoMemory;

/// What the check of a report comes to apart from writing.
pub fn check_answer<S: Source>(alloc: Global, source: &mut S) -> Result<Work, Stop>
    ensures verdict { IfOk result
        (λ w. ReadVerdict LONGEST_CHECK (S.left source.old) (S.left source.new) CheckVerdict w.answer.status w.answer.log w.answer.text) }
    ensures unrun { IfOk result (λ w. IsUnrun w.answer.log w.closed) }
    ensures failed { IsErrOf result Stop.SourceFault
        → Rose (S.faults source.old) (S.faults source.new) }
    ensures stops { TakesUpTo (LONGEST_CHECK + 1) (S.left source.old) (S.left source.new) }
{
    match read_whole(alloc, source, LONGEST_CHECK)? {
        Input::Whole(bytes) => Ok(unrun(judged(alloc, bytes.as_slice())?)),
        Input::TooLong => Ok(unrun(refusal(alloc, ScriptFault::FileTooLong)?)),
    }
}

/// The answer to bytes that were read whole. The script is judged first.
fn judged(alloc: Global, bytes: &[u8]) -> Result<Answer, NoMemory>
    requires { length bytes.now ≤ LONGEST_CHECK }
    ensures { IfOk result (λ a. CheckVerdict bytes.now a.status a.log a.text) }
{
    let input = read_input(alloc, bytes)?;
    match input {
        CheckInput::Read(script, log) => log_judged(alloc, &script, &log),
        CheckInput::ScriptRefused(fault) => refusal(alloc, fault),
        CheckInput::ReportRefused(line) => report_refusal(alloc, line),
    }
}

/// The answer to the log that a report shows.
fn log_judged(alloc: Global, script: &Script, log: &RunLog) -> Result<Answer, NoMemory>
    requires { IsScript script.now }
    ensures { IfOk result (λ a. (report : List ℕ) → IsReportRead script.now.names report log.now
        → ReportVerdict script.now report a.status a.log a.text) }
{
    if legal(alloc, script, log)? {
        line_answer(alloc, DONE, b"lawful")
    } else {
        line_answer(alloc, NOT_ALLOWED, b"not lawful")
    }
}
