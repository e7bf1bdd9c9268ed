ghost use Rattle.std.specs.Prelude.{◌≤◌, All, IfOk, IsErrOf, length};
ghost use Rattle.server_core.specs.CommandTable.{IsOfText};
ghost use Rattle.script_core.specs.Sound.{IsScript};
ghost use Rattle.outside.specs.Outside.{Rose};
ghost use Rattle.beam_why.specs.Why.{Delivered, IsBrokenAnswer, LogVerdict, ReadVerdict, WhyEnds, WhyVerdict};

use crate::hints::write_hint;
use crate::words::name_of;
use legality::{Breach, first_breach};
use outside::{
    Answer, CheckInput, DONE, Input, LONGEST_CHECK, NO_MEMORY, NOT_ALLOWED, SINK_FAULT,
    SOURCE_FAULT, Sink, Source, Stop, line_answer, read_input, read_whole, refusal, report_refusal,
    write_whole,
};
use run_log::RunLog;
use script_core::Script;
use script_text::ScriptFault;
use std::alloc::Global;
use term_core::{ByteList, NoMemory};

/// All that the program does: it reads a script with a report behind it, and writes whether the report's log is lawful, or a clause
/// that it breaks. The statuses are those of a check.
pub fn why_top<S: Source, K: Sink>(alloc: Global, source: &mut S, sink: &mut K) -> u8
    ensures { WhyEnds (S.left source.old) (S.left source.new) (S.faults source.old) (S.faults source.new)
        (K.got sink.old) (K.got sink.new) (K.faults sink.old) (K.faults sink.new) result }
{
    match why_answer(alloc, source) {
        Ok(answer) => deliver(sink, answer.status, answer.text.as_slice()),
        Err(Stop::SourceFault) => SOURCE_FAULT,
        Err(Stop::NoMemory) => NO_MEMORY,
    }
}

/// Writes the text whole and answers the status, or the sink's fault.
fn deliver<K: Sink>(sink: &mut K, status: u8, text: &[u8]) -> u8
    ensures { Delivered (K.got sink.old) (K.got sink.new) (K.faults sink.old) (K.faults sink.new) status text.now result }
{
    match write_whole(sink, text) {
        Ok(()) => status,
        Err(_) => SINK_FAULT,
    }
}

/// What the input comes to apart from writing.
fn why_answer<S: Source>(alloc: Global, source: &mut S) -> Result<Answer, Stop>
    ensures verdict { IfOk result (λ a. ReadVerdict (S.left source.old) (S.left source.new) a.status a.text) }
    ensures failed { IsErrOf result Stop.SourceFault → Rose (S.faults source.old) (S.faults source.new) }
{
    match read_whole(alloc, source, LONGEST_CHECK)? {
        Input::Whole(bytes) => Ok(judged(alloc, bytes.as_slice())?),
        Input::TooLong => Ok(refusal(alloc, ScriptFault::FileTooLong)?),
    }
}

/// The answer to bytes that were read whole.
fn judged(alloc: Global, bytes: &[u8]) -> Result<Answer, NoMemory>
    requires { length bytes.now ≤ LONGEST_CHECK }
    ensures { IfOk result (λ a. WhyVerdict bytes.now a.status a.text) }
{
    let input = read_input(alloc, bytes)?;
    match input {
        CheckInput::Read(script, log) => log_judged(alloc, &script, &log),
        CheckInput::ScriptRefused(fault) => refusal(alloc, fault),
        CheckInput::ReportRefused(line) => report_refusal(alloc, line),
    }
}

/// The answer to the log that a report shows.
fn log_judged(alloc: Global, script: &Script, log: &RunLog) -> Result<Answer, NoMemory>
    requires script { IsScript script.now }
    requires put { All (λ e. IsOfText e.cmd) log.now.journal }
    ensures { IfOk result (λ a. LogVerdict script.now log.now a.status a.text) }
{
    match first_breach(alloc, script, log)? {
        None => line_answer(alloc, DONE, b"lawful"),
        Some(breach) => broken_answer(alloc, script, log, breach),
    }
}

/// The answer to a log that breaks a clause: its name, where that was found, and what was expected.
fn broken_answer(
    alloc: Global,
    script: &Script,
    log: &RunLog,
    breach: Breach,
) -> Result<Answer, NoMemory>
    requires script { IsScript script.now }
    requires put { All (λ e. IsOfText e.cmd) log.now.journal }
    ensures { IfOk result (IsBrokenAnswer breach.clause) }
{
    let mut rest = ByteList::new(alloc);
    write_hint(alloc, script, log, breach, &mut rest)?;
    let mut text = ByteList::from_slice(alloc, b"not lawful: ")?;
    text.extend_from_slice(name_of(breach.clause))?;
    text.extend_from_slice(rest.as_slice())?;
    Ok(Answer {
        status: NOT_ALLOWED,
        log: None,
        text,
    })
}
