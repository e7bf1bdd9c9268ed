ghost use Rattle.std.specs.Prelude.{◌+◌, IfOk, IsErrOf};
ghost use Rattle.outside.specs.Outside.{Rose, TakesUpTo};
ghost use Rattle.outside.specs.Answers.{IsLine};
ghost use Rattle.beam_tool.specs.ClosedTables.{IsUnrun};
ghost use Rattle.beam_tool.specs.TopCall.{ReadVerdict, ListVerdict, ReplayOf, IsReplayable, not_enabled_text, done_text};

use crate::work::{Work, unrun};
use outside::{Answer, DONE, Input, NOT_ALLOWED, Source, Stop, read_whole, refusal};
use prgr_core::{EventFault, Events, PrgrState, ReplayFault, read_events, replay};
use script_core::LONGEST_SCRIPT;
use script_text::ScriptFault;
use std::alloc::Global;
use term_core::{ByteList, NoMemory, print_number};

/// What the replay of an event list comes to apart from writing.
pub fn progress_answer<S: Source>(alloc: Global, source: &mut S) -> Result<Work, Stop>
    ensures verdict { IfOk result
        (λ w. ReadVerdict LONGEST_SCRIPT (S.left source.old) (S.left source.new) ListVerdict w.answer.status w.answer.log w.answer.text) }
    ensures unrun { IfOk result (λ w. IsUnrun w.answer.log w.closed) }
    ensures failed { IsErrOf result Stop.SourceFault
        → Rose (S.faults source.old) (S.faults source.new) }
    ensures stops { TakesUpTo (LONGEST_SCRIPT + 1) (S.left source.old) (S.left source.new) }
{
    match read_whole(alloc, source, LONGEST_SCRIPT)? {
        Input::Whole(bytes) => Ok(unrun(judged(alloc, bytes.as_slice())?)),
        Input::TooLong => Ok(unrun(refusal(alloc, ScriptFault::FileTooLong)?)),
    }
}

/// The answer to bytes that were read whole.
fn judged(alloc: Global, bytes: &[u8]) -> Result<Answer, NoMemory>
    ensures { IfOk result (λ a. ListVerdict bytes.now a.status a.log a.text) }
{
    match read_events(alloc, bytes) {
        Ok(events) => replayed(alloc, &events),
        Err(EventFault::Syntax { line }) => refusal(alloc, ScriptFault::Syntax { line }),
        Err(EventFault::NoMemory) => Err(NoMemory),
    }
}

/// The answer to an event list.
fn replayed(alloc: Global, events: &Events) -> Result<Answer, NoMemory>
    requires { IsReplayable events.now }
    ensures { IfOk result (λ a. ReplayOf events.now a.status a.log a.text) }
{
    let Ok(mut state) = PrgrState::new(alloc, events.members, events.watchers) else {
        return Err(NoMemory);
    };
    match replay(&mut state, &events.list) {
        Ok(()) => done(alloc, events.list.len() as u64, &state),
        Err(ReplayFault::NotEnabled { index }) => not_enabled(alloc, index),
        Err(ReplayFault::NoMemory { .. }) => Err(NoMemory),
    }
}

/// The line of a list whose events were all made.
fn done(alloc: Global, events: u64, state: &PrgrState) -> Result<Answer, NoMemory>
    ensures { IfOk result (λ a. IsLine DONE (done_text events state.now) a.status a.log a.text) }
{
    let mut text = ByteList::from_slice(alloc, b"done events ")?;
    print_number(events, &mut text)?;
    text.extend_from_slice(b" counter ")?;
    print_number(state.counter(), &mut text)?;
    text.extend_from_slice(b" generation ")?;
    print_number(state.generation(), &mut text)?;
    text.push(b'\n')?;
    Ok(Answer {
        status: DONE,
        log: None,
        text,
    })
}

/// The line of an event that is not enabled.
fn not_enabled(alloc: Global, index: u64) -> Result<Answer, NoMemory>
    ensures { IfOk result (λ a. IsLine NOT_ALLOWED (not_enabled_text index) a.status a.log a.text) }
{
    let mut text = ByteList::from_slice(alloc, b"not enabled ")?;
    print_number(index, &mut text)?;
    text.push(b'\n')?;
    Ok(Answer {
        status: NOT_ALLOWED,
        log: None,
        text,
    })
}
