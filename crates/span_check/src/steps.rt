ghost use Rattle.std.specs.Prelude.{◌≡◌, ◌+◌, ◌<◌, ◌≤◌, [], length, false, IfOk, IfSome, IsSomeAnd, IsTrue};
ghost use Rattle.machine_core.specs.Process.{process_of};
ghost use Rattle.machine_core.specs.Turn.{turn_of};
ghost use Rattle.machine_core.specs.View.{server_words};
ghost use Rattle.span_check.specs.Standings.{MayGoOn};
ghost use Rattle.span_check.specs.Steps.{GoesOn, StepsSo};

use crate::frames::{are_same, copy};
use crate::spans::Rest;
use machine_core::{FrameList, LineList, PlainView, Process, TurnEnd, turn};
use run_log::Span;
use server_core::Server;
use std::alloc::Global;
use term_core::NoMemory;

/// The turns that a process has at most.
const MOST_TURNS: u32 = u32::MAX;

/// Turns of a process in a row, the first of which made lines or not, and the others of which were like it.
#[derive(Clone, Copy, Debug)]
pub struct Step {
    pub turns: u64,
    /// How the last turn ended.
    pub end: TurnEnd,
}

/// Takes some turns of a span. Answers how the last of them ended, or nothing where its lines are not the next ones of the span.
pub fn take_step(
    alloc: Global,
    server: &Server,
    span: &Span,
    rest: &mut Rest,
    process: &mut Process,
) -> Result<Option<TurnEnd>, NoMemory>
    requires ready { MayGoOn server.now process.old }
    requires some { 0 < rest.old.turns }
    requires within { rest.old.lines ≤ length span.now.lines }
    ensures steps { IfOk result (StepsSo server.now (process_of (server_words server.now) process.old) (process_of (server_words server.now) process.new) span.now rest.old rest.new) }
    ensures ready { IfOk result (λ end. end ≡ Some TurnEnd.Again → MayGoOn server.now process.new) }
{
    let mut made = LineList::new(alloc);
    let step = go_on(alloc, server, process, rest.turns, &mut made)?;
    if !span.lines.as_slice()[rest.lines..].starts_with(made.as_slice()) {
        return Ok(None);
    }
    rest.turns -= step.turns;
    rest.lines += made.len();
    Ok(Some(step.end))
}

/// One turn of a process, and so many at most with it that are like it: without lines, with the frames as they were.
fn go_on(
    alloc: Global,
    server: &Server,
    process: &mut Process,
    most: u64,
    made: &mut LineList,
) -> Result<Step, NoMemory>
    requires ready { MayGoOn server.now process.old }
    requires some { 0 < most }
    requires fresh { made.old ≡ [] }
    ensures goes { IfOk result (λ step. GoesOn server.now (process_of (server_words server.now) process.old) (process_of (server_words server.now) process.new) step.turns made.new step.end) }
    ensures within { IfOk result (λ step. step.turns ≤ most) }
    ensures ready { IfOk result (λ step. step.end ≡ TurnEnd.Again → MayGoOn server.now process.new) }
{
    let before = frames_before(alloc, process, most)?;
    let end = take_turn(alloc, server, process, made)?;
    let repeats = is_repeated(end, made, &before, process);
    let more = count_repeated(process, repeats, most - 1);
    Ok(Step {
        turns: 1 + more,
        end,
    })
}

/// The frames of the process, where another turn may be like the next one.
fn frames_before(alloc: Global, process: &Process, most: u64) -> Result<Option<FrameList>, NoMemory>
    ensures { IfOk result (λ frames. IfSome frames (λ copies. copies ≡ process.now.frames)) }
{
    if most == 1 {
        return Ok(None);
    }
    Ok(Some(copy(alloc, process.frames.as_slice())?))
}

/// One turn of a process, with its lines.
fn take_turn(
    alloc: Global,
    server: &Server,
    process: &mut Process,
    made: &mut LineList,
) -> Result<TurnEnd, NoMemory>
    requires ready { MayGoOn server.now process.old }
    requires fresh { made.old ≡ [] }
    ensures gives { IfOk result (λ end. turn_of server.now (process_of (server_words server.now) process.old) ≡ record { process = process_of (server_words server.now) process.new; made = made.new; end = end }) }
    ensures ready { IfOk result (λ end. end ≡ TurnEnd.Again → MayGoOn server.now process.new) }
{
    let mut view = PlainView::new(alloc, server, process)?;
    turn(alloc, process, &mut view, made)
}

/// Whether the next turn is known to be like this one: it went on, made no line, and left the frames as they were.
fn is_repeated(end: TurnEnd, made: &LineList, before: &Option<FrameList>, process: &Process) -> bool
    ensures goes { IsTrue result → end ≡ TurnEnd.Again }
    ensures silent { IsTrue result → made.now ≡ [] }
    ensures same { IsTrue result → IsSomeAnd before.now (λ frames. frames ≡ process.now.frames) }
{
    end == TurnEnd::Again && made.is_empty() && stays(before, process)
}

/// Whether these frames are known, and are still those of the process.
fn stays(before: &Option<FrameList>, process: &Process) -> bool
    ensures { IsTrue result → IsSomeAnd before.now (λ frames. frames ≡ process.now.frames) }
{
    match before {
        Some(frames) => are_same(frames.as_slice(), process.frames.as_slice()),
        None => false,
    }
}

/// Counts so many turns at most that are like the one before, and answers how many.
fn count_repeated(process: &mut Process, repeats: bool, most: u64) -> u64
    ensures counted { process.new ≡ record process.old { turns = process.old.turns + result } }
    ensures none { repeats ≡ false → result ≡ 0 }
    ensures within { result ≤ most }
    ensures limit { process.old.turns + result ≤ MOST_TURNS }
{
    let room = (MOST_TURNS - process.turns) as u64;
    if !repeats {
        return 0;
    }
    let more = most.min(room);
    process.turns += more as u32;
    more
}
