//! Turns of a scheduler's processes, each under the generation that its member holds. None of these calls can wait.

ghost use Rattle.std.specs.Prelude.{◌≡◌, ◌+◌, ◌++◌, ◌∷◌, [], ◌≤◌, IfOk, length};
ghost use Rattle.run_steps.specs.Turns.{IsTaken};
ghost use Rattle.shared_words.specs.Processes.{held_by_view, process_of};
ghost use Rattle.machine_core.specs.Turn.{MayTurn};
ghost use Rattle.word_view.specs.Anchored.{holds_by};
ghost use Rattle.word_view.specs.Views.{MayBegin, shown_by};
ghost use Rattle.anchors.specs.Holds.{IsUnkilled, MayRun, anchors_of, view_of};
ghost use Rattle.anchors.specs.Turns.{LAST_TURN};
ghost use Rattle.word_lap.specs.Schedulers.{IsToken};
ghost use Rattle.word_lap.specs.Turning.{CountsOn, HadItsTurn, HasEndedWith, HasMarkedEnd, IsReady, JoinsTurn, MadeTurn, MayEndWith, fin_after};

use crate::ending::end_names;
use crate::process_run::ProcessRun;
use anchors::mark_turn;
use export_table::ExportTable;
use machine_core::{End, LineList, Process, TurnEnd};
use run_log::{Span, SpanList};
use shared_words::{Member, Served, Shared};
use std::alloc::Global;
use term_core::NoMemory;
use word_view::turn_of;

/// Takes out the span that a turn under this generation joins: the last one if it is of that generation, else a new one.
fn take_span(alloc: Global, generation: u64, spans: &mut SpanList) -> Result<Span, NoMemory>
    ensures { IfOk result (λ span. IsTaken generation spans.old spans.new span) }
{
    if let Some(span) = spans.pop() {
        if span.generation == generation {
            return Ok(span);
        }
        spans.push(span)?;
    }
    Ok(Span {
        generation,
        turns: 0,
        lines: LineList::new(alloc),
    })
}

/// The end of a process whose turn ended so, if it is one.
fn fin_after(end: TurnEnd) -> Option<End>
    ensures { result ≡ fin_after end }
{
    match end {
        TurnEnd::Again => None,
        TurnEnd::Ended(end) => Some(end),
    }
}

/// A process whose turn ended it names nothing any more.
#[tactic(auto, using(crate::proofs::TurnEnds::again_ends))]
fn end_with<N: Served>(shared: &Shared<N>, member: &mut Member, process: u32, end: TurnEnd)
    requires token { IsToken shared.now.table.shared.table_id member.old }
    requires run { MayRun shared.now.table.shared.key process (view_of member.old) }
    requires unkilled { IsUnkilled (anchors_of (view_of member.old) process) }
    requires by { MayEndWith process (view_of member.old) end }
    ensures token { IsToken shared.now.table.shared.table_id member.new }
    ensures number { member.new.number ≡ member.old.number }
    ensures ended { HasEndedWith process end (view_of member.old) (view_of member.new) }
{
    match end {
        TurnEnd::Again => (),
        TurnEnd::Ended(fin) => end_names(shared, member, process, fin),
    }
}

/// The same, and then the mark of the turn joins.
#[tactic(auto, using(crate::proofs::TurnEnds::runs_ended, crate::proofs::TurnEnds::may_mark, crate::proofs::TurnEnds::token_marked, crate::proofs::TurnEnds::marked_end))]
fn mark_end<N: Served>(
    shared: &Shared<N>,
    member: &mut Member,
    process: u32,
    turns: u32,
    end: TurnEnd,
)
    requires token { IsToken shared.now.table.shared.table_id member.old }
    requires run { MayRun shared.now.table.shared.key process (view_of member.old) }
    requires unkilled { IsUnkilled (anchors_of (view_of member.old) process) }
    requires by { MayEndWith process (view_of member.old) end }
    requires counts { CountsOn turns (length (process_of (view_of member.old) process).marks) end }
    ensures token { IsToken shared.now.table.shared.table_id member.new }
    ensures number { member.new.number ≡ member.old.number }
    ensures marked { HasMarkedEnd process turns end (view_of member.old) (view_of member.new) }
{
    end_with(shared, member, process, end);
    mark_turn(shared, member, process, turns);
}

/// The span of a turn that is done has one turn more, and the process has ended if the turn ended it.
fn join_span(end: TurnEnd, mut span: Span, run: &mut ProcessRun) -> Result<(), NoMemory>
    requires few { span.turns ≤ LAST_TURN }
    ensures { IfOk result (λ _. run.new ≡ record { process = run.old.process; spans = run.old.spans ++ record { generation = span.generation; turns = span.turns + 1; lines = span.lines } ∷ []; fin = fin_after end }) }
{
    run.fin = fin_after(end);
    span.turns += 1;
    run.spans.push(span)
}

/// A turn of the process, and the mark of it. After `NoMemory` the member and the process are only dropped.
#[tactic(auto, using(crate::proofs::TakenTurns::reading_of, crate::proofs::TakenTurns::turned_token, crate::proofs::TakenTurns::turned_run, crate::proofs::TakenTurns::turned_unkilled, crate::proofs::TakenTurns::turned_counts))]
fn turn_and_mark<N: Served>(
    alloc: Global,
    shared: &Shared<N>,
    member: Member,
    exports: &ExportTable,
    process: &mut Process,
    lines: &mut LineList,
) -> (Member, Result<TurnEnd, NoMemory>)
    requires token { IsToken shared.now.table.shared.table_id member }
    requires begins { MayBegin exports.now shared.now.table.shared.key process.old.number (view_of member) }
    requires turn { MayTurn (shown_by exports.now (held_by_view (view_of member))) (holds_by (anchors_of (view_of member) process.old.number)) process.old }
    requires counted { process.old.turns ≡ length (process_of (view_of member) process.old.number).marks }
    ensures token { IfOk result.1 (λ _. IsToken shared.now.table.shared.table_id result.0) }
    ensures number { IfOk result.1 (λ _. result.0.number ≡ member.number) }
    ensures turn { IfOk result.1 (MadeTurn exports.now shared.now.table.shared.key shared.now.table.shared.table_id member result.0 process.old process.new lines.old lines.new) }
{
    let number = process.number;
    let (mut member, end) = turn_of(alloc, shared, member, exports, number, process, lines);
    match end {
        Ok(end) => {
            mark_end(shared, &mut member, number, process.turns, end);
            (member, Ok(end))
        }
        Err(NoMemory) => (member, Err(NoMemory)),
    }
}

/// The same, and then its span stands behind the others with one turn more.
#[tactic(auto, using(crate::proofs::TakenTurns::turn_joins, crate::proofs::TakenTurns::ok_any))]
fn turn_joined<N: Served>(
    alloc: Global,
    shared: &Shared<N>,
    member: Member,
    exports: &ExportTable,
    mut span: Span,
    run: &mut ProcessRun,
) -> (Member, Result<(), NoMemory>)
    requires token { IsToken shared.now.table.shared.table_id member }
    requires begins { MayBegin exports.now shared.now.table.shared.key run.old.process.number (view_of member) }
    requires turn { MayTurn (shown_by exports.now (held_by_view (view_of member))) (holds_by (anchors_of (view_of member) run.old.process.number)) run.old.process }
    requires counted { run.old.process.turns ≡ length (process_of (view_of member) run.old.process.number).marks }
    requires few { span.turns ≤ LAST_TURN }
    ensures token { IfOk result.1 (λ _. IsToken shared.now.table.shared.table_id result.0) }
    ensures number { IfOk result.1 (λ _. result.0.number ≡ member.number) }
    ensures turn { IfOk result.1 (λ _. JoinsTurn exports.now shared.now.table.shared.key shared.now.table.shared.table_id member result.0 span run.old run.new) }
{
    let (member, end) = turn_and_mark(
        alloc,
        shared,
        member,
        exports,
        &mut run.process,
        &mut span.lines,
    );
    match end {
        Ok(end) => (member, join_span(end, span, run)),
        Err(NoMemory) => (member, Err(NoMemory)),
    }
}

/// One turn of a process that goes on. It takes memory for what the turn makes; after `NoMemory` the member and the process are only dropped.
///
/// Rule: Erlang/OTP erts internal documentation, CodeLoading; a turn sees one generation.
#[tactic(auto, using(crate::proofs::TakenTurns::span_few))]
pub fn take_turn<N: Served>(
    alloc: Global,
    shared: &Shared<N>,
    member: Member,
    exports: &ExportTable,
    generation: u64,
    run: &mut ProcessRun,
) -> (Member, Result<(), NoMemory>)
    requires token { IsToken shared.now.table.shared.table_id member }
    requires held { (view_of member).member.generation ≡ generation }
    requires ready { IsReady exports.now shared.now.table.shared.key (view_of member) run.old }
    ensures token { IfOk result.1 (λ _. IsToken shared.now.table.shared.table_id result.0) }
    ensures number { IfOk result.1 (λ _. result.0.number ≡ member.number) }
    ensures turn { IfOk result.1 (λ _. HadItsTurn exports.now shared.now.table.shared.key (view_of member) (view_of result.0) run.old run.new) }
{
    match take_span(alloc, generation, &mut run.spans) {
        Ok(span) => turn_joined(alloc, shared, member, exports, span, run),
        Err(NoMemory) => (member, Err(NoMemory)),
    }
}
