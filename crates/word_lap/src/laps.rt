//! The turns of a lap: each process that goes on has one, under the generation that the member holds.

ghost use Rattle.std.specs.Prelude.{◌≡◌, IfOk};
ghost use Rattle.anchors.specs.Holds.{view_of};
ghost use Rattle.word_lap.specs.LapTurns.{HadTurnAt, HadTurns, HaveGoneOn, HoldsAsBefore, IsReadyAt, SomeKept};
ghost use Rattle.word_lap.specs.Schedulers.{IsBetweenTurns, IsToken};

use crate::process_run::ProcessRun;
use crate::turns::take_turn;
use export_table::ExportTable;
use shared_words::{Member, Served, Shared};
use std::alloc::Global;
use term_core::NoMemory;
use write_permit::{Gate, Place};

/// A turn of the process at a place, where one is there that goes on; it passes the gate first. After `NoMemory` all is only dropped.
#[tactic(auto, using(crate::proofs::TurnsOfLap::nobody_here, crate::proofs::TurnsOfLap::over_here))]
fn turn_at<N: Served, G: Gate>(
    alloc: Global,
    shared: &Shared<N>,
    gate: &G,
    number: u32,
    member: Member,
    exports: &ExportTable,
    generation: u64,
    place: Option<ProcessRun>,
) -> (Member, Result<Option<ProcessRun>, NoMemory>)
    requires token { IsToken shared.now.table.shared.table_id member }
    requires held { (view_of member).member.generation ≡ generation }
    requires ready { IsReadyAt exports.now shared.now.table.shared.key (view_of member) place }
    ensures token { IfOk result.1 (λ _. IsToken shared.now.table.shared.table_id result.0) }
    ensures number { IfOk result.1 (λ _. result.0.number ≡ member.number) }
    ensures turn { IfOk result.1 (λ after. HadTurnAt exports.now shared.now.table.shared.key (view_of member) (view_of result.0) place after) }
{
    let Some(mut run) = place else {
        return (member, Ok(None));
    };
    if run.fin.is_some() {
        return (member, Ok(Some(run)));
    }
    gate.at(Place::TurnTaken, number);
    let (member, turned) = take_turn(alloc, shared, member, exports, generation, &mut run);
    match turned {
        Ok(()) => (member, Ok(Some(run))),
        Err(NoMemory) => (member, Err(NoMemory)),
    }
}

/// One turn of each process that goes on, under the generation that the member holds. It takes memory for what the turns make; after `NoMemory` all is only
/// dropped. No lock is taken, and nothing is waited for but at the gate, which each turn passes first, with the scheduler's number.
///
/// Rule: Erlang/OTP erts internal documentation, CodeLoading; a turn sees one generation.
pub fn take_turns<N: Served, G: Gate>(
    alloc: Global,
    shared: &Shared<N>,
    gate: &G,
    number: u32,
    member: Member,
    exports: &ExportTable,
    generation: u64,
    processes: &mut Vec<Option<ProcessRun>>,
) -> (Member, Result<(), NoMemory>)
    // no turn is under way, and each process is ready
    requires token { IsToken shared.now.table.shared.table_id member }
    requires between { IsBetweenTurns (view_of member) }
    requires held { (view_of member).member.generation ≡ generation }
    requires kept { SomeKept exports.now shared.now.table.shared.key (view_of member) processes.old.items }
    // no turn is under way still
    ensures token { IfOk result.1 (λ _. IsToken shared.now.table.shared.table_id result.0) }
    ensures number { IfOk result.1 (λ _. result.0.number ≡ member.number) }
    ensures between { IfOk result.1 (λ _. IsBetweenTurns (view_of result.0)) }
    ensures same { IfOk result.1 (λ _. HoldsAsBefore (view_of member) (view_of result.0)) }
    // each process that goes on had one turn, which left its mark, and each other one is as it was
    ensures kept { IfOk result.1 (λ _. HadTurns exports.now shared.now.table.shared.key (view_of member) (view_of result.0) processes.old.items processes.new.items) }
    ensures turns { IfOk result.1 (λ _. HaveGoneOn exports.now (view_of member) (view_of result.0) processes.old.items processes.new.items) }
{
    let mut member = member;
    for at in 0..processes.len() {
        let place = processes[at].take();
        let (back, turned) = turn_at(
            alloc, shared, gate, number, member, exports, generation, place,
        );
        member = back;
        match turned {
            Ok(after) => processes[at] = after,
            Err(NoMemory) => return (member, Err(NoMemory)),
        }
    }
    (member, Ok(()))
}
