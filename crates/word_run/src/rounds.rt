//! The rounds of a run.

ghost use Rattle.std.specs.Prelude.{◌≡◌, ℕ, true, length, slice_get, IfOk, IsOk, OnOk, Some};
ghost use Rattle.run_law.specs.Ends.{IsHistory};
ghost use Rattle.run_log.specs.ExportedFunctions.{AreExportedFunctions};
ghost use Rattle.shared_words.specs.Seats.{writer_of};
ghost use Rattle.word_permit.specs.Runs.{IsOverWords};
ghost use Rattle.word_run.specs.Names.{HasTable};
ghost use Rattle.word_run.specs.declared.onlooker.Onlooker.{Onlooker};
ghost use Rattle.word_run.specs.declared.seat.Seat.{Seat};
ghost use Rattle.word_run.specs.Onlookers.{AreOnlookers};
ghost use Rattle.word_run.specs.Places.{EachBecame};
ghost use Rattle.word_run.specs.Rounds.{AreAllIdle, AreIdle, IsDone, IsRun};
ghost use Rattle.word_run.specs.Told.{HaveTakenPosted, HaveTakenTold, HearsNothing, KnowPosted};

use crate::desk::Desk;
use crate::finishing::finish;
use crate::onlooker::{Onlooker, have_looked};
use crate::ran::Ran;
use crate::round::whole_round;
use crate::run::Run;
use crate::seat::{Seat, are_idle};
use code_law::Naming;
use inbox::InboxNames;
use run_log::MfaList;
use script_core::Script;
use std::alloc::Global;
use std::sync::Wait;
use std::thread::Threads;
use term_core::NoMemory;
use word_lap::TableName;
use word_permit::RunName;
use write_permit::Gate;

/// The rounds of a run, up to its end. It ends with the first round that begins with all commands done and leaves no process.
pub fn run_rounds<K, N, T, I, R, G>(
    rt: &R,
    alloc: Global,
    script: &Script,
    gate: &G,
    functions: &MfaList,
    run: Run<K, N, T, I>,
) -> Result<Ran, NoMemory>
where
    K: Naming + Send + Sync,
    N: RunName + Send + Sync,
    T: TableName + Send + Sync,
    I: InboxNames + Send + Sync,
    R: Threads + Wait + Sync,
    G: Gate,
    requires words { IsOverWords run.shared.table.shared.table_id run.shared.table.shared.key N.run }
    requires table { HasTable N.run T.table }
    requires run { IsRun K.names script.now run.shared.table.shared.table_id run.shared.table.shared.key run.desk run.inboxes.items run.seats.items run.sight }
    requires functions { AreExportedFunctions script.now.names script.now.modules functions.now }
    requires onlookers { AreOnlookers K.names functions.now run.shared.table.shared.table_id script.now.observers run.onlookers.items }
    ensures history { IfOk result (λ ran. IsHistory K.names script.now ran.log (writer_of ran.closed.writer.seat.me.0)) }
    ensures table { IfOk result (λ ran. ran.closed.writer.seat.table_id ≡ run.shared.table.shared.table_id) }
    ensures members { IfOk result (λ ran. length (writer_of ran.closed.writer.seat.me.0).members ≡ run.shared.table.shared.key.members) }
{
    let mut run = run;
    for _ in rt.forever() {
        let turned = turn_round(rt, alloc, gate, functions, run);
        run = turned.0;
        let over = turned.1?;
        if over {
            return finish(rt, alloc, script, functions, run);
        }
    }
    unreachable!()
}

/// A round. Each scheduler is first told of all that was posted to it so far. Answers whether it ends the run: all commands were done as it began, and it
/// left no process.
fn turn_round<K, N, T, I, R, G>(
    rt: &R,
    alloc: Global,
    gate: &G,
    functions: &MfaList,
    run: Run<K, N, T, I>,
) -> (Run<K, N, T, I>, Result<bool, NoMemory>)
where
    K: Naming + Send + Sync,
    N: RunName + Send + Sync,
    T: TableName + Send + Sync,
    I: InboxNames + Send + Sync,
    R: Threads + Wait + Sync,
    G: Gate,
    requires words { IsOverWords run.shared.table.shared.table_id run.shared.table.shared.key N.run }
    requires table { HasTable N.run T.table }
    requires run { IsRun K.names run.desk.book.plain.script run.shared.table.shared.table_id run.shared.table.shared.key run.desk run.inboxes.items run.seats.items run.sight }
    requires onlookers { AreOnlookers K.names functions.now run.shared.table.shared.table_id run.desk.book.plain.script.observers run.onlookers.items }
    ensures run { OnOk result.1 (IsRun K.names run.desk.book.plain.script run.shared.table.shared.table_id run.shared.table.shared.key result.0.desk result.0.inboxes.items result.0.seats.items result.0.sight) }
    ensures shared { result.0.shared ≡ run.shared }
    ensures onlookers { OnOk result.1 (AreOnlookers K.names functions.now run.shared.table.shared.table_id run.desk.book.plain.script.observers result.0.onlookers.items) }
    ensures over { IfOk result.1 (λ over. over ≡ true → IsDone result.0.desk × AreAllIdle result.0.seats.items) }
    // Each scheduler was told of just what was posted to it before the round, and has taken all of it.
    ensures told { KnowPosted run.desk.posted result.0.seats.items }
    ensures taken { OnOk result.1 (HaveTakenPosted run.desk.posted result.0.seats.items) }
{
    let mut run = run;
    run.desk.tell(rt, &run.inboxes, &mut run.seats);
    slice_round(rt, alloc, gate, functions, run)
}

/// The same, once each scheduler was told.
fn slice_round<K, N, T, I, R, G>(
    rt: &R,
    alloc: Global,
    gate: &G,
    functions: &MfaList,
    run: Run<K, N, T, I>,
) -> (Run<K, N, T, I>, Result<bool, NoMemory>)
where
    K: Naming + Send + Sync,
    N: RunName + Send + Sync,
    T: TableName + Send + Sync,
    I: InboxNames + Send + Sync,
    R: Threads + Wait + Sync,
    G: Gate,
    requires words { IsOverWords run.shared.table.shared.table_id run.shared.table.shared.key N.run }
    requires table { HasTable N.run T.table }
    requires run { IsRun K.names run.desk.book.plain.script run.shared.table.shared.table_id run.shared.table.shared.key run.desk run.inboxes.items run.seats.items run.sight }
    requires onlookers { AreOnlookers K.names functions.now run.shared.table.shared.table_id run.desk.book.plain.script.observers run.onlookers.items }
    ensures run { OnOk result.1 (IsRun K.names run.desk.book.plain.script run.shared.table.shared.table_id run.shared.table.shared.key result.0.desk result.0.inboxes.items result.0.seats.items result.0.sight) }
    ensures shared { result.0.shared ≡ run.shared }
    ensures onlookers { OnOk result.1 (AreOnlookers K.names functions.now run.shared.table.shared.table_id run.desk.book.plain.script.observers result.0.onlookers.items) }
    ensures over { IfOk result.1 (λ over. over ≡ true → IsDone result.0.desk × AreAllIdle result.0.seats.items) }
    // Each scheduler was told of nothing meanwhile, and has taken all that it was told of before.
    ensures told { EachBecame HearsNothing run.seats.items result.0.seats.items }
    ensures taken { OnOk result.1 (HaveTakenTold result.0.seats.items) }
{
    let made = run.desk.is_over();
    let after = whole_round(rt, alloc, gate, functions, run);
    let over = was_last(made, &after.desk, &after.seats, &after.onlookers);
    (after, over)
}

/// Whether a round ended the run. Where a scheduler or an observer met want of memory this is told.
fn was_last<K: Naming, N: RunName, T: TableName, I: InboxNames>(
    made: bool,
    desk: &Desk<K, N, T, I>,
    seats: &[Seat<T, I>],
    onlookers: &[Onlooker],
) -> Result<bool, NoMemory>
    ensures ok { OnOk result ((k : ℕ) (seat : Seat T I) → slice_get seats.now k ≡ Some seat → IsOk seat.answer) }
    ensures looked { OnOk result ((k : ℕ) (onlooker : Onlooker) → slice_get onlookers.now k ≡ Some onlooker → IsOk onlooker.answer) }
    ensures over { IfOk result (λ over. over ≡ true → IsDone desk.now × AreIdle seats.now) }
{
    let idle = are_idle(seats)?;
    have_looked(onlookers)?;
    Ok(is_last(made, idle, desk))
}

/// Whether a round ends the run: it began with all commands done, no scheduler had anything left to do, and nothing came since.
fn is_last<K: Naming, N: RunName, T: TableName, I: InboxNames>(
    made: bool,
    idle: bool,
    desk: &Desk<K, N, T, I>,
) -> bool
    ensures { result ≡ true → (idle ≡ true) × IsDone desk.now }
{
    made && idle && desk.is_over()
}
