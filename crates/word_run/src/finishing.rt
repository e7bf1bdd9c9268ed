//! The end of a run: all tokens come in, and what was done is told.

ghost use Rattle.std.specs.Prelude.{◌≡◌, ◌<◌, ℕ, IfOk, OnOk, Some, length, slice_get};
ghost use Rattle.observers.specs.Observing.{Observes};
ghost use Rattle.run_law.specs.Ends.{IsHistory};
ghost use Rattle.run_log.specs.ExportedFunctions.{AreExportedFunctions};
ghost use Rattle.script_core.specs.Processes.{spawns_of};
ghost use Rattle.script_core.specs.Sound.{IsScript};
ghost use Rattle.shared_words.specs.Seats.{writer_of};
ghost use Rattle.word_permit.specs.Books.{KeepsRun};
ghost use Rattle.word_permit.specs.Runs.{IsOverWords};
ghost use Rattle.word_run.specs.declared.onlooker.Onlooker.{Onlooker};
ghost use Rattle.word_run.specs.Desks.{IsDesk};
ghost use Rattle.word_run.specs.Finished.{AreLogged, AreSettled, HasGathered};
ghost use Rattle.word_run.specs.Loaders.{AreEnds, AreInboxes, AreTakers};
ghost use Rattle.word_run.specs.Names.{HasTable};
ghost use Rattle.word_run.specs.Onlookers.{AreOnlookers, HaveLeft};
ghost use Rattle.word_run.specs.Rounds.{AreAllIdle, HaveTakers, IsDone, IsRun};

use crate::desk::Desk;
use crate::looking::{Watched, take_rest};
use crate::parted::{Parted, take_apart};
use crate::process_logs::process_logs;
use crate::ran::Ran;
use crate::run::Run;
use crate::seat::Seat;
use code_law::{CodeLaw, Naming};
use inbox::{Inbox, InboxNames, Poster, Taker};
use run_law::{closed_tables_tell, journals_are_sound, runs_are_histories};
use run_log::{EntryList, MfaList, ObserverList, RunLog};
use script_core::Script;
use shared_words::{Member, Parts, Shared, Writer, close};
use staging::Tables;
use std::alloc::Global;
use std::sync::Wait;
use term_core::NoMemory;
use word_lap::{Newcomer, ProcessRun, TableName, kept_processes_have_run};
use word_permit::{Finished, RunName};

/// What is left of a desk.
#[derive(Drop)]
struct Handed<T: TableName, I: InboxNames> {
    journal: EntryList,
    writer: Writer,
    posters: Vec<Poster<Newcomer<T>, I>>,
}

/// What a run has once the ends of its inboxes came together.
#[derive(Drop)]
struct Gathered {
    journal: EntryList,
    writer: Writer,
    members: Vec<Member>,
    processes: Vec<Vec<Option<ProcessRun>>>,
}

/// What is left of a run that has ended: its words, what its observers leave, and what came together.
#[derive(Drop)]
struct Ended<K: Naming> {
    shared: Shared<CodeLaw<K>>,
    watched: Watched,
    gathered: Gathered,
}

/// The log of a run that has nothing left to do, once its observers took the snapshots that they lack, and its words.
pub fn finish<K: Naming, N: RunName, T: TableName, I: InboxNames, R: Wait>(
    rt: &R,
    alloc: Global,
    script: &Script,
    functions: &MfaList,
    run: Run<K, N, T, I>,
) -> Result<Ran, NoMemory>
    requires words { IsOverWords run.shared.table.shared.table_id run.shared.table.shared.key N.run }
    requires table { HasTable N.run T.table }
    requires run { IsRun K.names script.now run.shared.table.shared.table_id run.shared.table.shared.key run.desk run.inboxes.items run.seats.items run.sight }
    requires done { IsDone run.desk }
    requires idle { AreAllIdle run.seats.items }
    requires functions { AreExportedFunctions script.now.names script.now.modules functions.now }
    requires onlookers { AreOnlookers K.names functions.now run.shared.table.shared.table_id script.now.observers run.onlookers.items }
    ensures history { IfOk result (λ ran. IsHistory K.names script.now ran.log (writer_of ran.closed.writer.seat.me.0)) }
    ensures table { IfOk result (λ ran. ran.closed.writer.seat.table_id ≡ run.shared.table.shared.table_id) }
    ensures members { IfOk result (λ ran. length (writer_of ran.closed.writer.seat.me.0).members ≡ run.shared.table.shared.key.members) }
{
    journals_are_sound();
    closed_tables_tell();
    kept_processes_have_run();
    runs_are_histories();
    let ended = end_run(rt, alloc, functions, run)?;
    let Ended {
        shared,
        watched,
        gathered,
    } = ended;
    let Watched { watchers, logs } = watched;
    let Gathered {
        journal,
        writer,
        members,
        processes,
    } = gathered;
    let parts = Parts {
        writer,
        members,
        watchers,
    };
    let log = log_run(alloc, script, journal, processes, logs)?;
    let closed = close(alloc, shared, parts)?;
    Ok(Ran { log, closed })
}

/// All ends come together, and the observers take the snapshots that they lack.
fn end_run<K: Naming, N: RunName, T: TableName, I: InboxNames, R: Wait>(
    rt: &R,
    alloc: Global,
    functions: &MfaList,
    run: Run<K, N, T, I>,
) -> Result<Ended<K>, NoMemory>
    requires exports { run.sight.exports ≡ K.names }
    requires observe { (k : ℕ) (onlooker : Onlooker) → slice_get run.onlookers.items k ≡ Some onlooker → Observes K.names functions.now run.shared.table.shared.table_id onlooker.observer }
    requires many { length run.desk.posted ≡ length run.inboxes.items }
    requires inboxes { AreInboxes run.inboxes.items }
    requires takers { HaveTakers run.seats.items }
    ensures shared { IfOk result (λ ended. ended.shared ≡ run.shared) }
    ensures watched { IfOk result (λ ended. HaveLeft K.names functions.now run.shared.table.shared.table_id run.onlookers.items ended.watched.watchers.items ended.watched.logs) }
    ensures gathered { IfOk result (λ ended. HasGathered K.names N.run run.desk run.seats.items ended.gathered.journal ended.gathered.writer ended.gathered.members.items ended.gathered.processes.items) }
{
    let Run {
        shared,
        desk,
        inboxes,
        seats,
        onlookers,
        sight,
    } = run;
    let gathered = gather(rt, alloc, desk, inboxes, seats)?;
    let watched = take_rest(alloc, &shared, functions, &sight.exports, onlookers)?;
    Ok(Ended {
        shared,
        watched,
        gathered,
    })
}

/// The ends of all inboxes come together, and the schedulers and the desk are taken apart.
fn gather<K: Naming, N: RunName, T: TableName, I: InboxNames, R: Wait>(
    rt: &R,
    alloc: Global,
    desk: Desk<K, N, T, I>,
    inboxes: Vec<Inbox<Newcomer<T>, I>>,
    seats: Vec<Seat<T, I>>,
) -> Result<Gathered, NoMemory>
    requires many { length desk.posted ≡ length inboxes.items }
    requires inboxes { AreInboxes inboxes.items }
    requires takers { HaveTakers seats.items }
    ensures { IfOk result (λ gathered. HasGathered K.names N.run desk seats.items gathered.journal gathered.writer gathered.members.items gathered.processes.items) }
{
    let handed = hand_in(desk);
    let Handed {
        journal,
        writer,
        posters,
    } = handed;
    let parted = take_apart(alloc, seats)?;
    let Parted {
        members,
        takers,
        processes,
    } = parted;
    settle(rt, inboxes, posters, takers)?;
    Ok(Gathered {
        journal,
        writer,
        members,
        processes,
    })
}

/// The log of a run: its journal, and what is told of its processes and of its observers.
fn log_run(
    alloc: Global,
    script: &Script,
    journal: EntryList,
    processes: Vec<Vec<Option<ProcessRun>>>,
    observers: ObserverList,
) -> Result<RunLog, NoMemory>
    requires script { IsScript script.now }
    requires some { 0 < length processes.items }
    ensures journal { IfOk result (λ log. log.journal ≡ journal) }
    ensures processes { IfOk result (λ log. AreLogged processes.items (length (spawns_of 0 script.now.loaders)) log.processes) }
    ensures observers { IfOk result (λ log. log.observers ≡ observers) }
{
    let processes = process_logs(alloc, script, processes)?;
    Ok(RunLog {
        journal,
        processes,
        observers,
    })
}

/// The desk taken apart.
fn hand_in<K: Naming, N: RunName, T: TableName, I: InboxNames>(
    desk: Desk<K, N, T, I>,
) -> Handed<T, I>
    ensures journal { result.journal ≡ desk.book.plain.journal }
    ensures writer { result.writer ≡ desk.book.tables.writer }
    ensures posters { result.posters.items ≡ desk.posted }
    ensures kept { KeepsRun K.names N.run desk.book }
    ensures desk { IsDesk desk }
{
    let Desk { permit, posters } = desk;
    permit.journal();
    let finished = permit.finish();
    let Finished { journal, tables } = finished;
    let writer = token_of(tables);
    Handed {
        journal,
        writer,
        posters,
    }
}

/// The token of the writer.
fn token_of(tables: Tables) -> Writer
    ensures { result ≡ tables.writer }
{
    tables.writer
}

/// The ends of all inboxes come together. Nothing is left in one: a slice takes its inbox until that is empty. No clause of a lock tells that nothing was
/// posted since, so it is counted.
fn settle<T: TableName, I: InboxNames, R: Wait>(
    rt: &R,
    inboxes: Vec<Inbox<Newcomer<T>, I>>,
    posters: Vec<Poster<Newcomer<T>, I>>,
    takers: Vec<Taker<Newcomer<T>, I>>,
) -> Result<(), NoMemory>
    requires many { length posters.items ≡ length inboxes.items }
    requires inboxes { AreInboxes inboxes.items }
    requires ends { AreEnds posters.items }
    requires takers { AreTakers takers.items }
    ensures { OnOk result (AreSettled posters.items takers.items) }
{
    let mut posters = posters.into_iter();
    let mut takers = takers.into_iter();
    for inbox in inboxes {
        let Some(poster) = posters.next() else {
            return Err(NoMemory);
        };
        let Some(taker) = takers.next() else {
            return Err(NoMemory);
        };
        let left = inbox.settle(rt, poster, taker);
        if left != 0 {
            return Err(NoMemory);
        }
    }
    Ok(())
}
