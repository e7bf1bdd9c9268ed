//! The beginning of a run.

ghost use Rattle.std.specs.Prelude.{◌≡◌, ◌<◌, ◌≤◌, ℕ, [], length, slice_get, IfOk, OnOk, Some};
ghost use Rattle.export_table.specs.Exports.{exports_with};
ghost use Rattle.inbox.specs.Queues.{QueueId};
ghost use Rattle.script_core.specs.Sound.{IsScript};
ghost use Rattle.run_log.specs.ExportedFunctions.{AreExportedFunctions};
ghost use Rattle.shared_words.specs.Making.{AreMembersBegun};
ghost use Rattle.word_lap.specs.Laws.{AreAllFree};
ghost use Rattle.word_run.specs.declared.beginning.TheConstants.{MOST_SCHEDULERS};
ghost use Rattle.word_run.specs.Beginning.{AddsSeat, AreOpened, BeginsRun, exports_after};
ghost use Rattle.word_run.specs.Rounds.{IsRun};

use crate::desk::Desk;
use crate::onlooker::Onlooker;
use crate::run::Run;
use crate::scheduler::{Scheduler, Slice};
use crate::seat::Seat;
use crate::sight::Sight;
use code_law::{CodeLaw, Naming};
use export_table::ExportTable;
use inbox::{Inbox, InboxNames, Opening, Poster};
use run_log::MfaList;
use script_core::Script;
use shared_words::{Member, PROCESSES, Shared, Writer};
use staging::Tables;
use std::alloc::Global;
use term_core::{Mfa, NoMemory};
use word_lap::{Newcomer, ProcessRun, TableName, schedulers_begin};
use word_permit::{Permit, RunName};

/// How many schedulers run a script at most.
pub const MOST_SCHEDULERS: u32 = 16;

/// The two ends of each inbox and the inboxes themselves, by number, and the schedulers.
#[derive(Drop)]
struct Stations<T: TableName, I: InboxNames> {
    inboxes: Vec<Inbox<Newcomer<T>, I>>,
    posters: Vec<Poster<Newcomer<T>, I>>,
    seats: Vec<Seat<T, I>>,
}

/// A table of these names, each of which is new, in this order. It takes memory.
pub fn numbered(alloc: Global, functions: &[Mfa]) -> Result<ExportTable, NoMemory>
    ensures { IfOk result (λ exports. exports ≡ exports_after [] functions.now) }
{
    let mut exports = ExportTable::new(alloc)?;
    for function in functions {
        add_name(&mut exports, *function)?;
    }
    Ok(exports)
}

/// A name joins the table.
fn add_name(exports: &mut ExportTable, function: Mfa) -> Result<(), NoMemory>
    ensures { OnOk result (exports.new ≡ exports_with exports.old function) }
{
    match exports.add(function) {
        Ok(_) => Ok(()),
        Err(_) => Err(NoMemory),
    }
}

/// So many inboxes in which nothing was posted. It takes memory.
pub fn open_inboxes<T: TableName>(
    alloc: Global,
    count: u32,
) -> Result<Vec<Opening<Newcomer<T>>>, NoMemory>
    ensures { IfOk result (λ openings. length openings.items ≡ count) }
{
    let mut openings = Vec::new(alloc);
    for _ in 0..count {
        openings.push(Opening::new(alloc)?)?;
    }
    Ok(openings)
}

/// A run before its first step, over these inboxes, with the tokens of all members by number, and its observers. It takes memory.
pub fn begin_run<K: Naming, N: RunName, T: TableName, I: InboxNames>(
    alloc: Global,
    script: &Script,
    functions: &MfaList,
    shared: Shared<CodeLaw<K>>,
    writer: Writer,
    members: Vec<Member>,
    exports: ExportTable,
    openings: Vec<Opening<Newcomer<T>>>,
    onlookers: Vec<Onlooker>,
) -> Result<Run<K, N, T, I>, NoMemory>
    requires script { IsScript script.now }
    // The names of functions have their numbers by the order of the script's exported functions.
    requires functions { AreExportedFunctions script.now.names script.now.modules functions.now }
    requires names { K.names ≡ exports_after [] functions.now }
    requires exports { exports ≡ K.names }
    // The words are new, and these are the tokens of their writer and of all their members.
    requires writer { BeginsRun writer script.now N.run }
    requires members { AreMembersBegun shared.table.shared.table_id shared.table.shared.key.members members.items }
    requires some { 0 < shared.table.shared.key.members }
    // There is an inbox for each member, whose queue has its name by its number.
    requires openings { length openings.items ≡ shared.table.shared.key.members }
    requires picked { (k : ℕ) (id : QueueId) → slice_get openings.items k ≡ Some id → I.queue k ≡ Some id }
    // The run is as it is between two rounds, and nothing was made yet.
    ensures run { IfOk result (λ run. IsRun K.names script.now run.shared.table.shared.table_id run.shared.table.shared.key run.desk run.inboxes.items run.seats.items run.sight) }
    ensures journal { IfOk result (λ run. run.desk.book.plain.journal ≡ []) }
    ensures shared { IfOk result (λ run. run.shared ≡ shared) }
    ensures onlookers { IfOk result (λ run. run.onlookers ≡ onlookers) }
{
    schedulers_begin();
    let stations = open_seats::<T, I>(alloc, members, openings)?;
    let permit = make_permit::<K, N>(alloc, script, functions, writer)?;
    let Stations {
        inboxes,
        posters,
        seats,
    } = stations;
    let sight = Sight {
        exports,
        loaders: script.loaders.len() as u32,
    };
    let desk = Desk { permit, posters };
    Ok(Run {
        shared,
        desk,
        inboxes,
        seats,
        onlookers,
        sight,
    })
}

/// The permit of a run before its first command, with a copy of the script and tables of this writer. It takes memory.
fn make_permit<K: Naming, N: RunName>(
    alloc: Global,
    script: &Script,
    functions: &MfaList,
    writer: Writer,
) -> Result<Permit<K, N>, NoMemory>
    requires script { IsScript script.now }
    requires functions { AreExportedFunctions script.now.names script.now.modules functions.now }
    requires names { K.names ≡ exports_after [] functions.now }
    requires writer { BeginsRun writer script.now N.run }
    ensures script_is { IfOk result (λ permit. permit.plain.script ≡ script.now) }
    ensures journal { IfOk result (λ permit. permit.plain.journal ≡ []) }
{
    let exports = numbered(alloc, functions.as_slice())?;
    let copy = script.copy(alloc)?;
    let tables = Tables::new(alloc, writer, exports)?;
    let permit = Permit::<K, N>::new(alloc, copy, tables)?;
    Ok(permit)
}

/// The inboxes, numbered by their places, and a scheduler without processes for each.
fn open_seats<T: TableName, I: InboxNames>(
    alloc: Global,
    members: Vec<Member>,
    openings: Vec<Opening<Newcomer<T>>>,
) -> Result<Stations<T, I>, NoMemory>
    requires members { length openings.items ≡ length members.items }
    requires few { length members.items ≤ MOST_SCHEDULERS }
    requires picked { (k : ℕ) (id : QueueId) → slice_get openings.items k ≡ Some id → I.queue k ≡ Some id }
    ensures { IfOk result (λ stations. AreOpened members.items stations.inboxes.items stations.posters.items stations.seats.items) }
{
    let mut stations = Stations {
        inboxes: Vec::new(alloc),
        posters: Vec::new(alloc),
        seats: Vec::new(alloc),
    };
    let mut openings = openings.into_iter();
    for member in members {
        let Some(opening) = openings.next() else {
            return Err(NoMemory);
        };
        open_seat::<T, I>(alloc, member, opening, &mut stations)?;
    }
    Ok(stations)
}

/// Appends the inbox of the next number, and the seat of its scheduler.
fn open_seat<T: TableName, I: InboxNames>(
    alloc: Global,
    member: Member,
    opening: Opening<Newcomer<T>>,
    stations: &mut Stations<T, I>,
) -> Result<(), NoMemory>
    requires few { length stations.old.seats.items < MOST_SCHEDULERS }
    requires picked { I.queue (length stations.old.seats.items) ≡ Some opening }
    ensures { OnOk result (AddsSeat member stations.old.inboxes.items stations.new.inboxes.items stations.old.posters.items stations.new.posters.items stations.old.seats.items stations.new.seats.items) }
{
    let number = stations.seats.len() as u32;
    let (inbox, poster, taker) = opening.named::<I>(number);
    let processes = no_processes(alloc)?;
    let scheduler = Scheduler::new(alloc, number, member, taker, processes);
    stations.inboxes.push(inbox)?;
    stations.posters.push(poster)?;
    stations.seats.push(Seat {
        scheduler,
        answer: Ok(Slice::Again),
    })?;
    Ok(())
}

/// A place for each process, all free.
fn no_processes(alloc: Global) -> Result<Vec<Option<ProcessRun>>, NoMemory>
    ensures { IfOk result (λ processes. AreAllFree processes.items) }
{
    let mut processes = Vec::new(alloc);
    for _ in 0..PROCESSES {
        processes.push(None)?;
    }
    Ok(processes)
}
