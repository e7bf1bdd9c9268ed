//! The run of a script over words that its threads share.

ghost use Rattle.std.specs.Prelude.{All, ◌≡◌, ◌+◌, ◌<◌, ◌≤◌, ℕ, List, [], length, slice_get, IfOk, Some};
ghost use Rattle.term_core.specs.declared.atom.Mfa.{Mfa};
ghost use Rattle.script_core.specs.Sound.{IsScript};
ghost use Rattle.run_law.specs.Ends.{Closes, IsHistory};
ghost use Rattle.run_log.specs.ExportedFunctions.{AreExportedFunctions};
ghost use Rattle.run_log.specs.Legal.{Legal};
ghost use Rattle.run_log.specs.WellFormed.{IsWellFormed};
ghost use Rattle.run_log.specs.WholeSpans.{AreWhole};
ghost use Rattle.inbox.specs.Queues.{QueueId};
ghost use Rattle.shared_words.specs.Making.{AreMembersBegun, AreWatchersBegun, IsHanding};
ghost use Rattle.shared_words.specs.Seats.{IsWriterSeat, writer_of};
ghost use Rattle.word_permit.specs.Runs.{IsOverWords};
ghost use Rattle.word_run.specs.declared.beginning.TheConstants.{MOST_SCHEDULERS};
ghost use Rattle.word_run.specs.Beginning.{BeginsRun, exports_after};
ghost use Rattle.word_run.specs.Names.{HasTable};
ghost use Rattle.word_run.specs.Onlookers.{AreOnlookers};

use crate::beginning::{begin_run, numbered, open_inboxes};
use crate::looking::open_onlookers;
use crate::onlooker::Onlooker;
use crate::ran::Ran;
use crate::rounds::run_rounds;
use code_law::{CodeLaw, Naming};
use export_table::ExportTable;
use inbox::{InboxNames, Opening};
use log_forms::entry_count;
use observers::observers_begin;
use run_log::{MfaList, exported_functions};
use script_core::Script;
use shared_words::{Member, Parts, Shared, Writer};
use std::alloc::Global;
use std::marker::Brand;
use std::sync::Wait;
use std::thread::Threads;
use term_core::NoMemory;
use word_lap::{Newcomer, TableName};
use word_permit::RunName;
use write_permit::Gate;

/// Runs a script by so many schedulers over the words that they share, each in a thread of its own where one can be made, and answers what was done.
///
/// It works in rounds. In a round each scheduler has a slice: its loaders load, purge, delete, put, erase, trace and spawn, and areas that nobody has any
/// more are released, while other threads run turns. Beside the slices of a round each observer that lacks snapshots takes one, in a thread of its own where
/// one can be made: it delays thread progress, reads the newest generation that it finds, and goes on. After the last round it takes all that it lacks.
/// Process p and loader p are those of scheduler p modulo their number. The run ends when all commands are made, all processes have ended and no area
/// waits for its release; a process that goes on for ever keeps it from ending. It takes memory for the words, the server, the processes and the log.
///
/// Rule: Erlang/OTP erts internal documentation, CodeLoading and ThreadProgress; rounds are this project's own.
pub fn run_script<R: Threads + Wait + Sync, G: Gate>(
    rt: &R,
    alloc: Global,
    script: &Script,
    schedulers: u32,
    gate: &G,
) -> Result<Ran, NoMemory>
    requires script { IsScript script.now }
    requires some { 0 < schedulers }
    requires few { schedulers ≤ MOST_SCHEDULERS }
    // The log is a history of one code server.
    ensures legal { IfOk result (λ ran. Legal script.now ran.log) }
    // Turns of a process in a row under one generation are one span.
    ensures whole { IfOk result (λ ran. All (λ process. AreWhole process.spans) ran.log.processes) }
    // A report can show it.
    ensures formed { IfOk result (λ ran. IsWellFormed script.now.names ran.log) }
    // The words have published the generations of the journal, and have a mark for each turn.
    ensures closes { IfOk result (λ ran. (names : List Mfa) × Closes names script.now ran.log (writer_of ran.closed.writer.seat.me.0)) }
    // They have as many members as schedulers were asked for.
    ensures members { IfOk result (λ ran. length (writer_of ran.closed.writer.seat.me.0).members ≡ schedulers) }
{
    let functions = exported_functions(alloc, script)?;
    run_over::<Brand, R, G>(rt, alloc, script, &functions, schedulers, gate)
}

/// The run by the numbers that these names have, over words of its own.
fn run_over<K: Naming + Send + Sync, R: Threads + Wait + Sync, G: Gate>(
    rt: &R,
    alloc: Global,
    script: &Script,
    _functions: &MfaList,
    schedulers: u32,
    gate: &G,
) -> Result<Ran, NoMemory>
    requires script { IsScript script.now }
    requires some { 0 < schedulers }
    requires few { schedulers ≤ MOST_SCHEDULERS }
    requires functions { AreExportedFunctions script.now.names script.now.modules _functions.now }
    requires picked { K.names ≡ exports_after [] _functions.now }
    ensures legal { IfOk result (λ ran. Legal script.now ran.log) }
    ensures whole { IfOk result (λ ran. All (λ process. AreWhole process.spans) ran.log.processes) }
    ensures formed { IfOk result (λ ran. IsWellFormed script.now.names ran.log) }
    ensures closes { IfOk result (λ ran. Closes K.names script.now ran.log (writer_of ran.closed.writer.seat.me.0)) }
    ensures members { IfOk result (λ ran. length (writer_of ran.closed.writer.seat.me.0).members ≡ schedulers) }
{
    let observers = script.observers.len() as u32;
    let (shared, parts) = Shared::<CodeLaw<K>>::new(alloc, schedulers, observers)?;
    run_on::<K, R, G>(rt, alloc, shared, parts, script, gate)
}

/// Runs a script over words that were just made, with the tokens of their writer and of all their members and watchers, and answers what was done: by as many
/// schedulers as there are members. Watchers beyond the script's observers are not used. `run_script` makes the words and calls this.
pub fn run_on<K: Naming + Send + Sync, R: Threads + Wait + Sync, G: Gate>(
    rt: &R,
    alloc: Global,
    shared: Shared<CodeLaw<K>>,
    parts: Parts,
    script: &Script,
    gate: &G,
) -> Result<Ran, NoMemory>
    requires script { IsScript script.now }
    requires some { 0 < shared.table.shared.key.members }
    // The names of functions have their numbers by the order of the script's exported functions.
    requires names { (functions : List Mfa) → AreExportedFunctions script.now.names script.now.modules functions → K.names ≡ exports_after [] functions }
    // No step was made since `Shared::new`.
    requires token { IsWriterSeat shared.table.shared.table_id shared.table.shared.key parts.writer.generation parts.writer.seat }
    requires writer { IsHanding shared.table.shared.table_id shared.table.shared.key (shared.table.shared.key.members + shared.table.shared.key.watchers) parts.writer.seat }
    requires members { AreMembersBegun shared.table.shared.table_id shared.table.shared.key.members parts.members.items }
    requires watchers { AreWatchersBegun shared.table.shared.table_id shared.table.shared.key.watchers parts.watchers.items }
    // There is a watcher for each observer of the script.
    requires enough { length script.now.observers ≤ shared.table.shared.key.watchers }
    // The log is a history of one code server.
    ensures legal { IfOk result (λ ran. Legal script.now ran.log) }
    // Turns of a process in a row under one generation are one span.
    ensures whole { IfOk result (λ ran. All (λ process. AreWhole process.spans) ran.log.processes) }
    // A report can show it.
    ensures formed { IfOk result (λ ran. IsWellFormed script.now.names ran.log) }
    // The words have published the generations of the journal, and have a mark for each turn.
    ensures closes { IfOk result (λ ran. Closes K.names script.now ran.log (writer_of ran.closed.writer.seat.me.0)) }
    // They are the words that were given, and each of their members is in them.
    ensures table { IfOk result (λ ran. ran.closed.writer.seat.table_id ≡ shared.table.shared.table_id) }
    ensures members { IfOk result (λ ran. length (writer_of ran.closed.writer.seat.me.0).members ≡ shared.table.shared.key.members) }
{
    observers_begin();
    let functions = exported_functions(alloc, script)?;
    let exports = numbered(alloc, functions.as_slice())?;
    let Parts {
        writer,
        members,
        watchers,
    } = parts;
    let onlookers = open_onlookers(alloc, script.observers.as_slice(), watchers)?;
    let ran = run_named::<K, Brand, Brand, R, G>(
        rt, alloc, script, &functions, exports, shared, writer, members, onlookers, gate,
    )?;
    // The proof reads it: what stands in memory is short, so its numbers fit into a report's.
    let _entries = entry_count(&ran.log.journal);
    Ok(ran)
}

/// The run over these words.
fn run_named<K, N, T, R, G>(
    rt: &R,
    alloc: Global,
    script: &Script,
    functions: &MfaList,
    exports: ExportTable,
    shared: Shared<CodeLaw<K>>,
    writer: Writer,
    members: Vec<Member>,
    onlookers: Vec<Onlooker>,
    gate: &G,
) -> Result<Ran, NoMemory>
where
    K: Naming + Send + Sync,
    N: RunName + Send + Sync,
    T: TableName + Send + Sync,
    R: Threads + Wait + Sync,
    G: Gate,
    requires script { IsScript script.now }
    requires functions { AreExportedFunctions script.now.names script.now.modules functions.now }
    requires names { K.names ≡ exports_after [] functions.now }
    requires exports { exports ≡ K.names }
    requires words { IsOverWords shared.table.shared.table_id shared.table.shared.key N.run }
    requires table { HasTable N.run T.table }
    requires writer { BeginsRun writer script.now N.run }
    requires members { AreMembersBegun shared.table.shared.table_id shared.table.shared.key.members members.items }
    requires onlookers { AreOnlookers K.names functions.now shared.table.shared.table_id script.now.observers onlookers.items }
    requires some { 0 < shared.table.shared.key.members }
    ensures history { IfOk result (λ ran. IsHistory K.names script.now ran.log (writer_of ran.closed.writer.seat.me.0)) }
    ensures table { IfOk result (λ ran. ran.closed.writer.seat.table_id ≡ shared.table.shared.table_id) }
    ensures members { IfOk result (λ ran. length (writer_of ran.closed.writer.seat.me.0).members ≡ shared.table.shared.key.members) }
{
    let openings = open_inboxes::<T>(alloc, shared.members())?;
    run_posted::<K, N, T, Brand, R, G>(
        rt, alloc, script, functions, exports, shared, writer, members, onlookers, openings, gate,
    )
}

/// The run over these inboxes.
fn run_posted<K, N, T, I, R, G>(
    rt: &R,
    alloc: Global,
    script: &Script,
    functions: &MfaList,
    exports: ExportTable,
    shared: Shared<CodeLaw<K>>,
    writer: Writer,
    members: Vec<Member>,
    onlookers: Vec<Onlooker>,
    openings: Vec<Opening<Newcomer<T>>>,
    gate: &G,
) -> Result<Ran, NoMemory>
where
    K: Naming + Send + Sync,
    N: RunName + Send + Sync,
    T: TableName + Send + Sync,
    I: InboxNames + Send + Sync,
    R: Threads + Wait + Sync,
    G: Gate,
    requires script { IsScript script.now }
    requires functions { AreExportedFunctions script.now.names script.now.modules functions.now }
    requires names { K.names ≡ exports_after [] functions.now }
    requires exports { exports ≡ K.names }
    requires words { IsOverWords shared.table.shared.table_id shared.table.shared.key N.run }
    requires table { HasTable N.run T.table }
    requires writer { BeginsRun writer script.now N.run }
    requires members { AreMembersBegun shared.table.shared.table_id shared.table.shared.key.members members.items }
    requires onlookers { AreOnlookers K.names functions.now shared.table.shared.table_id script.now.observers onlookers.items }
    requires some { 0 < shared.table.shared.key.members }
    requires openings { length openings.items ≡ shared.table.shared.key.members }
    requires queues { (k : ℕ) (id : QueueId) → slice_get openings.items k ≡ Some id → I.queue k ≡ Some id }
    ensures history { IfOk result (λ ran. IsHistory K.names script.now ran.log (writer_of ran.closed.writer.seat.me.0)) }
    ensures table { IfOk result (λ ran. ran.closed.writer.seat.table_id ≡ shared.table.shared.table_id) }
    ensures members { IfOk result (λ ran. length (writer_of ran.closed.writer.seat.me.0).members ≡ shared.table.shared.key.members) }
{
    let run = begin_run::<K, N, T, I>(
        alloc, script, functions, shared, writer, members, exports, openings, onlookers,
    )?;
    run_rounds(rt, alloc, script, gate, functions, run)
}
