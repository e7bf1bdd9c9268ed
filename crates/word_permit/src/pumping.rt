//! A retired area is released once no thread reads it and no slot names it.

ghost use Rattle.std.specs.Prelude.{◌≡◌, ◌≤◌, [], length, slice_get, unwrap_or, IfErr, IfOk, IfSome, IsTrue, None, OnErr, OnOk, Some};
ghost use Rattle.marks.specs.declared.kept.LookKind.TheVariants.{Both};
ghost use Rattle.shared_words.specs.Slots.{IsClear, LookMayBegin};
ghost use Rattle.progress_words.specs.Needs.{IsBelow};
ghost use Rattle.progress_words.specs.Tokens.{written_by};
ghost use Rattle.breakpoints.specs.Patches.{LoadsCounter};
ghost use Rattle.server_core.specs.ServerState.{is_retired};
ghost use Rattle.staging.specs.Whose.{KeepsKnown};
ghost use Rattle.word_permit.specs.declared.book.AreaNeed.{AreaNeed};
ghost use Rattle.word_permit.specs.Books.{IsWordBook};
ghost use Rattle.word_permit.specs.Looks.{KeepsLooks};
ghost use Rattle.word_permit.specs.Needs.{IsAwaited};
ghost use Rattle.word_permit.specs.Pumped.{HasReleased, LooksFound, PumpAnswers, ReleasesNone, asked_behind};

use crate::answers::Pumped;
use crate::book::{AreaNeed, WordBook};
use anchors::{Scan, scan};
use change_laws::decided_commands_stay;
use code_index::counters_keep_index;
use code_law::{CodeLaw, Naming};
use literal_areas::{counters_keep_pools, looks_keep_pools};
use progress_words::{NotYet, later, reached};
use run_log::Who;
use server_core::{Cmd, Server, changes_wait_for_releases};
use shared_words::Shared;
use staging::{clear_areas_are_releasable, clear_areas_are_releasable_while_settling, release};
use term_core::{AreaRef, NoMemory};
use term_table::counters_keep_tables;
use write_permit::book::make;

/// Releases an area that waits, once no thread reads a generation that uses it and no slot names it. Where a slot does, the next call asks for the next area.
pub fn pump_book<K: Naming>(
    book: &mut WordBook,
    shared: &Shared<CodeLaw<K>>,
) -> Result<Pumped, NoMemory>
    requires book { IsWordBook K.names shared.now.table.shared.table_id shared.now.table.shared.key book.old }
    ensures ok { IfOk result (PumpAnswers book.old book.new) }
    ensures err { OnErr result (ReleasesNone book.old book.new) }
    ensures script { book.new.plain.script ≡ book.old.plain.script }
    ensures book { IsWordBook K.names shared.now.table.shared.table_id shared.now.table.shared.key book.new }
{
    let Some(need) = awaited(book, shared) else {
        return Ok(Pumped::Nothing);
    };
    match is_reached(book, shared, need) {
        Err(answer) => Ok(Pumped::NotYet(answer)),
        Ok(()) => look_for(book, shared, need.serial),
    }
}

/// What is waited for: the value that was taken for an area which waits still, or one that is taken now for the area that has waited longest.
#[tactic(auto, using(crate::proofs::Awaiting::need_at, crate::proofs::Looked::looks_same))]
fn awaited<K: Naming>(book: &mut WordBook, shared: &Shared<CodeLaw<K>>) -> Option<AreaNeed>
    requires book { IsWordBook K.names shared.now.table.shared.table_id shared.now.table.shared.key book.old }
    // one of an area that waits, or none does
    ensures some { IfSome result (λ n. IsTrue (is_retired book.old.plain.server n.serial) × IsAwaited (written_by book.new.tables.writer) n) }
    ensures none { result ≡ None → book.old.plain.server.retired ≡ [] }
    // it is kept, and is the one before, if that is of an area that waits still
    ensures kept { IfSome result (λ n. book.new.need ≡ Some n) }
    ensures same { (before : AreaNeed) → book.old.need ≡ Some before → IsTrue (is_retired book.old.plain.server before.serial) → result ≡ Some before }
    // nothing is released, no slot is looked at, and no load of the counter is forgotten
    ensures none_released { ReleasesNone book.old book.new }
    ensures longer { length (written_by book.old.tables.writer).pairs ≤ length (written_by book.new.tables.writer).pairs }
    ensures looks { KeepsLooks (written_by book.old.tables.writer) (written_by book.new.tables.writer) }
    ensures plain { book.new.plain ≡ book.old.plain }
    ensures book { IsWordBook K.names shared.now.table.shared.table_id shared.now.table.shared.key book.new }
{
    if let Some(need) = still_awaited(book) {
        return Some(need);
    }
    let serial = book.plain.server.oldest_retired()?;
    Some(take_need(book, shared, serial))
}

/// The value that was taken for an area which waits still.
fn still_awaited(book: &WordBook) -> Option<AreaNeed>
    ensures waits { IfSome result (λ n. IsTrue (is_retired book.now.plain.server n.serial)) }
    ensures kept { IfSome result (λ n. book.now.need ≡ Some n) }
    ensures same { (before : AreaNeed) → book.now.need ≡ Some before → IsTrue (is_retired book.now.plain.server before.serial) → result ≡ Some before }
{
    match book.need {
        Some(need) => {
            if book.plain.server.retired(need.serial) {
                Some(need)
            } else {
                None
            }
        }
        None => None,
    }
}

/// Takes a value to wait for, by which no thread reads a generation that uses the area.
fn take_need<K: Naming>(book: &mut WordBook, shared: &Shared<CodeLaw<K>>, serial: u64) -> AreaNeed
    requires book { IsWordBook K.names shared.now.table.shared.table_id shared.now.table.shared.key book.old }
    requires waits { IsTrue (is_retired book.old.plain.server serial) }
    // it is waited for
    ensures serial { result.serial ≡ serial }
    ensures awaited { IsAwaited (written_by book.new.tables.writer) result }
    ensures kept { book.new.need ≡ Some result }
    // the writer keeps what it knew, has looked at no slot, and has released nothing
    ensures known { KeepsKnown (written_by book.old.tables.writer) (written_by book.new.tables.writer) }
    ensures counter { (written_by book.old.tables.writer).counter ≤ (written_by book.new.tables.writer).counter }
    ensures longer { length (written_by book.old.tables.writer).pairs ≤ length (written_by book.new.tables.writer).pairs }
    ensures looks { KeepsLooks (written_by book.old.tables.writer) (written_by book.new.tables.writer) }
    ensures none_released { ReleasesNone book.old book.new }
    ensures plain { book.new.plain ≡ book.old.plain }
    ensures book { IsWordBook K.names shared.now.table.shared.table_id shared.now.table.shared.key book.new }
{
    counters_keep_index();
    counters_keep_tables();
    counters_keep_pools();
    let value = later(shared, &mut book.tables.writer);
    let need = AreaNeed { serial, value };
    book.need = Some(need);
    need
}

/// Whether the value is reached.
fn is_reached<K: Naming>(
    book: &mut WordBook,
    shared: &Shared<CodeLaw<K>>,
    need: AreaNeed,
) -> Result<(), NotYet>
    requires book { IsWordBook K.names shared.now.table.shared.table_id shared.now.table.shared.key book.old }
    requires awaited { IsAwaited (written_by book.old.tables.writer) need }
    ensures ok { OnOk result (LookMayBegin (written_by book.new.tables.writer) Both need.serial) }
    ensures late { IfErr result (IsBelow need.value (written_by book.new.tables.writer)) }
    ensures loads { LoadsCounter (written_by book.old.tables.writer) (written_by book.new.tables.writer) }
    // it is waited for as before
    ensures awaited { IsAwaited (written_by book.new.tables.writer) need }
    ensures kept { book.new.need ≡ book.old.need }
    ensures none_released { ReleasesNone book.old book.new }
    ensures looks { KeepsLooks (written_by book.old.tables.writer) (written_by book.new.tables.writer) }
    ensures plain { book.new.plain ≡ book.old.plain }
    ensures book { IsWordBook K.names shared.now.table.shared.table_id shared.now.table.shared.key book.new }
{
    counters_keep_index();
    counters_keep_tables();
    counters_keep_pools();
    reached(shared, &mut book.tables.writer, need.value)
}

/// Looks for the area in all slots. It is released where no anchor names it; else the next area is waited for.
fn look_for<K: Naming>(
    book: &mut WordBook,
    shared: &Shared<CodeLaw<K>>,
    serial: u64,
) -> Result<Pumped, NoMemory>
    requires book { IsWordBook K.names shared.now.table.shared.table_id shared.now.table.shared.key book.old }
    requires waits { IsTrue (is_retired book.old.plain.server serial) }
    requires may { LookMayBegin (written_by book.old.tables.writer) Both serial }
    ensures ok { IfOk result (PumpAnswers book.old book.new) }
    ensures err { OnErr result (ReleasesNone book.old book.new) }
    ensures script { book.new.plain.script ≡ book.old.plain.script }
    ensures book { IsWordBook K.names shared.now.table.shared.table_id shared.now.table.shared.key book.new }
{
    match look_through(book, shared, serial) {
        Scan::Clear { .. } => {
            release_area(book, shared, serial)?;
            Ok(Pumped::Released(serial))
        }
        Scan::Named {
            process,
            turn,
            place,
            word,
        } => {
            let next = next_behind(&book.plain.server, serial);
            take_need(book, shared, next);
            Ok(Pumped::Named {
                serial,
                process,
                turn,
                place,
                word,
            })
        }
    }
}

/// Looks through all slots for the area.
fn look_through<K: Naming>(book: &mut WordBook, shared: &Shared<CodeLaw<K>>, serial: u64) -> Scan
    requires book { IsWordBook K.names shared.now.table.shared.table_id shared.now.table.shared.key book.old }
    requires may { LookMayBegin (written_by book.old.tables.writer) Both serial }
    ensures found { LooksFound serial (written_by book.old.tables.writer) (written_by book.new.tables.writer) result }
    ensures none_released { ReleasesNone book.old book.new }
    ensures need { book.new.need ≡ book.old.need }
    ensures plain { book.new.plain ≡ book.old.plain }
    ensures book { IsWordBook K.names shared.now.table.shared.table_id shared.now.table.shared.key book.new }
{
    looks_keep_pools();
    // A slot names an area by its serial alone.
    let area = AreaRef { serial, block: 0 };
    scan(shared, &mut book.tables.writer, area, None)
}

/// The area that was dropped next behind this one, or else the one that has waited longest.
fn next_behind(server: &Server, serial: u64) -> u64
    requires { IsTrue (is_retired server.now serial) }
    ensures waits { IsTrue (is_retired server.now result) }
    ensures next { result ≡ asked_behind server.now.retired serial }
{
    match server.retired_behind(serial) {
        Some(next) => next,
        None => longest(server, serial),
    }
}

/// The area that has waited longest, of which this is one.
fn longest(server: &Server, serial: u64) -> u64
    requires { IsTrue (is_retired server.now serial) }
    ensures waits { IsTrue (is_retired server.now result) }
    ensures longest { result ≡ unwrap_or (slice_get server.now.retired 0) serial }
{
    match server.oldest_retired() {
        Some(oldest) => oldest,
        None => serial,
    }
}

/// Releases the area, of which a look was clear.
fn release_area<K: Naming>(
    book: &mut WordBook,
    shared: &Shared<CodeLaw<K>>,
    serial: u64,
) -> Result<(), NoMemory>
    requires book { IsWordBook K.names shared.now.table.shared.table_id shared.now.table.shared.key book.old }
    requires waits { IsTrue (is_retired book.old.plain.server serial) }
    requires clear { IsClear (written_by book.old.tables.writer) Both serial }
    ensures ok { OnOk result (HasReleased serial book.old book.new) }
    ensures err { OnErr result (ReleasesNone book.old book.new) }
    ensures script { book.new.plain.script ≡ book.old.plain.script }
    ensures book { IsWordBook K.names shared.now.table.shared.table_id shared.now.table.shared.key book.new }
{
    decided_commands_stay();
    changes_wait_for_releases();
    clear_areas_are_releasable::<K>();
    clear_areas_are_releasable_while_settling::<K>();
    make(&mut book.plain, Who::Runtime, Cmd::Release(serial))?;
    release(&mut book.tables, shared, serial);
    Ok(())
}
