//! Looks for processes that stand in old code, behind a wait for all threads to have passed the generation in which it became old.

ghost use Rattle.std.specs.Prelude.{◌≡◌, ◌+◌, IfErr, IfOk, IfSome, None, OnOk, Some, if◌then◌else◌};
ghost use Rattle.server_core.specs.ServerState.{old_of};
ghost use Rattle.anchors.specs.declared.answers.Scan.TheVariants as scans;
ghost use Rattle.shared_words.specs.Views.{newest_number};
ghost use Rattle.progress_words.specs.Needs.{IsBelow};
ghost use Rattle.progress_words.specs.Tokens.{written_by};
ghost use Rattle.breakpoints.specs.Patches.{LoadsCounter};
ghost use Rattle.area_core.specs.Generations.{names_frame};
ghost use Rattle.run_law.specs.Answers.{HasLingering};
ghost use Rattle.word_permit.specs.Books.{IsWordBook};
ghost use Rattle.word_permit.specs.Looks.{HasLooked, HasLookedFor, IsReached, KeepsLooks};
ghost use Rattle.word_permit.specs.Purged.{HasLeftCode, IsLingerKept, IsLookLate, JustLooks};

use crate::book::WordBook;
use anchors::{Scan, scan};
use code_index::counters_keep_index;
use code_law::{CodeLaw, Naming};
use literal_areas::{counters_keep_pools, looks_keep_pools};
use progress_words::{NotYet, later, reached};
use server_core::Linger;
use shared_words::Shared;
use term_core::{AreaRef, AtomId, Kind};
use term_table::counters_keep_tables;

/// What a look for frames of old code finds, once the value is reached that was taken for it.
pub fn look_for_code<K: Naming>(
    book: &mut WordBook,
    shared: &Shared<CodeLaw<K>>,
    module: AtomId,
    serial: u64,
) -> Result<Scan, NotYet>
    requires book { IsWordBook K.names shared.now.table.shared.table_id shared.now.table.shared.key book.old }
    requires none { book.old.waiting ≡ None }
    requires code { old_of book.old.plain.server «module».0 ≡ Some serial }
    ensures late { IfErr result (IsLookLate book.new) }
    ensures still { IfErr result (λ answer. IfSome book.old.look (λ value. value ≡ answer.need)) }
    ensures found { IfOk result (HasLookedFor serial (written_by book.old.tables.writer) (written_by book.new.tables.writer)) }
    ensures loads { LoadsCounter (written_by book.old.tables.writer) (written_by book.new.tables.writer) }
    ensures same { JustLooks book.old book.new }
    ensures need { book.new.need ≡ book.old.need }
    ensures book { IsWordBook K.names shared.now.table.shared.table_id shared.now.table.shared.key book.new }
{
    let value = awaited_look(book, shared);
    match is_look_reached(book, shared, value) {
        Ok(()) => Ok(look_through_frames(book, shared, module, serial)),
        Err(answer) => Err(answer),
    }
}

/// The value that is waited for: the one that was taken before, or one that is taken now.
fn awaited_look<K: Naming>(book: &mut WordBook, shared: &Shared<CodeLaw<K>>) -> u64
    requires book { IsWordBook K.names shared.now.table.shared.table_id shared.now.table.shared.key book.old }
    ensures look { book.new.look ≡ Some result }
    ensures still { IfSome book.old.look (λ value. value ≡ result) }
    ensures same { JustLooks book.old book.new }
    ensures looks { KeepsLooks (written_by book.old.tables.writer) (written_by book.new.tables.writer) }
    ensures need { book.new.need ≡ book.old.need }
    ensures book { IsWordBook K.names shared.now.table.shared.table_id shared.now.table.shared.key book.new }
{
    match book.look {
        Some(value) => value,
        None => take_look(book, shared),
    }
}

/// Takes a value to wait for before a look: once it is reached, no thread reads a generation before the newest one.
pub fn take_look<K: Naming>(book: &mut WordBook, shared: &Shared<CodeLaw<K>>) -> u64
    requires book { IsWordBook K.names shared.now.table.shared.table_id shared.now.table.shared.key book.old }
    ensures look { book.new.look ≡ Some result }
    ensures value { result ≡ (written_by book.new.tables.writer).counter + 2 }
    ensures same { JustLooks book.old book.new }
    ensures looks { KeepsLooks (written_by book.old.tables.writer) (written_by book.new.tables.writer) }
    ensures need { book.new.need ≡ book.old.need }
    ensures book { IsWordBook K.names shared.now.table.shared.table_id shared.now.table.shared.key book.new }
{
    counters_keep_index();
    counters_keep_tables();
    counters_keep_pools();
    let value = later(shared, &mut book.tables.writer);
    book.look = Some(value);
    value
}

/// Whether the value is reached.
fn is_look_reached<K: Naming>(
    book: &mut WordBook,
    shared: &Shared<CodeLaw<K>>,
    value: u64,
) -> Result<(), NotYet>
    requires book { IsWordBook K.names shared.now.table.shared.table_id shared.now.table.shared.key book.old }
    requires look { book.old.look ≡ Some value }
    ensures ok { OnOk result (IsReached (written_by book.new.tables.writer)) }
    ensures late { IfErr result (IsLookLate book.new) }
    ensures asked { IfErr result (IsBelow value (written_by book.new.tables.writer)) }
    ensures loads { LoadsCounter (written_by book.old.tables.writer) (written_by book.new.tables.writer) }
    ensures same { JustLooks book.old book.new }
    ensures looks { KeepsLooks (written_by book.old.tables.writer) (written_by book.new.tables.writer) }
    ensures need { book.new.need ≡ book.old.need }
    ensures book { IsWordBook K.names shared.now.table.shared.table_id shared.now.table.shared.key book.new }
{
    counters_keep_index();
    counters_keep_tables();
    counters_keep_pools();
    reached(shared, &mut book.tables.writer, value)
}

/// Looks through the slots of all processes for frames of the old code of a module.
fn look_through_frames<K: Naming>(
    book: &mut WordBook,
    shared: &Shared<CodeLaw<K>>,
    _module: AtomId,
    serial: u64,
) -> Scan
    requires book { IsWordBook K.names shared.now.table.shared.table_id shared.now.table.shared.key book.old }
    requires none { book.old.waiting ≡ None }
    requires reached { IsReached (written_by book.old.tables.writer) }
    requires code { old_of book.old.plain.server _module.0 ≡ Some serial }
    ensures found { HasLookedFor serial (written_by book.old.tables.writer) (written_by book.new.tables.writer) result }
    ensures same { JustLooks book.old book.new }
    ensures need { book.new.need ≡ book.old.need }
    ensures book { IsWordBook K.names shared.now.table.shared.table_id shared.now.table.shared.key book.new }
{
    looks_keep_pools();
    // A slot names an area by its serial alone.
    let area = AreaRef { serial, block: 0 };
    scan(shared, &mut book.tables.writer, area, Some(Kind::Frame))
}

/// Whether an anchor names the instance for a frame.
fn names_frame(word: u64, serial: u64) -> bool
    ensures { result ≡ names_frame word serial }
{
    word % 2 == 1 && word / 4 == serial
}

/// The process, if the anchor names the instance for a frame.
fn named_by(word: u64, serial: u64, linger: Linger) -> Option<Linger>
    ensures { result ≡ (if names_frame word serial then Some linger else None) }
{
    if names_frame(word, serial) {
        Some(linger)
    } else {
        None
    }
}

/// Keeps the answer that a process lingers, if the anchor in which a look found the instance names it still.
pub fn keep_lingering<K: Naming>(
    book: &mut WordBook,
    shared: &Shared<CodeLaw<K>>,
    serial: u64,
    process: u32,
    turn: u32,
    place: u32,
    _word: u64,
) -> Option<Linger>
    requires book { IsWordBook K.names shared.now.table.shared.table_id shared.now.table.shared.key book.old }
    requires found { HasLooked serial (written_by book.old.tables.writer) (scans.Named process turn place _word) }
    ensures kept { IfSome result (HasLingering (written_by book.new.tables.writer).looks serial (newest_number (written_by book.old.tables.writer).published)) }
    ensures lingers { IfSome result (IsLingerKept serial process turn (written_by book.old.tables.writer) (written_by book.new.tables.writer)) }
    ensures left { result ≡ None → HasLeftCode serial process turn place (written_by book.old.tables.writer) (written_by book.new.tables.writer) }
    ensures same { JustLooks book.old book.new }
    ensures need { book.new.need ≡ book.old.need }
    ensures book { IsWordBook K.names shared.now.table.shared.table_id shared.now.table.shared.key book.new }
{
    looks_keep_pools();
    let area = AreaRef { serial, block: 0 };
    let word = shared.load_lingering(&mut book.tables.writer, process, place, area, turn);
    named_by(word, serial, Linger { process, turn })
}
