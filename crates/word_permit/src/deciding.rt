//! A command is decided before it changes a word, and has room for all that follows before the root is stored.

ghost use Rattle.std.specs.Prelude.{◌≡◌, ◌+◌, ◌<◌, ◌≤◌, ◌^◌, [], ◌∷◌, ◌++◌, false, true, IfOk, IsSome, OnErr, OnOk, Some};
ghost use Rattle.server_core.specs.CommandTable.{AreTexts, IsOfText, apply_of};
ghost use Rattle.server_core.specs.Decided.{Fits, change_made};
ghost use Rattle.staging.specs.Traced.{IsTraceChange};
ghost use Rattle.write_permit.specs.Agreement.{new_modules};
ghost use Rattle.word_permit.specs.Waiting.{IsCourseOf};

use crate::book::Decision;
use module_table::ModuleTable;
use run_log::{Entry, EntryList, Who};
use server_core::{Applied, Change, Cmd};
use term_core::NoMemory;
use write_permit::book::{Book, decided};
use write_permit::following::make_room;
use write_permit::foretold::foretold;

/// Generations have numbers below this. A command that would publish more is refused as memory is; the last number is left over, since behind the store of
/// the root the switch of a breakpoint goes on only where there is one.
const GENERATIONS_END: u64 = 1 << 40;

/// By what the words follow a change.
#[derive(Clone, Copy, Debug, PartialEq, Eq)]
pub enum Course {
    /// Areas, exports and keys are staged, and one store of the root publishes them.
    Staged,
    /// The words stay.
    Unchanged,
    /// What is traced changes, by the phases of a patch.
    Traced,
    /// No command that is asked for changes this.
    Unasked,
}

/// A command as it is decided now: what it changes, and what it will answer.
pub fn decide(book: &Book, cmd: Cmd) -> Result<Decision, NoMemory>
    requires texts { AreTexts book.now.script.modules }
    requires put { IsOfText cmd }
    requires enabled { IsSome (apply_of book.now.script.modules book.now.server cmd) }
    ensures fits { IfOk result (λ d. Fits book.now.server d.change) }
    ensures given { IfOk result (λ d. apply_of book.now.script.modules book.now.server cmd ≡ Some (change_made book.now.server d.change)) }
    ensures answer { IfOk result (λ d. (change_made book.now.server d.change).answer ≡ d.applied) }
    ensures cmd { IfOk result (λ d. d.cmd ≡ cmd) }
{
    let change = decided(&book.server, &cmd, &book.script.modules)?;
    let applied = foretold(book.alloc, &change)?;
    Ok(Decision {
        cmd,
        change,
        applied,
    })
}

/// By what the words follow the change.
pub fn course_of(change: &Change) -> Course
    ensures { IsCourseOf change.now result }
{
    match change {
        Change::BringIn { .. }
        | Change::MakeOld { .. }
        | Change::HoldWord { .. }
        | Change::HoldArea { .. }
        | Change::Forget { .. } => Course::Staged,
        Change::Nothing(_) => Course::Unchanged,
        Change::SetTrace { .. } | Change::ClearTrace { .. } => Course::Traced,
        _ => Course::Unasked,
    }
}

/// Whether the change is one of what is traced.
pub fn changes_trace(change: &Change) -> bool
    ensures trace { result ≡ true → IsTraceChange change.now }
    ensures other { result ≡ false → IsTraceChange change.now → ⊥ }
{
    match change {
        Change::SetTrace { .. } => true,
        Change::ClearTrace { .. } => true,
        Change::Nothing(_) => false,
        Change::BringIn { .. } => false,
        Change::MakeOld { .. } => false,
        Change::DropOld { .. } => false,
        Change::Condemn { .. } => false,
        Change::HoldWord { .. } => false,
        Change::HoldArea { .. } => false,
        Change::Forget { .. } => false,
        Change::GiveBack { .. } => false,
    }
}

/// Room for the entry of a decided command and for what follows it. The entry joins the journal; it is taken back where nothing is published.
pub fn take_room(
    journal: &mut EntryList,
    modules: &mut ModuleTable,
    generation: u64,
    entry: Entry,
) -> Result<(), NoMemory>
    ensures ok { OnOk result (journal.new ≡ journal.old ++ entry ∷ []) }
    ensures err { OnErr result (journal.new ≡ journal.old) }
    ensures table { modules.new.instances ≡ modules.old.instances }
    ensures room { OnOk result (new_modules entry.cmd ≤ modules.new.room) }
    ensures numbers { OnOk result (generation + 2 < 2 ^ 40) }
{
    if generation >= GENERATIONS_END - 2 {
        return Err(NoMemory);
    }
    make_room(modules, &entry.cmd)?;
    journal.push(entry)
}

/// The entry of a loader's decided command.
pub fn entry_of(who: u32, cmd: Cmd, applied: Applied) -> Entry
    ensures { result ≡ record { who = Who.Loader who; cmd = cmd; reply = applied.reply; published = applied.published } }
{
    Entry {
        who: Who::Loader(who),
        cmd,
        reply: applied.reply,
        published: applied.published,
    }
}
