//! The doom with which a purge begins. All memory is taken before the root is stored.

ghost use Rattle.std.specs.Prelude.{◌≡◌, IfOk, None, OnErr, OnOk, Some};
ghost use Rattle.server_core.specs.declared.command.Cmd.TheVariants as cmds;
ghost use Rattle.server_core.specs.Decided.{Fits, change_made};
ghost use Rattle.server_core.specs.ServerState.{old_of};
ghost use Rattle.script_core.specs.declared.script.ScriptCmd.TheVariants.{Purge};
ghost use Rattle.write_permit.specs.declared.holder.Holder.TheVariants as holders;
ghost use Rattle.write_permit.specs.Agreement.{CanFollowNewest, newest_of};
ghost use Rattle.write_permit.specs.Book.{IsBook, shown};
ghost use Rattle.write_permit.specs.Permit.{doomed_by, next_of};
ghost use Rattle.word_permit.specs.Books.{HasTakenBack, IsWordBook};
ghost use Rattle.word_permit.specs.Purged.{DoomsCode, IsDoomMade, IsLookLate, IsMadeBy, JustLooks, PurgeAnswers};

use crate::answers::CommandStep;
use crate::book::{Decision, WordBook};
use crate::deciding::{decide, entry_of, take_room};
use crate::looking::take_look;
use code_law::{CodeLaw, Naming};
use progress_words::NotYet;
use server_core::{Change, Cmd};
use shared_words::Shared;
use staging::publish_same;
use term_core::{AtomId, NoMemory};
use write_permit::Holder;
use write_permit::book::{Book, follow_newest, make};
use write_permit::commands::OldCode;

/// The loader's purge begins: its old code is doomed, and the purge waits before it looks.
pub fn doom_code<K: Naming>(
    book: &mut WordBook,
    shared: &Shared<CodeLaw<K>>,
    who: u32,
    code: OldCode,
) -> Result<CommandStep, NoMemory>
    requires book { IsWordBook K.names shared.now.table.shared.table_id shared.now.table.shared.key book.old }
    requires none { book.old.waiting ≡ None }
    requires holds { book.old.plain.holder ≡ holders.Held who }
    requires next { next_of (shown book.old.plain) who ≡ Some (Purge code.«module») }
    requires code { old_of book.old.plain.server code.«module».0 ≡ Some code.serial }
    ensures ok { IfOk result (PurgeAnswers who book.old book.new) }
    ensures err { OnErr result (HasTakenBack book.old book.new) }
    ensures need { book.new.need ≡ book.old.need }
    ensures book { IsWordBook K.names shared.now.table.shared.table_id shared.now.table.shared.key book.new }
{
    match decide_doom(&book.plain, who, code) {
        Ok(decision) => begin_doom(book, shared, who, code, decision),
        Err(NoMemory) => Err(NoMemory),
    }
}

/// The doom, decided.
fn decide_doom(book: &Book, _who: u32, code: OldCode) -> Result<Decision, NoMemory>
    requires book { IsBook book.now }
    requires holds { book.now.holder ≡ holders.Held _who }
    requires next { next_of (shown book.now) _who ≡ Some (Purge code.«module») }
    requires code { old_of book.now.server code.«module».0 ≡ Some code.serial }
    ensures made { IfOk result (IsMadeBy (shown book.now)) }
    ensures cmd { IfOk result (λ d. d.cmd ≡ cmds.Doom code.«module») }
{
    decide(book, Cmd::Doom(code.module))
}

/// Asks that the change dooms old code.
fn ask_doom(change: &Change) -> Result<(), NoMemory>
    ensures { OnOk result (DoomsCode change.now) }
{
    match change {
        Change::Condemn { .. } => Ok(()),
        _ => Err(NoMemory),
    }
}

/// The decided doom is published, if it is one, and then a value is taken to wait for.
fn begin_doom<K: Naming>(
    book: &mut WordBook,
    shared: &Shared<CodeLaw<K>>,
    who: u32,
    code: OldCode,
    decision: Decision,
) -> Result<CommandStep, NoMemory>
    requires book { IsWordBook K.names shared.now.table.shared.table_id shared.now.table.shared.key book.old }
    requires none { book.old.waiting ≡ None }
    requires holds { book.old.plain.holder ≡ holders.Held who }
    requires next { next_of (shown book.old.plain) who ≡ Some (Purge code.«module») }
    requires code { old_of book.old.plain.server code.«module».0 ≡ Some code.serial }
    // The decision.
    requires made { IsMadeBy (shown book.old.plain) decision }
    requires cmd { decision.cmd ≡ cmds.Doom code.«module» }
    ensures ok { IfOk result (PurgeAnswers who book.old book.new) }
    ensures err { OnErr result (HasTakenBack book.old book.new) }
    ensures need { book.new.need ≡ book.old.need }
    ensures book { IsWordBook K.names shared.now.table.shared.table_id shared.now.table.shared.key book.new }
{
    match publish_doom(book, shared, who, code, decision) {
        Ok(()) => Ok(CommandStep::NotYet(begin_look(book, shared))),
        Err(NoMemory) => Err(NoMemory),
    }
}

/// A value is taken to wait for, and the counter is below it.
fn begin_look<K: Naming>(book: &mut WordBook, shared: &Shared<CodeLaw<K>>) -> NotYet
    requires book { IsWordBook K.names shared.now.table.shared.table_id shared.now.table.shared.key book.old }
    ensures late { IsLookLate book.new result }
    ensures same { JustLooks book.old book.new }
    ensures need { book.new.need ≡ book.old.need }
    ensures book { IsWordBook K.names shared.now.table.shared.table_id shared.now.table.shared.key book.new }
{
    let need = take_look(book, shared);
    NotYet {
        need,
        current: need - 2,
    }
}

/// The decided doom is published, if it is one.
fn publish_doom<K: Naming>(
    book: &mut WordBook,
    shared: &Shared<CodeLaw<K>>,
    who: u32,
    code: OldCode,
    decision: Decision,
) -> Result<(), NoMemory>
    requires book { IsWordBook K.names shared.now.table.shared.table_id shared.now.table.shared.key book.old }
    requires none { book.old.waiting ≡ None }
    requires holds { book.old.plain.holder ≡ holders.Held who }
    requires next { next_of (shown book.old.plain) who ≡ Some (Purge code.«module») }
    requires code { old_of book.old.plain.server code.«module».0 ≡ Some code.serial }
    // The decision.
    requires made { IsMadeBy (shown book.old.plain) decision }
    requires cmd { decision.cmd ≡ cmds.Doom code.«module» }
    ensures ok { OnOk result (doomed_by (shown book.old.plain) who code.«module» ≡ Some (shown book.new.plain)) }
    ensures none { book.new.waiting ≡ None }
    ensures err { OnErr result (HasTakenBack book.old book.new) }
    ensures need { book.new.need ≡ book.old.need }
    ensures book { IsWordBook K.names shared.now.table.shared.table_id shared.now.table.shared.key book.new }
{
    match ask_doom(&decision.change) {
        Ok(()) => join_doom(book, shared, who, code, decision),
        Err(NoMemory) => Err(NoMemory),
    }
}

/// The doom is published. All memory is taken before.
fn join_doom<K: Naming>(
    book: &mut WordBook,
    shared: &Shared<CodeLaw<K>>,
    who: u32,
    code: OldCode,
    decision: Decision,
) -> Result<(), NoMemory>
    requires book { IsWordBook K.names shared.now.table.shared.table_id shared.now.table.shared.key book.old }
    requires none { book.old.waiting ≡ None }
    requires holds { book.old.plain.holder ≡ holders.Held who }
    requires next { next_of (shown book.old.plain) who ≡ Some (Purge code.«module») }
    requires code { old_of book.old.plain.server code.«module».0 ≡ Some code.serial }
    // The decision.
    requires made { IsMadeBy (shown book.old.plain) decision }
    requires cmd { decision.cmd ≡ cmds.Doom code.«module» }
    requires dooms { DoomsCode decision.change }
    ensures ok { OnOk result (doomed_by (shown book.old.plain) who code.«module» ≡ Some (shown book.new.plain)) }
    ensures none { book.new.waiting ≡ None }
    ensures err { OnErr result (HasTakenBack book.old book.new) }
    ensures need { book.new.need ≡ book.old.need }
    ensures book { IsWordBook K.names shared.now.table.shared.table_id shared.now.table.shared.key book.new }
{
    let Decision {
        cmd,
        change,
        applied,
    } = decision;
    let entry = entry_of(who, cmd, applied);
    let generation = book.plain.server.generation();
    book.look = None;
    let plain = &mut book.plain;
    match take_room(&mut plain.journal, &mut plain.modules, generation, entry) {
        Ok(()) => {
            publish_same(&mut book.tables, shared, &book.plain.server, &change);
            finish_doom(&mut book.plain, who, code.module, change);
            Ok(())
        }
        Err(NoMemory) => Err(NoMemory),
    }
}

/// The doom was published, and its entry is the newest: the server makes it, the module table follows, and the purge waits.
fn finish_doom(book: &mut Book, who: u32, module: AtomId, change: Change)
    requires fits { Fits book.old.server change }
    requires can { CanFollowNewest book.old.modules (change_made book.old.server change).state (newest_of book.old.journal) }
    ensures { IsDoomMade who «module» change book.old book.new }
{
    book.server.make(change);
    follow_newest(&mut book.modules, &book.server, &book.journal);
    book.holder = Holder::Purging {
        loader: who,
        module,
    };
}
