//! The ends of soft purges and purges. All memory is taken before the root is stored.

ghost use Rattle.std.specs.Prelude.{◌≡◌, IfOk, None, OnErr, OnOk, Some};
ghost use Rattle.marks.specs.declared.kept.LookKind.TheVariants.{Frame};
ghost use Rattle.shared_words.specs.Slots.{IsClear};
ghost use Rattle.progress_words.specs.Tokens.{written_by};
ghost use Rattle.write_permit.specs.Book.{IsBook, shown};
ghost use Rattle.write_permit.specs.Permit.{command_ended, holder_of};
ghost use Rattle.word_permit.specs.Books.{HasTakenBack, IsWordBook};
ghost use Rattle.word_permit.specs.Purged.{DropsCode, EndAnswers, EndsNext, IsCodeDropped, IsMadeBy, IsToldBy, IsToldByDrop, LeavesServer};

use crate::answers::CommandStep;
use crate::book::{Decision, WordBook};
use crate::deciding::{decide, entry_of, take_room};
use crate::going_on::finish_change;
use code_law::{CodeLaw, Naming};
use run_log::Who;
use server_core::{Applied, Change, Cmd};
use shared_words::Shared;
use staging::publish_same;
use term_core::NoMemory;
use write_permit::book::{Book, make};
use write_permit::operations::{after_next, set_free};

/// The loader's command ends by this command of the server, which leaves the server's state. No word is stored for it.
pub fn end_quietly<K: Naming>(
    book: &mut WordBook,
    _shared: &Shared<CodeLaw<K>>,
    who: u32,
    cmd: Cmd,
) -> Result<CommandStep, NoMemory>
    requires book { IsWordBook K.names _shared.now.table.shared.table_id _shared.now.table.shared.key book.old }
    requires none { book.old.waiting ≡ None }
    requires holds { holder_of book.old.plain.holder ≡ Some who }
    requires ends { EndsNext (shown book.old.plain) who cmd }
    requires leaves { LeavesServer book.old.plain.script.modules book.old.plain.server cmd }
    requires told { IsToldBy book.old.plain.server (written_by book.old.tables.writer) (written_by book.old.tables.writer).looks cmd }
    ensures ok { IfOk result (EndAnswers who cmd book.old book.new) }
    ensures tables { book.new.tables ≡ book.old.tables }
    ensures err { OnErr result (HasTakenBack book.old book.new) }
    ensures need { book.new.need ≡ book.old.need }
    ensures book { IsWordBook K.names _shared.now.table.shared.table_id _shared.now.table.shared.key book.new }
{
    match end_with(&mut book.plain, who, cmd) {
        Ok(applied) => {
            book.look = None;
            Ok(CommandStep::Done(applied))
        }
        Err(NoMemory) => Err(NoMemory),
    }
}

/// The next command of a loader is done by this last command of the server, and the permission is free.
fn end_with(book: &mut Book, who: u32, cmd: Cmd) -> Result<Applied, NoMemory>
    requires book { IsBook book.old }
    requires holds { holder_of book.old.holder ≡ Some who }
    requires ends { EndsNext (shown book.old) who cmd }
    ensures ok { IfOk result (λ applied. command_ended (shown book.old) who cmd ≡ Some (record { state = shown book.new; answer = applied })) }
    ensures err { OnErr result (shown book.new ≡ shown book.old) }
    ensures book { IsBook book.new }
{
    let after = after_next(book, who);
    let applied = make(book, Who::Loader(who), cmd)?;
    set_free(book, who, after);
    Ok(applied)
}

/// The loader's command ends by this command of the server, by which old code goes of which a look was clear.
pub fn drop_code<K: Naming>(
    book: &mut WordBook,
    shared: &Shared<CodeLaw<K>>,
    who: u32,
    serial: u64,
    cmd: Cmd,
) -> Result<CommandStep, NoMemory>
    requires book { IsWordBook K.names shared.now.table.shared.table_id shared.now.table.shared.key book.old }
    requires none { book.old.waiting ≡ None }
    requires holds { holder_of book.old.plain.holder ≡ Some who }
    requires ends { EndsNext (shown book.old.plain) who cmd }
    requires clear { IsClear (written_by book.old.tables.writer) Frame serial }
    requires told { IsToldByDrop book.old.plain.server (written_by book.old.tables.writer) serial cmd }
    ensures ok { IfOk result (EndAnswers who cmd book.old book.new) }
    ensures dropped { IfOk result (λ step. IsCodeDropped serial (written_by book.old.tables.writer) (written_by book.new.tables.writer)) }
    ensures err { OnErr result (HasTakenBack book.old book.new) }
    ensures need { book.new.need ≡ book.old.need }
    ensures book { IsWordBook K.names shared.now.table.shared.table_id shared.now.table.shared.key book.new }
{
    match decide_last(&book.plain, who, cmd) {
        Ok(decision) => end_dropped(book, shared, who, serial, decision),
        Err(NoMemory) => Err(NoMemory),
    }
}

/// The last command of a loader's command, decided.
fn decide_last(book: &Book, _who: u32, cmd: Cmd) -> Result<Decision, NoMemory>
    requires book { IsBook book.now }
    requires ends { EndsNext (shown book.now) _who cmd }
    ensures made { IfOk result (IsMadeBy (shown book.now)) }
    ensures cmd { IfOk result (λ d. d.cmd ≡ cmd) }
{
    decide(book, cmd)
}

/// Asks that the change drops the old code with this serial.
fn ask_drop(change: &Change, serial: u64) -> Result<(), NoMemory>
    ensures { OnOk result (DropsCode change.now serial) }
{
    match change {
        Change::DropOld {
            serial: dropped,
            ..
        } => {
            if *dropped == serial {
                Ok(())
            } else {
                Err(NoMemory)
            }
        }
        _ => Err(NoMemory),
    }
}

/// The drop is published, and ends the loader's command.
fn end_dropped<K: Naming>(
    book: &mut WordBook,
    shared: &Shared<CodeLaw<K>>,
    who: u32,
    serial: u64,
    decision: Decision,
) -> Result<CommandStep, NoMemory>
    requires book { IsWordBook K.names shared.now.table.shared.table_id shared.now.table.shared.key book.old }
    requires none { book.old.waiting ≡ None }
    requires holds { holder_of book.old.plain.holder ≡ Some who }
    // The decision.
    requires ends { EndsNext (shown book.old.plain) who decision.cmd }
    requires made { IsMadeBy (shown book.old.plain) decision }
    requires clear { IsClear (written_by book.old.tables.writer) Frame serial }
    requires told { IsToldByDrop book.old.plain.server (written_by book.old.tables.writer) serial decision.cmd }
    ensures ok { IfOk result (EndAnswers who decision.cmd book.old book.new) }
    ensures dropped { IfOk result (λ step. IsCodeDropped serial (written_by book.old.tables.writer) (written_by book.new.tables.writer)) }
    ensures err { OnErr result (HasTakenBack book.old book.new) }
    ensures need { book.new.need ≡ book.old.need }
    ensures book { IsWordBook K.names shared.now.table.shared.table_id shared.now.table.shared.key book.new }
{
    match ask_drop(&decision.change, serial) {
        Ok(()) => publish_drop(book, shared, who, serial, decision),
        Err(NoMemory) => Err(NoMemory),
    }
}

/// The drop of the code of this serial is published. All memory is taken before.
fn publish_drop<K: Naming>(
    book: &mut WordBook,
    shared: &Shared<CodeLaw<K>>,
    who: u32,
    _serial: u64,
    decision: Decision,
) -> Result<CommandStep, NoMemory>
    requires book { IsWordBook K.names shared.now.table.shared.table_id shared.now.table.shared.key book.old }
    requires none { book.old.waiting ≡ None }
    requires holds { holder_of book.old.plain.holder ≡ Some who }
    // The decision.
    requires ends { EndsNext (shown book.old.plain) who decision.cmd }
    requires made { IsMadeBy (shown book.old.plain) decision }
    requires drops { DropsCode decision.change _serial }
    requires clear { IsClear (written_by book.old.tables.writer) Frame _serial }
    requires told { IsToldByDrop book.old.plain.server (written_by book.old.tables.writer) _serial decision.cmd }
    ensures ok { IfOk result (EndAnswers who decision.cmd book.old book.new) }
    ensures dropped { IfOk result (λ step. IsCodeDropped _serial (written_by book.old.tables.writer) (written_by book.new.tables.writer)) }
    ensures err { OnErr result (HasTakenBack book.old book.new) }
    ensures need { book.new.need ≡ book.old.need }
    ensures book { IsWordBook K.names shared.now.table.shared.table_id shared.now.table.shared.key book.new }
{
    let after = after_next(&book.plain, who);
    let Decision {
        cmd,
        change,
        applied,
    } = decision;
    let entry = entry_of(who, cmd, applied);
    let generation = book.plain.server.generation();
    book.look = None;
    let plain = &mut book.plain;
    match take_room(&mut plain.journal, &mut plain.modules, generation, entry) {
        Ok(()) => {
            publish_same(&mut book.tables, shared, &book.plain.server, &change);
            let answer = finish_change(&mut book.plain, who, change, after);
            Ok(CommandStep::Done(answer))
        }
        Err(NoMemory) => Err(NoMemory),
    }
}
