//! Soft purges: the old code goes once a look is clear of it, and stays where a process lingers in it.

ghost use Rattle.std.specs.Prelude.{◌≡◌, IfOk, None, OnErr, Some};
ghost use Rattle.server_core.specs.declared.command.Cmd.TheVariants as cmds;
ghost use Rattle.server_core.specs.ServerState.{old_of};
ghost use Rattle.script_core.specs.declared.script.ScriptCmd.TheVariants as commands;
ghost use Rattle.shared_words.specs.Views.{newest_number};
ghost use Rattle.progress_words.specs.Tokens.{written_by};
ghost use Rattle.run_law.specs.Answers.{HasLingering};
ghost use Rattle.write_permit.specs.declared.holder.Holder.TheVariants as holders;
ghost use Rattle.write_permit.specs.Book.{shown};
ghost use Rattle.write_permit.specs.Permit.{next_of};
ghost use Rattle.word_permit.specs.Books.{HasTakenBack, IsWordBook};
ghost use Rattle.word_permit.specs.Looks.{HasLooked};
ghost use Rattle.word_permit.specs.Purged.{EndAnswers, LookAnswers, PurgeAnswers};

use crate::answers::CommandStep;
use crate::book::WordBook;
use crate::dropping::{drop_code, end_quietly};
use crate::looking::{keep_lingering, look_for_code};
use anchors::Scan;
use code_law::{CodeLaw, Naming};
use server_core::{Cmd, Linger};
use shared_words::Shared;
use term_core::{AtomId, NoMemory};
use write_permit::commands::{OldCode, old_code};

/// A soft purge: where there is no old code, it is done.
pub fn begin_softly<K: Naming>(
    book: &mut WordBook,
    shared: &Shared<CodeLaw<K>>,
    who: u32,
    module: AtomId,
) -> Result<CommandStep, NoMemory>
    requires book { IsWordBook K.names shared.now.table.shared.table_id shared.now.table.shared.key book.old }
    requires holds { book.old.plain.holder ≡ holders.Held who }
    requires next { next_of (shown book.old.plain) who ≡ Some (commands.SoftPurge «module») }
    ensures ok { IfOk result (PurgeAnswers who book.old book.new) }
    ensures err { OnErr result (HasTakenBack book.old book.new) }
    ensures need { book.new.need ≡ book.old.need }
    ensures book { IsWordBook K.names shared.now.table.shared.table_id shared.now.table.shared.key book.new }
{
    match old_code(module, &book.plain.server) {
        Some(code) => purge_softly(book, shared, who, code),
        None => {
            let lingers = None;
            end_quietly(book, shared, who, Cmd::SoftPurge { module, lingers })
        }
    }
}

/// A soft purge of old code: it goes once a look is clear of it, and stays where a process lingers in it.
fn purge_softly<K: Naming>(
    book: &mut WordBook,
    shared: &Shared<CodeLaw<K>>,
    who: u32,
    code: OldCode,
) -> Result<CommandStep, NoMemory>
    requires book { IsWordBook K.names shared.now.table.shared.table_id shared.now.table.shared.key book.old }
    requires holds { book.old.plain.holder ≡ holders.Held who }
    requires next { next_of (shown book.old.plain) who ≡ Some (commands.SoftPurge code.«module») }
    requires code { old_of book.old.plain.server code.«module».0 ≡ Some code.serial }
    ensures ok { IfOk result (PurgeAnswers who book.old book.new) }
    ensures err { OnErr result (HasTakenBack book.old book.new) }
    ensures need { book.new.need ≡ book.old.need }
    ensures book { IsWordBook K.names shared.now.table.shared.table_id shared.now.table.shared.key book.new }
{
    match look_for_code(book, shared, code.module, code.serial) {
        Err(answer) => Ok(CommandStep::NotYet(answer)),
        Ok(scan) => end_softly(book, shared, who, code, scan),
    }
}

/// The end of a soft purge by what a look found; where its anchor does not name the old code any more, the next call looks again.
fn end_softly<K: Naming>(
    book: &mut WordBook,
    shared: &Shared<CodeLaw<K>>,
    who: u32,
    code: OldCode,
    scan: Scan,
) -> Result<CommandStep, NoMemory>
    requires book { IsWordBook K.names shared.now.table.shared.table_id shared.now.table.shared.key book.old }
    requires none { book.old.waiting ≡ None }
    requires holds { book.old.plain.holder ≡ holders.Held who }
    requires next { next_of (shown book.old.plain) who ≡ Some (commands.SoftPurge code.«module») }
    requires code { old_of book.old.plain.server code.«module».0 ≡ Some code.serial }
    requires found { HasLooked code.serial (written_by book.old.tables.writer) scan }
    ensures ok { IfOk result (LookAnswers who code.serial scan book.old book.new) }
    ensures err { OnErr result (HasTakenBack book.old book.new) }
    ensures need { book.new.need ≡ book.old.need }
    ensures book { IsWordBook K.names shared.now.table.shared.table_id shared.now.table.shared.key book.new }
{
    let module = code.module;
    match scan {
        Scan::Clear { .. } => {
            let lingers = None;
            drop_code(
                book,
                shared,
                who,
                code.serial,
                Cmd::SoftPurge { module, lingers },
            )
        }
        Scan::Named {
            process,
            turn,
            place,
            word,
        } => {
            match keep_lingering(book, shared, code.serial, process, turn, place, word) {
                Some(linger) => end_lingering(book, shared, who, code, linger),
                None => Ok(CommandStep::Lingers {
                    process,
                    turn,
                    place,
                    word,
                }),
            }
        }
    }
}

/// A soft purge ends as a process lingers in the old code, which stays.
fn end_lingering<K: Naming>(
    book: &mut WordBook,
    shared: &Shared<CodeLaw<K>>,
    who: u32,
    code: OldCode,
    linger: Linger,
) -> Result<CommandStep, NoMemory>
    requires book { IsWordBook K.names shared.now.table.shared.table_id shared.now.table.shared.key book.old }
    requires none { book.old.waiting ≡ None }
    requires holds { book.old.plain.holder ≡ holders.Held who }
    requires next { next_of (shown book.old.plain) who ≡ Some (commands.SoftPurge code.«module») }
    requires code { old_of book.old.plain.server code.«module».0 ≡ Some code.serial }
    requires lingers { HasLingering (written_by book.old.tables.writer).looks code.serial (newest_number (written_by book.old.tables.writer).published) linger }
    ensures ok { IfOk result (EndAnswers who (cmds.SoftPurge code.«module» (Some linger)) book.old book.new) }
    ensures tables { book.new.tables ≡ book.old.tables }
    ensures err { OnErr result (HasTakenBack book.old book.new) }
    ensures need { book.new.need ≡ book.old.need }
    ensures book { IsWordBook K.names shared.now.table.shared.table_id shared.now.table.shared.key book.new }
{
    let module = code.module;
    let lingers = Some(linger);
    end_quietly(book, shared, who, Cmd::SoftPurge { module, lingers })
}
