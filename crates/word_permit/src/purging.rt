//! Soft purges and purges of the loader that has the permission, one answer a call.

ghost use Rattle.std.specs.Prelude.{◌≡◌, IfOk, IfSome, IsSomeAnd, None, OnErr, Some};
ghost use Rattle.server_core.specs.ServerState.{old_of};
ghost use Rattle.script_core.specs.declared.script.ScriptCmd.TheVariants as commands;
ghost use Rattle.progress_words.specs.Tokens.{written_by};
ghost use Rattle.write_permit.specs.declared.holder.Holder.TheVariants as holders;
ghost use Rattle.write_permit.specs.Book.{IsBook, shown};
ghost use Rattle.write_permit.specs.Permit.{holder_of, next_of};
ghost use Rattle.word_permit.specs.Books.{HasGivenUp, HasTakenBack, IsWordBook};
ghost use Rattle.word_permit.specs.Looks.{HasLooked};
ghost use Rattle.word_permit.specs.Purged.{HasGrown, LookAnswers, PurgeAnswers, purged_by, purging_command};
ghost use Rattle.word_permit.specs.Waiting.{GoesOverWords};

use crate::answers::CommandStep;
use crate::book::WordBook;
use crate::dooming::doom_code;
use crate::dropping::{drop_code, end_quietly};
use crate::looking::look_for_code;
use crate::operations::give_up;
use crate::softly::begin_softly;
use anchors::Scan;
use code_law::{CodeLaw, Naming};
use script_core::ScriptCmd;
use server_core::Cmd;
use shared_words::Shared;
use term_core::{AtomId, NoMemory};
use write_permit::Holder;
use write_permit::book::Book;
use write_permit::commands::{OldCode, old_code};
use write_permit::steps::next_command;

/// What a command of the script purges.
#[derive(Clone, Copy, Debug, PartialEq, Eq)]
pub enum Purged {
    /// The old code of this module, unless a process lingers in it.
    Softly(AtomId),
    /// The old code of this module, once no process lingers in it.
    Wholly(AtomId),
}

/// Goes on with the loader's next command, which is a soft purge or a purge. After want of memory the loader gives the permission up, unless its old code
/// is doomed.
pub fn advance_purge<K: Naming>(
    book: &mut WordBook,
    shared: &Shared<CodeLaw<K>>,
    who: u32,
    purged: Purged,
) -> Result<CommandStep, NoMemory>
    requires book { IsWordBook K.names shared.now.table.shared.table_id shared.now.table.shared.key book.old }
    requires holds { holder_of book.old.plain.holder ≡ Some who }
    requires next { next_of (shown book.old.plain) who ≡ Some (purging_command purged) }
    ensures ok { IfOk result (PurgeAnswers who book.old book.new) }
    ensures err { OnErr result (HasGivenUp book.old book.new) }
    ensures grown { HasGrown book.old.plain book.new.plain }
    ensures need { book.new.need ≡ book.old.need }
    ensures book { IsWordBook K.names shared.now.table.shared.table_id shared.now.table.shared.key book.new }
{
    match go_on_purge(book, shared, who, purged) {
        Ok(step) => Ok(step),
        Err(NoMemory) => {
            give_up(book);
            Err(NoMemory)
        }
    }
}

/// The loader's command begins, or its old code is doomed already.
fn go_on_purge<K: Naming>(
    book: &mut WordBook,
    shared: &Shared<CodeLaw<K>>,
    who: u32,
    purged: Purged,
) -> Result<CommandStep, NoMemory>
    requires book { IsWordBook K.names shared.now.table.shared.table_id shared.now.table.shared.key book.old }
    requires holds { holder_of book.old.plain.holder ≡ Some who }
    requires next { next_of (shown book.old.plain) who ≡ Some (purging_command purged) }
    ensures ok { IfOk result (PurgeAnswers who book.old book.new) }
    ensures err { OnErr result (HasTakenBack book.old book.new) }
    ensures need { book.new.need ≡ book.old.need }
    ensures book { IsWordBook K.names shared.now.table.shared.table_id shared.now.table.shared.key book.new }
{
    match book.plain.holder {
        Holder::Free => unreachable!(),
        Holder::Held(_) => begin_purge(book, shared, who, purged),
        Holder::Purging { module, .. } => {
            let Some(code) = old_code(module, &book.plain.server) else {
                unreachable!()
            };
            close_purge(book, shared, who, code)
        }
        Holder::Tracing { .. } => unreachable!(),
    }
}

/// A soft purge goes on, or a purge begins.
fn begin_purge<K: Naming>(
    book: &mut WordBook,
    shared: &Shared<CodeLaw<K>>,
    who: u32,
    purged: Purged,
) -> Result<CommandStep, NoMemory>
    requires book { IsWordBook K.names shared.now.table.shared.table_id shared.now.table.shared.key book.old }
    requires holds { book.old.plain.holder ≡ holders.Held who }
    requires next { next_of (shown book.old.plain) who ≡ Some (purging_command purged) }
    ensures ok { IfOk result (PurgeAnswers who book.old book.new) }
    ensures err { OnErr result (HasTakenBack book.old book.new) }
    ensures need { book.new.need ≡ book.old.need }
    ensures book { IsWordBook K.names shared.now.table.shared.table_id shared.now.table.shared.key book.new }
{
    match purged {
        Purged::Softly(module) => begin_softly(book, shared, who, module),
        Purged::Wholly(module) => begin_wholly(book, shared, who, module),
    }
}

/// A purge: where there is no old code, it is done; else that is doomed.
fn begin_wholly<K: Naming>(
    book: &mut WordBook,
    shared: &Shared<CodeLaw<K>>,
    who: u32,
    module: AtomId,
) -> Result<CommandStep, NoMemory>
    requires book { IsWordBook K.names shared.now.table.shared.table_id shared.now.table.shared.key book.old }
    requires holds { book.old.plain.holder ≡ holders.Held who }
    requires next { next_of (shown book.old.plain) who ≡ Some (commands.Purge «module») }
    ensures ok { IfOk result (PurgeAnswers who book.old book.new) }
    ensures err { OnErr result (HasTakenBack book.old book.new) }
    ensures need { book.new.need ≡ book.old.need }
    ensures book { IsWordBook K.names shared.now.table.shared.table_id shared.now.table.shared.key book.new }
{
    match old_code(module, &book.plain.server) {
        Some(code) => doom_code(book, shared, who, code),
        None => {
            let killed = false;
            end_quietly(book, shared, who, Cmd::Purge { module, killed })
        }
    }
}

/// The second half of a purge: the doomed code goes once a look is clear of it.
fn close_purge<K: Naming>(
    book: &mut WordBook,
    shared: &Shared<CodeLaw<K>>,
    who: u32,
    code: OldCode,
) -> Result<CommandStep, NoMemory>
    requires book { IsWordBook K.names shared.now.table.shared.table_id shared.now.table.shared.key book.old }
    requires holds { book.old.plain.holder ≡ holders.Purging who code.«module» }
    requires code { old_of book.old.plain.server code.«module».0 ≡ Some code.serial }
    ensures ok { IfOk result (PurgeAnswers who book.old book.new) }
    ensures err { OnErr result (HasTakenBack book.old book.new) }
    ensures need { book.new.need ≡ book.old.need }
    ensures book { IsWordBook K.names shared.now.table.shared.table_id shared.now.table.shared.key book.new }
{
    match look_for_code(book, shared, code.module, code.serial) {
        Err(answer) => Ok(CommandStep::NotYet(answer)),
        Ok(scan) => end_wholly(book, shared, who, code, scan),
    }
}

/// The end of a purge by what a look found; where a process lingers, the purge waits.
fn end_wholly<K: Naming>(
    book: &mut WordBook,
    shared: &Shared<CodeLaw<K>>,
    who: u32,
    code: OldCode,
    scan: Scan,
) -> Result<CommandStep, NoMemory>
    requires book { IsWordBook K.names shared.now.table.shared.table_id shared.now.table.shared.key book.old }
    requires none { book.old.waiting ≡ None }
    requires holds { book.old.plain.holder ≡ holders.Purging who code.«module» }
    requires code { old_of book.old.plain.server code.«module».0 ≡ Some code.serial }
    requires found { HasLooked code.serial (written_by book.old.tables.writer) scan }
    ensures ok { IfOk result (LookAnswers who code.serial scan book.old book.new) }
    ensures err { OnErr result (HasTakenBack book.old book.new) }
    ensures need { book.new.need ≡ book.old.need }
    ensures book { IsWordBook K.names shared.now.table.shared.table_id shared.now.table.shared.key book.new }
{
    let module = code.module;
    match scan {
        Scan::Clear { killed } => {
            drop_code(
                book,
                shared,
                who,
                code.serial,
                Cmd::Purge { module, killed },
            )
        }
        Scan::Named {
            process,
            turn,
            place,
            word,
        } => Ok(CommandStep::Lingers {
            process,
            turn,
            place,
            word,
        }),
    }
}

/// What the next command of the loader that has the permission purges, if it does. Each other one is a load, a delete, a put, an erase or a trace.
pub fn purged_next(book: &Book, who: u32) -> Option<Purged>
    requires book { IsBook book.now }
    requires holds { holder_of book.now.holder ≡ Some who }
    ensures some { IfSome result (λ purged. next_of (shown book.now) who ≡ Some (purging_command purged)) }
    ensures none { result ≡ None → IsSomeAnd (next_of (shown book.now) who) GoesOverWords }
{
    let Some(command) = next_command(book, who) else {
        unreachable!()
    };
    purged_by(command)
}

/// What the command purges, if it is a soft purge or a purge.
fn purged_by(command: &ScriptCmd) -> Option<Purged>
    ensures { result ≡ purged_by command.now }
{
    match command {
        ScriptCmd::SoftPurge(module) => Some(Purged::Softly(*module)),
        ScriptCmd::Purge(module) => Some(Purged::Wholly(*module)),
        _ => None,
    }
}
