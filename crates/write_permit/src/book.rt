ghost use Rattle.std.specs.Prelude.{◌≡◌, [], IfOk, IsSome, OnErr, Some};
ghost use Rattle.server_core.specs.CommandTable.{AreTexts, IsOfText, apply_of};
ghost use Rattle.server_core.specs.Decided.{Fits, change_made};
ghost use Rattle.server_core.specs.ServerState.{IsSound, empty_state};
ghost use Rattle.script_core.specs.Sound.{IsScript};
ghost use Rattle.write_permit.specs.Agreement.{AgreesWithServer, CanFollowNewest, newest_followed, newest_of};
ghost use Rattle.write_permit.specs.Book.{HaveBegun, IsBook, shown};
ghost use Rattle.write_permit.specs.Permit.{made_of};

use crate::following::{follow, make_room};
use crate::foretold::foretold;
use crate::holder::Holder;
use crate::loader_run::LoaderRun;
use mod_core::ModuleList;
use module_table::ModuleTable;
use run_log::{Entry, EntryList, Who};
use script_core::{Script, first_numbers};
use server_core::{Applied, ApplyFault, Change, Cmd, Server};
use std::alloc::Global;
use term_core::NoMemory;

/// What a permit keeps.
#[derive(Drop)]
pub struct Book {
    pub alloc: Global,
    pub script: Script,
    /// The server to which the journal leads.
    pub server: Server,
    /// The instances of the modules, as the server has them.
    pub modules: ModuleTable,
    pub journal: EntryList,
    /// How far each loader is.
    pub loaders: Vec<LoaderRun>,
    pub holder: Holder,
}

/// What a permit of the script keeps before its first command. It takes memory.
pub fn begin(alloc: Global, script: Script) -> Result<Book, NoMemory>
    requires { IsScript script }
    ensures book { IfOk result (λ b. IsBook b) }
    ensures script { IfOk result (λ b. b.script ≡ script) }
    ensures journal { IfOk result (λ b. b.journal ≡ []) }
    ensures server { IfOk result (λ b. b.server ≡ empty_state) }
    ensures holder { IfOk result (λ b. b.holder ≡ Holder.Free) }
{
    let loaders = begun(alloc, &script)?;
    Ok(Book {
        alloc,
        script,
        server: Server::new(alloc)?,
        modules: ModuleTable::new(alloc)?,
        journal: EntryList::new(alloc),
        loaders,
        holder: Holder::Free,
    })
}

/// The loaders before their first commands.
fn begun(alloc: Global, script: &Script) -> Result<Vec<LoaderRun>, NoMemory>
    requires { IsScript script.now }
    ensures { IfOk result (λ loaders. HaveBegun script.now.loaders loaders.items) }
{
    let numbers = first_numbers(&script.loaders);
    let mut loaders = Vec::new(alloc);
    for loader in 0..script.loaders.len() {
        loaders.push(LoaderRun {
            done: 0,
            next_process: numbers[loader],
        })?;
    }
    Ok(loaders)
}

/// Makes a command on the server: its entry joins the journal, and the module table follows.
///
/// All memory is taken before the entry joins. Where it is refused nothing is made.
pub fn make(book: &mut Book, who: Who, cmd: Cmd) -> Result<Applied, NoMemory>
    requires texts { AreTexts book.old.script.modules }
    requires put { IsOfText cmd }
    requires enabled { IsSome (apply_of book.old.script.modules book.old.server cmd) }
    requires agrees { AgreesWithServer book.old.modules.instances book.old.server }
    requires sound { IsSound book.old.server }
    ensures ok { IfOk result (λ applied. made_of (shown book.old) who cmd ≡ Some (record { state = shown book.new; answer = applied })) }
    ensures err { OnErr result (shown book.new ≡ shown book.old) }
    ensures agrees { AgreesWithServer book.new.modules.instances book.new.server }
    ensures sound { IsSound book.new.server }
{
    let change = decided(&book.server, &cmd, &book.script.modules)?;
    let applied = foretold(book.alloc, &change)?;
    make_room(&mut book.modules, &cmd)?;
    book.journal.push(Entry {
        who,
        cmd,
        reply: applied.reply,
        published: applied.published,
    })?;
    let answer = book.server.make(change);
    follow_newest(&mut book.modules, &book.server, &book.journal);
    Ok(answer)
}

/// What a command changes that the command table has a case for.
pub fn decided(server: &Server, cmd: &Cmd, texts: &ModuleList) -> Result<Change, NoMemory>
    requires texts { AreTexts texts.now }
    requires put { IsOfText cmd.now }
    requires enabled { IsSome (apply_of texts.now server.now cmd.now) }
    ensures ok { IfOk result (λ change. apply_of texts.now server.now cmd.now ≡ Some (change_made server.now change)) }
    ensures fits { IfOk result (Fits server.now) }
{
    match server.decide(cmd, texts) {
        Ok(change) => Ok(change),
        Err(ApplyFault::NoMemory) => Err(NoMemory),
        Err(ApplyFault::NotEnabled) => unreachable!(),
    }
}

/// Brings the module table in step with the newest entry, if that entry published.
pub fn follow_newest(table: &mut ModuleTable, server: &Server, journal: &EntryList)
    requires { CanFollowNewest table.old server.now (newest_of journal.now) }
    ensures { table.new.instances ≡ newest_followed table.old.instances server.now (newest_of journal.now) }
{
    if let Some(entry) = journal.as_slice().last() {
        if entry.published.is_some() {
            follow(table, server, &entry.cmd);
        }
    }
}

/// The journal of a book that is done with, as it is.
pub fn journal_of(book: Book) -> EntryList
    ensures { result ≡ book.journal }
{
    book.journal
}
