//! Calls of a permit that store no word.

ghost use Rattle.std.specs.Prelude.{◌≡◌, [], ◌∷◌, true, IfOk, IsSomeAnd, All};
ghost use Rattle.atomic_table.specs.Seated.{TableId};
ghost use Rattle.area_core.specs.Step.{opening_published};
ghost use Rattle.shared_words.specs.declared.opening.Opening.{Opening};
ghost use Rattle.progress_words.specs.Tokens.{written_by};
ghost use Rattle.change_laws.specs.Names.{IsNumbered};
ghost use Rattle.server_core.specs.ServerState.{empty_state};
ghost use Rattle.script_core.specs.Sound.{IsScript};
ghost use Rattle.staging.specs.Stages.{AreAtRest};
ghost use Rattle.staging.specs.Whose.{AreTablesOf};
ghost use Rattle.write_permit.specs.Book.{shown};
ghost use Rattle.write_permit.specs.Permit.{needs_permission, next_of, seize_answer, seized_by};
ghost use Rattle.word_permit.specs.Books.{IsBegun, IsKept, IsWaitingStill, IsWordBook};

use crate::answers::Finished;
use crate::book::WordBook;
use code_law::Naming;
use script_core::Script;
use staging::Tables;
use std::alloc::Global;
use term_core::NoMemory;
use write_permit::book::{begin, journal_of};
use write_permit::{Holder, Seize};

/// What a permit of the script keeps before its first command, with the tables of a writer that has made no step.
pub fn begin_book<K: Naming>(
    alloc: Global,
    script: Script,
    tables: Tables,
) -> Result<WordBook, NoMemory>
    requires script { IsScript script }
    requires texts { All (IsNumbered K.names) script.modules }
    requires exports { tables.exports ≡ K.names }
    requires rest { AreAtRest K.names empty_state tables }
    requires opening { (written_by tables.writer).published ≡ opening_published ∷ [] }
    requires notes { (written_by tables.writer).notes ≡ [] }
    requires drops { (written_by tables.writer).looks.dropped ≡ [] }
    ensures begun { IfOk result (IsBegun script tables) }
    ensures book { (table : TableId) (opening : Opening) → AreTablesOf table opening tables → IfOk result (IsWordBook K.names table opening) }
{
    Ok(WordBook {
        plain: begin(alloc, script)?,
        tables,
        waiting: None,
        need: None,
        look: None,
    })
}

/// Gives the permission to a loader whose next command needs it, unless another one has it.
pub fn seize(book: &mut WordBook, who: u32) -> Seize
    requires { IsSomeAnd (next_of (shown book.old.plain) who) (λ command. needs_permission command ≡ true) }
    ensures answer { result ≡ seize_answer book.old.plain.holder }
    ensures state { shown book.new.plain ≡ record (shown book.old.plain) { holder = seized_by who book.old.plain.holder } }
    ensures waits { IsWaitingStill book.old book.new }
    ensures kept { IsKept book.old book.new }
{
    match book.plain.holder {
        Holder::Free => {
            book.plain.holder = Holder::Held(who);
            Seize::Seized
        }
        Holder::Held(by)
        | Holder::Purging { loader: by, .. }
        | Holder::Tracing { loader: by, .. } => Seize::Held { by },
    }
}

/// What is left of a book: its journal and its tables, as they are.
pub fn finish_book(book: WordBook) -> Finished
    ensures journal { result.journal ≡ book.plain.journal }
    ensures tables { result.tables ≡ book.tables }
{
    let WordBook { plain, tables, .. } = book;
    Finished {
        journal: journal_of(plain),
        tables,
    }
}
