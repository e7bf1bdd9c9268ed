//! A command that is made at once, with the note of the process that it spawns.

ghost use Rattle.std.specs.Prelude.{◌≡◌, false, IfOk, IfSome, IsSomeAnd, None, OnErr, OnOk, Some};
ghost use Rattle.shared_words.specs.Notes.{MaySplitNote};
ghost use Rattle.progress_words.specs.Tokens.{IsWriterOf, written_by};
ghost use Rattle.write_permit.specs.Book.{shown};
ghost use Rattle.write_permit.specs.Permit.{at_once_of, needs_permission, next_of};
ghost use Rattle.word_permit.specs.Books.{IsWaitingStill, IsWordBook};
ghost use Rattle.word_permit.specs.Notes.{HandsOut, KeepsButNote, next_spawned, noted_for};

use crate::answers::{AtOnce, Spawned};
use crate::book::WordBook;
use code_index::notes_keep_index;
use code_law::{CodeLaw, Naming};
use literal_areas::notes_keep_pools;
use progress_words::note;
use shared_words::{Shared, Writer};
use term_core::NoMemory;
use term_table::notes_keep_tables;
use write_permit::steps::make_at_once;

/// Makes the next command of a loader, which is a spawn or a look for old code. After want of memory nothing that the permit shows has changed.
pub fn make_next<K: Naming>(
    book: &mut WordBook,
    shared: &Shared<CodeLaw<K>>,
    who: u32,
) -> Result<AtOnce, NoMemory>
    requires book { IsWordBook K.names shared.now.table.shared.table_id shared.now.table.shared.key book.old }
    requires next { IsSomeAnd (next_of (shown book.old.plain) who) (λ command. needs_permission command ≡ false) }
    ensures ok { IfOk result (λ a. at_once_of (shown book.old.plain) who ≡ Some (record { state = shown book.new.plain; answer = a.applied })) }
    ensures spawned { IfOk result (λ a. HandsOut shared.now.table.shared.table_id (written_by book.old.tables.writer) (next_spawned (shown book.old.plain) who) a.spawned) }
    ensures tables { OnOk result (KeepsButNote (next_spawned (shown book.old.plain) who) book.old.tables book.new.tables) }
    ensures err { OnErr result (shown book.new.plain ≡ shown book.old.plain) }
    ensures err_tables { OnErr result (book.new.tables ≡ book.old.tables) }
    ensures waits { IsWaitingStill book.old book.new }
    ensures script { book.new.plain.script ≡ book.old.plain.script }
    ensures book { IsWordBook K.names shared.now.table.shared.table_id shared.now.table.shared.key book.new }
{
    notes_keep_index();
    notes_keep_tables();
    notes_keep_pools();
    let made = make_at_once(&mut book.plain, who)?;
    let spawned = noted(shared, &mut book.tables.writer, made.1);
    Ok(AtOnce {
        applied: made.0,
        spawned,
    })
}

/// A process that was spawned, with its note.
fn noted<K: Naming>(
    shared: &Shared<CodeLaw<K>>,
    writer: &mut Writer,
    made: Option<u32>,
) -> Option<Spawned>
    requires token { IsWriterOf shared.now.table.shared.table_id shared.now.table.shared.key writer.old }
    requires may { IfSome made (MaySplitNote (written_by writer.old)) }
    ensures token { IsWriterOf shared.now.table.shared.table_id shared.now.table.shared.key writer.new }
    ensures view { written_by writer.new ≡ noted_for made (written_by writer.old) }
    ensures none { made ≡ None → writer.new ≡ writer.old }
    ensures spawned { HandsOut shared.now.table.shared.table_id (written_by writer.old) made result }
{
    let process = made?;
    let note = note(shared, writer, process);
    Some(Spawned { process, note })
}
