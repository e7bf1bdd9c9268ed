//! A decided command goes on over the words until an answer is due.

ghost use Rattle.std.specs.Prelude.{◌≡◌, ◌<◌, ◌≤◌, length, None, IfOk, IfSome, OnErr};
ghost use Rattle.server_core.specs.Decided.{Fits, change_made};
ghost use Rattle.staging.specs.Stages.{IsStaged, StageStands, stage_number};
ghost use Rattle.write_permit.specs.declared.holder.Holder.TheVariants as holders;
ghost use Rattle.write_permit.specs.Agreement.{CanFollowNewest, newest_of};
ghost use Rattle.write_permit.specs.Book.{IsBook, shown};
ghost use Rattle.word_permit.specs.Books.{EndsPlain, HasItsTables, HasTakenBack, IsWordBook, JoinsUnpublished, OpAnswers};
ghost use Rattle.word_permit.specs.Settled.{IsFinished, IsSettled, WaitsAt, decision_of};
ghost use Rattle.word_permit.specs.Waiting.{IsDecided, LeavesState};

use crate::answers::CommandStep;
use crate::book::{Decision, Waiting, WordBook};
use crate::deciding::{entry_of, take_room};
use change_laws::changes_keep_numbers;
use code_law::{CodeLaw, Naming};
use run_log::Entry;
use server_core::{Applied, Change};
use shared_words::Shared;
use staging::{Stage, Step, abandon, step};
use term_core::NoMemory;
use write_permit::LoaderRun;
use write_permit::book::{Book, follow_newest};
use write_permit::operations::{after_next, set_free};

/// Goes on with the decided command of the loader that has the permission, until an answer is due. Its entry joins the journal before the root is stored,
/// and nothing can fail behind that store.
pub fn go_on_decided<K: Naming>(
    book: &mut WordBook,
    shared: &Shared<CodeLaw<K>>,
    who: u32,
    waiting: Waiting,
) -> Result<CommandStep, NoMemory>
    requires tables { HasItsTables K.names shared.now.table.shared.table_id shared.now.table.shared.key book.old }
    requires none { book.old.waiting ≡ None }
    requires look { book.old.look ≡ None }
    requires holds { book.old.plain.holder ≡ holders.Held who }
    requires decided { IsDecided (shown book.old.plain) who waiting.decision }
    requires staged { IsStaged waiting.decision.change }
    requires stands { StageStands K.names book.old.plain.server waiting.decision.change book.old.tables waiting.stage }
    ensures ok { IfOk result (OpAnswers who book.old book.new) }
    // where it waits on, it does so as it was decided, at no earlier stage
    ensures decision { IfOk result (λ step. IfSome book.new.waiting (λ w. w.decision ≡ waiting.decision)) }
    ensures forward { IfOk result (λ step. IfSome book.new.waiting (λ w. stage_number waiting.stage ≤ stage_number w.stage)) }
    ensures err { OnErr result (HasTakenBack book.old book.new) }
    ensures need { book.new.need ≡ book.old.need }
    ensures book { IsWordBook K.names shared.now.table.shared.table_id shared.now.table.shared.key book.new }
{
    changes_keep_numbers();
    let after = after_next(&book.plain, who);
    let Waiting { decision, stage } = waiting;
    let Decision {
        cmd,
        change,
        applied,
    } = decision;
    let entry = entry_of(who, cmd, applied);
    let generation = book.plain.server.generation();
    let plain = &mut book.plain;
    match take_room(&mut plain.journal, &mut plain.modules, generation, entry) {
        Err(NoMemory) => {
            let server = &book.plain.server;
            abandon(&mut book.tables, shared, server, &change, stage);
            Err(NoMemory)
        }
        Ok(()) => {
            let server = &book.plain.server;
            let tables = &mut book.tables;
            let (stage, step) = step(book.plain.alloc, tables, shared, server, &change, stage);
            settle(book, who, change, stage, step, after)
        }
    }
}

/// Makes of a step's answer what it says: a change that was published is made, and else the entry that joined for it is taken back.
fn settle(
    book: &mut WordBook,
    who: u32,
    change: Change,
    stage: Stage,
    step: Result<Step, NoMemory>,
    after: LoaderRun,
) -> Result<CommandStep, NoMemory>
    requires fits { Fits book.old.plain.server change }
    requires can { CanFollowNewest book.old.plain.modules (change_made book.old.plain.server change).state (newest_of book.old.plain.journal) }
    requires there { who < length book.old.plain.loaders.items }
    requires joined { 0 < length book.old.plain.journal }
    ensures { IsSettled who change stage after book.old book.new step result }
{
    match step {
        Ok(Step::Published(_)) => {
            let answer = finish_change(&mut book.plain, who, change, after);
            Ok(CommandStep::Done(answer))
        }
        Ok(Step::NotYet(answer)) => {
            wait_on(book, change, stage);
            Ok(CommandStep::NotYet(answer))
        }
        Ok(Step::AwaitRelease) => {
            wait_on(book, change, stage);
            Ok(CommandStep::AwaitRelease)
        }
        Err(NoMemory) => {
            book.plain.journal.pop();
            Err(NoMemory)
        }
    }
}

/// The change was published, or publishes nothing, and its entry is the newest: the server makes it, the module table follows, the loader is one
/// command further, and the permission is free.
pub fn finish_change(book: &mut Book, who: u32, change: Change, after: LoaderRun) -> Applied
    requires fits { Fits book.old.server change }
    requires can { CanFollowNewest book.old.modules (change_made book.old.server change).state (newest_of book.old.journal) }
    requires there { who < length book.old.loaders.items }
    ensures { IsFinished who change after book.old book.new result }
{
    let answer = book.server.make(change);
    follow_newest(&mut book.modules, &book.server, &book.journal);
    set_free(book, who, after);
    answer
}

/// Nothing was published: the newest entry is taken back, and its command waits at this stage.
pub fn wait_on(book: &mut WordBook, change: Change, stage: Stage)
    requires { 0 < length book.old.plain.journal }
    ensures { WaitsAt change stage book.old book.new }
{
    let Some(entry) = book.plain.journal.pop() else {
        unreachable!()
    };
    let decision = decision_of(entry, change);
    book.waiting = Some(Waiting { decision, stage });
}

/// What was decided for an entry.
fn decision_of(entry: Entry, change: Change) -> Decision
    ensures { result ≡ decision_of entry change }
{
    let Entry {
        cmd,
        reply,
        published,
        ..
    } = entry;
    Decision {
        cmd,
        change,
        applied: Applied { reply, published },
    }
}

/// The loader's command ends by a change that leaves the server's state. No word is stored for it.
pub fn end_unchanged(book: &mut Book, who: u32, decision: Decision) -> Result<Applied, NoMemory>
    requires book { IsBook book.old }
    requires holds { book.old.holder ≡ holders.Held who }
    requires decided { IsDecided (shown book.old) who decision }
    requires unchanged { LeavesState decision.change }
    ensures ok { IfOk result (EndsPlain who book.old book.new) }
    ensures free { IfOk result (λ applied. book.new.holder ≡ holders.Free) }
    ensures server { IfOk result (λ applied. book.new.server ≡ book.old.server) }
    ensures journal { IfOk result (λ applied. JoinsUnpublished book.old.journal book.new.journal) }
    ensures err { OnErr result (shown book.new ≡ shown book.old) }
    ensures book { IsBook book.new }
{
    let after = after_next(book, who);
    let Decision {
        cmd,
        change,
        applied,
    } = decision;
    let entry = entry_of(who, cmd, applied);
    let generation = book.server.generation();
    take_room(&mut book.journal, &mut book.modules, generation, entry)?;
    Ok(finish_change(book, who, change, after))
}
