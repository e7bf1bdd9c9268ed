//! The loader that has the permission goes on with its next command.

ghost use Rattle.std.specs.Prelude.{◌≡◌, ◌≤◌, ◌⊎◌, IfOk, IfSome, IsSomeAnd, None, OnErr, Some};
ghost use Rattle.staging.specs.Stages.{AreAtRest, IsStaged, StageStands, stage_number};
ghost use Rattle.staging.specs.Traced.{IsTraceChange};
ghost use Rattle.write_permit.specs.declared.holder.Holder.TheVariants as holders;
ghost use Rattle.write_permit.specs.Book.{IsBook, shown};
ghost use Rattle.write_permit.specs.Permit.{given_up, holder_of, next_of};
ghost use Rattle.word_permit.specs.Books.{HasGivenUp, HasItsTables, HasTakenBack, IsWordBook, KeepsRun, OpAnswers, with_holder};
ghost use Rattle.word_permit.specs.Purged.{CommandAnswers, HasGrown};
ghost use Rattle.word_permit.specs.Runs.{IsOverWords};
ghost use Rattle.word_permit.specs.Waiting.{GoesOverWords, IsDecided};

use crate::answers::CommandStep;
use crate::book::{Decision, Waiting, WordBook};
use crate::deciding::{Course, changes_trace, course_of, decide};
use crate::going_on::{end_unchanged, go_on_decided};
use crate::purging::{advance_purge, purged_next};
use crate::run_name::RunName;
use crate::tracing::{go_on_traced, settle_traced};
use code_law::{CodeLaw, Naming};
use shared_words::Shared;
use staging::Stage;
use term_core::NoMemory;
use write_permit::Holder;
use write_permit::commands::opening;
use write_permit::holder::given_up;
use write_permit::steps::next_command;

/// Goes on with the next command of the loader that has the permission in a run, over the words of that run.
pub fn advance_run<K: Naming, N: RunName>(
    book: &mut WordBook,
    shared: &Shared<CodeLaw<K>>,
    who: u32,
) -> Result<CommandStep, NoMemory>
    requires words { IsOverWords shared.now.table.shared.table_id shared.now.table.shared.key N.run }
    requires kept { KeepsRun K.names N.run book.old }
    requires holds { holder_of book.old.plain.holder ≡ Some who }
    ensures ok { IfOk result (CommandAnswers who book.old book.new) }
    ensures err { OnErr result (HasGivenUp book.old book.new) }
    ensures grown { HasGrown book.old.plain book.new.plain }
    ensures need { book.new.need ≡ book.old.need }
    ensures kept { KeepsRun K.names N.run book.new }
{
    match purged_next(&book.plain, who) {
        Some(purged) => advance_purge(book, shared, who, purged),
        None => advance(book, shared, who),
    }
}

/// Goes on with the next command of the loader that has the permission, which is a load, a delete, a put, an erase or a trace. After want of memory
/// the loader gives the permission up.
fn advance<K: Naming>(
    book: &mut WordBook,
    shared: &Shared<CodeLaw<K>>,
    who: u32,
) -> Result<CommandStep, NoMemory>
    requires book { IsWordBook K.names shared.now.table.shared.table_id shared.now.table.shared.key book.old }
    requires holds { holder_of book.old.plain.holder ≡ Some who }
    requires goes { IsSomeAnd (next_of (shown book.old.plain) who) GoesOverWords }
    ensures ok { IfOk result (OpAnswers who book.old book.new) }
    ensures err { OnErr result (HasGivenUp book.old book.new) }
    ensures need { book.new.need ≡ book.old.need }
    ensures book { IsWordBook K.names shared.now.table.shared.table_id shared.now.table.shared.key book.new }
{
    book.look = None;
    match go_on(book, shared, who) {
        Ok(step) => Ok(step),
        Err(NoMemory) => {
            give_up(book);
            Err(NoMemory)
        }
    }
}

/// The loader gives the permission up, unless an entry of its command is in the journal.
pub fn give_up(book: &mut WordBook)
    ensures { book.new ≡ with_holder book.old (given_up book.old.plain.holder) }
{
    book.plain.holder = given_up(book.plain.holder);
}

/// The loader's next command begins or goes on, or its trace is published and goes on behind that.
fn go_on<K: Naming>(
    book: &mut WordBook,
    shared: &Shared<CodeLaw<K>>,
    who: u32,
) -> Result<CommandStep, NoMemory>
    requires book { IsWordBook K.names shared.now.table.shared.table_id shared.now.table.shared.key book.old }
    requires look { book.old.look ≡ None }
    requires holds { holder_of book.old.plain.holder ≡ Some who }
    requires goes { IsSomeAnd (next_of (shown book.old.plain) who) GoesOverWords }
    ensures ok { IfOk result (OpAnswers who book.old book.new) }
    ensures err { OnErr result (HasTakenBack book.old book.new) }
    ensures need { book.new.need ≡ book.old.need }
    ensures book { IsWordBook K.names shared.now.table.shared.table_id shared.now.table.shared.key book.new }
{
    match book.plain.holder {
        Holder::Free => unreachable!(),
        Holder::Held(_) => go_on_held(book, shared, who),
        Holder::Purging { .. } => unreachable!(),
        Holder::Tracing { generation, .. } => Ok(settle_traced(book, shared, who, generation)),
    }
}

/// The loader's next command begins, or goes on from where it waits.
fn go_on_held<K: Naming>(
    book: &mut WordBook,
    shared: &Shared<CodeLaw<K>>,
    who: u32,
) -> Result<CommandStep, NoMemory>
    requires book { IsWordBook K.names shared.now.table.shared.table_id shared.now.table.shared.key book.old }
    requires look { book.old.look ≡ None }
    requires holds { book.old.plain.holder ≡ holders.Held who }
    requires goes { IsSomeAnd (next_of (shown book.old.plain) who) GoesOverWords }
    ensures ok { IfOk result (OpAnswers who book.old book.new) }
    ensures err { OnErr result (HasTakenBack book.old book.new) }
    ensures need { book.new.need ≡ book.old.need }
    ensures book { IsWordBook K.names shared.now.table.shared.table_id shared.now.table.shared.key book.new }
{
    match book.waiting.take() {
        Some(waiting) => go_on_waiting(book, shared, who, waiting),
        None => begin(book, shared, who),
    }
}

/// Goes on with the command that waits, by stages or by the phases of a patch.
fn go_on_waiting<K: Naming>(
    book: &mut WordBook,
    shared: &Shared<CodeLaw<K>>,
    who: u32,
    waiting: Waiting,
) -> Result<CommandStep, NoMemory>
    requires tables { HasItsTables K.names shared.now.table.shared.table_id shared.now.table.shared.key book.old }
    requires none { book.old.waiting ≡ None }
    requires look { book.old.look ≡ None }
    requires holds { book.old.plain.holder ≡ holders.Held who }
    requires decided { IsDecided (shown book.old.plain) who waiting.decision }
    requires staged { IsStaged waiting.decision.change ⊎ IsTraceChange waiting.decision.change }
    requires stands { StageStands K.names book.old.plain.server waiting.decision.change book.old.tables waiting.stage }
    ensures ok { IfOk result (OpAnswers who book.old book.new) }
    // where it waits on, it does so as it was decided, at no earlier stage
    ensures decision { IfOk result (λ step. IfSome book.new.waiting (λ w. w.decision ≡ waiting.decision)) }
    ensures forward { IfOk result (λ step. IfSome book.new.waiting (λ w. stage_number waiting.stage ≤ stage_number w.stage)) }
    ensures err { OnErr result (HasTakenBack book.old book.new) }
    ensures need { book.new.need ≡ book.old.need }
    ensures book { IsWordBook K.names shared.now.table.shared.table_id shared.now.table.shared.key book.new }
{
    if changes_trace(&waiting.decision.change) {
        go_on_traced(book, shared, who, waiting)
    } else {
        go_on_decided(book, shared, who, waiting)
    }
}

/// The loader's next command is decided, and goes on by what the words follow its change.
fn begin<K: Naming>(
    book: &mut WordBook,
    shared: &Shared<CodeLaw<K>>,
    who: u32,
) -> Result<CommandStep, NoMemory>
    requires tables { HasItsTables K.names shared.now.table.shared.table_id shared.now.table.shared.key book.old }
    requires rest { AreAtRest K.names book.old.plain.server book.old.tables }
    requires none { book.old.waiting ≡ None }
    requires look { book.old.look ≡ None }
    requires holds { book.old.plain.holder ≡ holders.Held who }
    requires goes { IsSomeAnd (next_of (shown book.old.plain) who) GoesOverWords }
    ensures ok { IfOk result (OpAnswers who book.old book.new) }
    ensures err { OnErr result (HasTakenBack book.old book.new) }
    ensures need { book.new.need ≡ book.old.need }
    ensures book { IsWordBook K.names shared.now.table.shared.table_id shared.now.table.shared.key book.new }
{
    match decide_next(book, who) {
        Ok(decision) => follow(book, shared, who, decision),
        Err(NoMemory) => Err(NoMemory),
    }
}

/// The loader's next command, decided.
fn decide_next(book: &WordBook, who: u32) -> Result<Decision, NoMemory>
    requires book { IsBook book.now.plain }
    requires holds { book.now.plain.holder ≡ holders.Held who }
    requires goes { IsSomeAnd (next_of (shown book.now.plain) who) GoesOverWords }
    ensures { IfOk result (IsDecided (shown book.now.plain) who) }
{
    let Some(command) = next_command(&book.plain, who) else {
        unreachable!()
    };
    let alloc = book.plain.alloc;
    let cmd = opening(alloc, command)?;
    decide(&book.plain, cmd)
}

/// The words follow a decided command, as its change asks.
fn follow<K: Naming>(
    book: &mut WordBook,
    shared: &Shared<CodeLaw<K>>,
    who: u32,
    decision: Decision,
) -> Result<CommandStep, NoMemory>
    requires tables { HasItsTables K.names shared.now.table.shared.table_id shared.now.table.shared.key book.old }
    requires rest { AreAtRest K.names book.old.plain.server book.old.tables }
    requires none { book.old.waiting ≡ None }
    requires look { book.old.look ≡ None }
    requires holds { book.old.plain.holder ≡ holders.Held who }
    requires decided { IsDecided (shown book.old.plain) who decision }
    ensures ok { IfOk result (OpAnswers who book.old book.new) }
    ensures err { OnErr result (HasTakenBack book.old book.new) }
    ensures need { book.new.need ≡ book.old.need }
    ensures book { IsWordBook K.names shared.now.table.shared.table_id shared.now.table.shared.key book.new }
{
    match course_of(&decision.change) {
        Course::Staged => {
            let stage = Stage::Untouched;
            go_on_decided(book, shared, who, Waiting { decision, stage })
        }
        Course::Unchanged => {
            let applied = end_unchanged(&mut book.plain, who, decision)?;
            Ok(CommandStep::Done(applied))
        }
        Course::Traced => {
            let stage = Stage::Untouched;
            go_on_traced(book, shared, who, Waiting { decision, stage })
        }
        Course::Unasked => Err(NoMemory),
    }
}
