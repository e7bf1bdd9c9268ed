//! A decided change of what is traced goes by the phases of a patch: its entry joins before the root is stored, and its command is done once the
//! breakpoint is switched throughout.

ghost use Rattle.std.specs.Prelude.{◌≡◌, ◌<◌, ◌≤◌, length, None, IfOk, IfSome, OnErr};
ghost use Rattle.server_core.specs.Decided.{Fits, change_made};
ghost use Rattle.staging.specs.Stages.{StageStands, stage_number};
ghost use Rattle.staging.specs.Traced.{IsTraceChange};
ghost use Rattle.write_permit.specs.declared.holder.Holder.TheVariants as holders;
ghost use Rattle.write_permit.specs.Agreement.{CanFollowNewest, newest_of};
ghost use Rattle.write_permit.specs.Book.{shown};
ghost use Rattle.word_permit.specs.Books.{HasItsTables, HasTakenBack, IsWordBook, OpAnswers};
ghost use Rattle.word_permit.specs.Traced.{IsEntered, IsTraceMade, SettleAnswers, SwitchAnswers};
ghost use Rattle.word_permit.specs.Waiting.{IsDecided};

use crate::answers::CommandStep;
use crate::book::{Decision, Waiting, WordBook};
use crate::deciding::{entry_of, take_room};
use crate::going_on::wait_on;
use change_laws::changes_keep_numbers;
use code_law::{CodeLaw, Naming};
use server_core::Change;
use shared_words::Shared;
use staging::{Stage, Step, abandon, settle, step_trace};
use term_core::NoMemory;
use write_permit::book::{Book, follow_newest};
use write_permit::operations::{set_tracing, settle as end_trace};

/// Goes on with the decided trace of the loader that has the permission, until an answer is due. Where it is published in this call, it goes on behind
/// that.
pub fn go_on_traced<K: Naming>(
    book: &mut WordBook,
    shared: &Shared<CodeLaw<K>>,
    who: u32,
    waiting: Waiting,
) -> Result<CommandStep, NoMemory>
    requires tables { HasItsTables K.names shared.now.table.shared.table_id shared.now.table.shared.key book.old }
    requires none { book.old.waiting ≡ None }
    requires look { book.old.look ≡ None }
    requires holds { book.old.plain.holder ≡ holders.Held who }
    requires decided { IsDecided (shown book.old.plain) who waiting.decision }
    requires traces { IsTraceChange waiting.decision.change }
    requires stands { StageStands K.names book.old.plain.server waiting.decision.change book.old.tables waiting.stage }
    ensures ok { IfOk result (OpAnswers who book.old book.new) }
    // where it waits on, it does so as it was decided, at no earlier stage
    ensures decision { IfOk result (λ step. IfSome book.new.waiting (λ w. w.decision ≡ waiting.decision)) }
    ensures forward { IfOk result (λ step. IfSome book.new.waiting (λ w. stage_number waiting.stage ≤ stage_number w.stage)) }
    ensures err { OnErr result (HasTakenBack book.old book.new) }
    ensures need { book.new.need ≡ book.old.need }
    ensures book { IsWordBook K.names shared.now.table.shared.table_id shared.now.table.shared.key book.new }
{
    match switch(book, shared, who, waiting) {
        Ok(step) => match step {
            Step::Published(generation) => Ok(settle_traced(book, shared, who, generation)),
            Step::NotYet(answer) => Ok(CommandStep::NotYet(answer)),
            Step::AwaitRelease => unreachable!(),
        },
        Err(NoMemory) => Err(NoMemory),
    }
}

/// Goes on with a decided trace up to the store of the root. Its entry joins the journal before that store, and no memory is taken behind it.
fn switch<K: Naming>(
    book: &mut WordBook,
    shared: &Shared<CodeLaw<K>>,
    who: u32,
    waiting: Waiting,
) -> Result<Step, NoMemory>
    // the tables are those of this table of words, and nothing else waits
    requires tables { HasItsTables K.names shared.now.table.shared.table_id shared.now.table.shared.key book.old }
    requires none { book.old.waiting ≡ None }
    requires look { book.old.look ≡ None }
    // the loader has the permission, and its next command is this trace, with the words at this stage
    requires holds { book.old.plain.holder ≡ holders.Held who }
    requires decided { IsDecided (shown book.old.plain) who waiting.decision }
    requires traces { IsTraceChange waiting.decision.change }
    requires stands { StageStands K.names book.old.plain.server waiting.decision.change book.old.tables waiting.stage }
    // an answer, with the trace no less far than before, or want of memory
    ensures ok { IfOk result (SwitchAnswers who waiting.decision book.old book.new) }
    ensures forward { IfOk result (λ step. IfSome book.new.waiting (λ w. stage_number waiting.stage ≤ stage_number w.stage)) }
    ensures err { OnErr result (HasTakenBack book.old book.new) }
    // and what waits for something else is as before
    ensures look { book.new.look ≡ None }
    ensures need { book.new.need ≡ book.old.need }
    ensures book { IsWordBook K.names shared.now.table.shared.table_id shared.now.table.shared.key book.new }
{
    changes_keep_numbers();
    let Waiting { decision, stage } = waiting;
    let Decision {
        cmd,
        change,
        applied,
    } = decision;
    let entry = entry_of(who, cmd, applied);
    let generation = book.plain.server.generation();
    let plain = &mut book.plain;
    match take_room(&mut plain.journal, &mut plain.modules, generation, entry) {
        Err(NoMemory) => {
            let server = &book.plain.server;
            abandon(&mut book.tables, shared, server, &change, stage);
            Err(NoMemory)
        }
        Ok(()) => {
            let server = &book.plain.server;
            let (stage, step) = step_trace(&mut book.tables, shared, server, &change, stage);
            enter(book, who, change, stage, step);
            Ok(step)
        }
    }
}

/// Makes of a step's answer what it says: a trace that was published is made, and else the entry that joined for it is taken back.
fn enter(book: &mut WordBook, who: u32, change: Change, stage: Stage, step: Step)
    requires fits { Fits book.old.plain.server change }
    requires can { CanFollowNewest book.old.plain.modules (change_made book.old.plain.server change).state (newest_of book.old.plain.journal) }
    requires joined { 0 < length book.old.plain.journal }
    ensures { IsEntered who change stage book.old book.new step }
{
    match step {
        Step::Published(generation) => make_trace(&mut book.plain, who, generation, change),
        Step::NotYet(_) => wait_on(book, change, stage),
        Step::AwaitRelease => wait_on(book, change, stage),
    }
}

/// The trace was published, and its entry is the newest: the server makes it, the module table follows, and the breakpoint is to be switched throughout.
fn make_trace(book: &mut Book, who: u32, generation: u64, change: Change)
    requires fits { Fits book.old.server change }
    requires can { CanFollowNewest book.old.modules (change_made book.old.server change).state (newest_of book.old.journal) }
    ensures { IsTraceMade who generation change book.old book.new }
{
    book.server.make(change);
    follow_newest(&mut book.modules, &book.server, &book.journal);
    set_tracing(book, who, generation);
}

/// Goes on with the trace whose generation is published, until its breakpoint is switched throughout or a thread is waited for. It takes no memory.
pub fn settle_traced<K: Naming>(
    book: &mut WordBook,
    shared: &Shared<CodeLaw<K>>,
    who: u32,
    generation: u64,
) -> CommandStep
    requires book { IsWordBook K.names shared.now.table.shared.table_id shared.now.table.shared.key book.old }
    requires look { book.old.look ≡ None }
    requires traces { book.old.plain.holder ≡ holders.Tracing who generation }
    ensures answers { SettleAnswers who book.old book.new result }
    ensures none { book.new.waiting ≡ None }
    ensures need { book.new.need ≡ book.old.need }
    ensures book { IsWordBook K.names shared.now.table.shared.table_id shared.now.table.shared.key book.new }
{
    match settle(&mut book.tables, shared) {
        Ok(()) => CommandStep::Done(end_trace(&mut book.plain, who, generation)),
        Err(answer) => CommandStep::NotYet(answer),
    }
}
