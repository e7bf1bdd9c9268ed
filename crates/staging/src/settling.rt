//! The patch of a breakpoint goes on behind the store of the root, until both breakpoint indices say the same again.

ghost use Rattle.std.specs.Prelude.{◌≡◌, ◌<◌, ◌^◌, length, IfErr, IfOk};
ghost use Rattle.progress_words.specs.Tokens.{written_by};
ghost use Rattle.server_core.specs.ServerState.{ServerState};
ghost use Rattle.staging.specs.Stages.{AreAtRest, AreSettling};
ghost use Rattle.staging.specs.Traced.{IsAtLast, NeedGoesOn, SettleAnswers, Settles, patch_left};
ghost use Rattle.staging.specs.Whose.{AreTablesOf, KeepsKnown};

use crate::tables::Tables;
use breakpoints::{Patch, PatchStep};
use code_index::writes_keep_index;
use code_law::{CodeLaw, Naming};
use progress_words::NotYet;
use shared_words::Shared;
use term_core::Next;
use term_table::writes_keep_tables;

/// What a patch is told that publishes nothing any more.
#[derive(Drop)]
struct NothingMore;

impl Next for NothingMore {
    ghost use Rattle.std.specs.Prelude.{[]};
    ghost use Rattle.area_core.specs.Step.{empty_generation};

    ghost next = { λ u. empty_generation };

    ghost blocks = { λ u. [] };
}

/// What is left of a patch behind a step.
fn patch_left(answer: Result<PatchStep, NotYet>, patch: Patch) -> Option<Patch>
    ensures { result ≡ patch_left answer patch }
{
    match answer {
        Ok(step) => match step {
            PatchStep::Moved => Some(patch),
            PatchStep::Published(_) => Some(patch),
            PatchStep::Finished => None,
        },
        Err(_) => Some(patch),
    }
}

/// The patch comes to its next phase, or waits.
fn settle_once<K: Naming>(
    tables: &mut Tables,
    shared: &Shared<CodeLaw<K>>,
) -> Result<PatchStep, NotYet>
    requires tables { AreTablesOf shared.now.table.shared.table_id shared.now.table.shared.key tables.old }
    requires settling { (s : ServerState) × AreSettling K.names s tables.old }
    requires room { length (written_by tables.old.writer).published < 2 ^ 40 }
    ensures tables { AreTablesOf shared.now.table.shared.table_id shared.now.table.shared.key tables.new }
    ensures exports { tables.new.exports ≡ tables.old.exports }
    ensures answers { IfOk result (SettleAnswers K.names tables.old tables.new) }
    ensures waits { IfErr result (λ answer. (s : ServerState) → AreSettling K.names s tables.old → Settles K.names s tables.old tables.new answer) }
    ensures need { NeedGoesOn tables.old tables.new }
    ensures published { (written_by tables.new.writer).published ≡ (written_by tables.old.writer).published }
    ensures known { KeepsKnown (written_by tables.old.writer) (written_by tables.new.writer) }
{
    writes_keep_index();
    writes_keep_tables();
    let Some(mut patch) = tables.patch else {
        unreachable!()
    };
    let answer = patch.advance(shared, &mut tables.writer, &NothingMore);
    tables.patch = patch_left(answer, patch);
    answer
}

/// The last phase of the patch, once its value is reached.
fn settle_last<K: Naming>(tables: &mut Tables, shared: &Shared<CodeLaw<K>>) -> Result<(), NotYet>
    requires tables { AreTablesOf shared.now.table.shared.table_id shared.now.table.shared.key tables.old }
    requires settling { (s : ServerState) × AreSettling K.names s tables.old }
    requires last { IsAtLast tables.old }
    requires room { length (written_by tables.old.writer).published < 2 ^ 40 }
    ensures tables { AreTablesOf shared.now.table.shared.table_id shared.now.table.shared.key tables.new }
    ensures exports { tables.new.exports ≡ tables.old.exports }
    // the switch is over, or goes on to wait
    ensures rest { IfOk result (λ _. (s : ServerState) → AreSettling K.names s tables.old → AreAtRest K.names s tables.new) }
    ensures waits { IfErr result (λ answer. (s : ServerState) → AreSettling K.names s tables.old → Settles K.names s tables.old tables.new answer) }
    ensures need { NeedGoesOn tables.old tables.new }
    // the newest generation stays, and what the writer knew
    ensures published { (written_by tables.new.writer).published ≡ (written_by tables.old.writer).published }
    ensures known { KeepsKnown (written_by tables.old.writer) (written_by tables.new.writer) }
{
    match settle_once(tables, shared) {
        Ok(step) => match step {
            PatchStep::Finished => Ok(()),
            _ => unreachable!(),
        },
        Err(answer) => Err(answer),
    }
}

/// Goes on with the switch of a breakpoint that is published: its entry word, and the index that was active before. Until it is over no other
/// change begins; a release may come.
///
/// Source: Erlang/OTP erts internal documentation, Tracing and ThreadProgress.
pub fn settle<K: Naming>(tables: &mut Tables, shared: &Shared<CodeLaw<K>>) -> Result<(), NotYet>
    requires tables { AreTablesOf shared.now.table.shared.table_id shared.now.table.shared.key tables.old }
    requires settling { (s : ServerState) × AreSettling K.names s tables.old }
    requires room { length (written_by tables.old.writer).published < 2 ^ 40 }
    // whose tables they are stays
    ensures tables { AreTablesOf shared.now.table.shared.table_id shared.now.table.shared.key tables.new }
    ensures exports { tables.new.exports ≡ tables.old.exports }
    // the switch is over: what the words stand for they stand for still, with nothing under way
    ensures rest { IfOk result (λ _. (s : ServerState) → AreSettling K.names s tables.old → AreAtRest K.names s tables.new) }
    // or a thread is waited for; the value that the patch waited for is awaited still, or the counter has reached it
    ensures waits { IfErr result (λ answer. (s : ServerState) → AreSettling K.names s tables.old → Settles K.names s tables.old tables.new answer) }
    ensures need { NeedGoesOn tables.old tables.new }
    // nothing is published, and the writer keeps what it knew
    ensures published { (written_by tables.new.writer).published ≡ (written_by tables.old.writer).published }
    ensures known { KeepsKnown (written_by tables.old.writer) (written_by tables.new.writer) }
{
    match settle_once(tables, shared) {
        Ok(step) => match step {
            PatchStep::Moved => settle_last(tables, shared),
            PatchStep::Published(_) => unreachable!(),
            PatchStep::Finished => Ok(()),
        },
        Err(answer) => Err(answer),
    }
}
