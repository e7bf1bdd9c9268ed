//! A step of a change of the server, whatever it changes.

ghost use Rattle.std.specs.Prelude.{◌≡◌, ◌<◌, ◌^◌, false, length, true, IfOk, OnErr};
ghost use Rattle.progress_words.specs.Tokens.{written_by};
ghost use Rattle.server_core.specs.Decided.{Fits, change_made};
ghost use Rattle.server_core.specs.Generations.{AreNumbered};
ghost use Rattle.staging.specs.Stages.{AreAtRest, GoesOn, IsCodeChange, IsStaged, LacksNone, LeavesView, StageStands, StepAnswers, stage_number};
ghost use Rattle.staging.specs.Whose.{AreTablesOf, KeepsKnown};
ghost use Rattle.staging.specs.declared.stage.Stage.TheVariants as stages;

use crate::coding::step_code;
use crate::keying::step_key;
use crate::placing::give_back;
use crate::stage::{Stage, Step};
use crate::tables::Tables;
use crate::tracing::take_patch_back;
use code_law::{CodeLaw, Naming};
use server_core::{Change, Server};
use shared_words::Shared;
use std::alloc::Global;
use term_core::NoMemory;

/// Goes on with a load, a delete, a put or an erase until an answer is due. After want of memory nothing of it stands in the words.
///
/// Source: Erlang/OTP erts internal documentation, CodeLoading and ThreadProgress, and the manual page of persistent_term.
pub fn step<K: Naming>(
    alloc: Global,
    tables: &mut Tables,
    shared: &Shared<CodeLaw<K>>,
    server: &Server,
    change: &Change,
    stage: Stage,
) -> (Stage, Result<Step, NoMemory>)
    // the tables are those of this table of words, by the run's names
    requires tables { AreTablesOf shared.now.table.shared.table_id shared.now.table.shared.key tables.old }
    requires names { tables.old.exports ≡ K.names }
    // the change goes by stages and fits the server, and how far the words are with it
    requires fits { Fits server.now change.now }
    requires staged { IsStaged change.now }
    requires numbered { AreNumbered K.names (change_made server.now change.now).state }
    requires stage { StageStands K.names server.now change.now tables.old stage }
    // there is a number for one generation more
    requires room { length (written_by tables.old.writer).published < 2 ^ 40 }
    // whose tables they are stays
    ensures tables { AreTablesOf shared.now.table.shared.table_id shared.now.table.shared.key tables.new }
    ensures names { tables.new.exports ≡ K.names }
    // an answer, or want of memory, after which nothing of the change is left
    ensures ok { IfOk result.1 (StepAnswers K.names server.now change.now tables.old tables.new result.0) }
    ensures err { OnErr result.1 (AreAtRest K.names server.now tables.new) }
    ensures err_stage { OnErr result.1 (result.0 ≡ stages.Untouched) }
    ensures err_published { OnErr result.1 ((written_by tables.new.writer).published ≡ (written_by tables.old.writer).published) }
    // a change that waits for the counter lacks no block
    ensures placed { IfOk result.1 (LacksNone change.now result.0) }
    // a change that waits is not behind the stage that was given
    ensures forward { IfOk result.1 (GoesOn (stage_number stage) result.0) }
    // and the writer keeps what it knew
    ensures known { KeepsKnown (written_by tables.old.writer) (written_by tables.new.writer) }
{
    if changes_code(change) {
        step_code(alloc, tables, shared, server, change, stage)
    } else {
        step_key(alloc, tables, shared, server, change, stage)
    }
}

/// Whether a change is one of code.
fn changes_code(change: &Change) -> bool
    ensures code { result ≡ true → IsCodeChange change.now }
    ensures other { result ≡ false → IsCodeChange change.now → ⊥ }
{
    match change {
        Change::BringIn { .. } => true,
        Change::MakeOld { .. } => true,
        Change::Nothing(_) => false,
        Change::DropOld { .. } => false,
        Change::Condemn { .. } => false,
        Change::HoldWord { .. } => false,
        Change::HoldArea { .. } => false,
        Change::Forget { .. } => false,
        Change::SetTrace { .. } => false,
        Change::ClearTrace { .. } => false,
        Change::GiveBack { .. } => false,
    }
}

/// Takes back what a change that is given up has staged and taken: the newest generation stays.
pub fn abandon<K: Naming>(
    tables: &mut Tables,
    shared: &Shared<CodeLaw<K>>,
    server: &Server,
    change: &Change,
    stage: Stage,
)
    requires tables { AreTablesOf shared.now.table.shared.table_id shared.now.table.shared.key tables.old }
    requires stage { StageStands K.names server.now change.now tables.old stage }
    ensures tables { AreTablesOf shared.now.table.shared.table_id shared.now.table.shared.key tables.new }
    ensures exports { tables.new.exports ≡ tables.old.exports }
    ensures rest { AreAtRest K.names server.now tables.new }
    ensures view { LeavesView stage (written_by tables.old.writer) (written_by tables.new.writer) }
{
    match stage {
        Stage::Untouched => {}
        Stage::Placed { areas } => give_back(tables, shared, server, change, areas),
        Stage::Exported { areas } => {
            tables.index.abort();
            give_back(tables, shared, server, change, areas);
        }
        Stage::Patching => take_patch_back(tables, shared, server, change),
    }
}
