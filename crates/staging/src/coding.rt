//! Changes of code: what a load or a delete does to the words, step by step.

ghost use Rattle.std.specs.Prelude.{◌≡◌, ◌<◌, ◌^◌, length, IfOk, OnErr};
ghost use Rattle.progress_words.specs.Tokens.{written_by};
ghost use Rattle.server_core.specs.Decided.{Fits, change_made};
ghost use Rattle.server_core.specs.Generations.{AreNumbered};
ghost use Rattle.code_index.specs.declared.index.Staging.TheVariants as indices;
ghost use Rattle.staging.specs.Stages.{GoesOn, HavePlaced, HaveExported, IsCodeChange, LacksNone, StageStands, StepAnswers, stage_number};
ghost use Rattle.staging.specs.Whose.{AreTablesOf, KeepsKnown};
ghost use Rattle.staging.specs.declared.stage.Stage.TheVariants as stages;

use crate::committing::commit_exports;
use crate::exporting::stage_exports;
use crate::placing::{Placing, give_back, place_incoming};
use crate::stage::{Stage, Step};
use crate::tables::Tables;
use code_law::{CodeLaw, Naming};
use server_core::{Change, Server};
use shared_words::Shared;
use std::alloc::Global;
use term_core::{AreaRef, NoMemory};

/// Goes on with a load or a delete: its areas, its exports, the wait, the store of the root. After want of memory nothing of it stands in the words.
///
/// Source: Erlang/OTP erts internal documentation, CodeLoading: stage, wait for thread progress, commit.
pub fn step_code<K: Naming>(
    alloc: Global,
    tables: &mut Tables,
    shared: &Shared<CodeLaw<K>>,
    server: &Server,
    change: &Change,
    stage: Stage,
) -> (Stage, Result<Step, NoMemory>)
    // the tables are those of this table of words, by the run's names
    requires tables { AreTablesOf shared.now.table.shared.table_id shared.now.table.shared.key tables.old }
    requires names { tables.old.exports ≡ K.names }
    // the change is one of code that fits the server, and how far the words are with it
    requires fits { Fits server.now change.now }
    requires code { IsCodeChange change.now }
    requires numbered { AreNumbered K.names (change_made server.now change.now).state }
    requires stage { StageStands K.names server.now change.now tables.old stage }
    // there is a number for one generation more
    requires room { length (written_by tables.old.writer).published < 2 ^ 40 }
    // whose tables they are stays
    ensures tables { AreTablesOf shared.now.table.shared.table_id shared.now.table.shared.key tables.new }
    ensures names { tables.new.exports ≡ K.names }
    // an answer, or want of memory, after which nothing of the change is left
    ensures ok { IfOk result.1 (StepAnswers K.names server.now change.now tables.old tables.new result.0) }
    ensures placed { IfOk result.1 (LacksNone change.now result.0) }
    ensures forward { IfOk result.1 (GoesOn (stage_number stage) result.0) }
    ensures err { OnErr result.1 (StageStands K.names server.now change.now tables.new stages.Untouched) }
    ensures err_stage { OnErr result.1 (result.0 ≡ stages.Untouched) }
    ensures err_published { OnErr result.1 ((written_by tables.new.writer).published ≡ (written_by tables.old.writer).published) }
    ensures known { KeepsKnown (written_by tables.old.writer) (written_by tables.new.writer) }
{
    match stage {
        Stage::Untouched => place_code(alloc, tables, shared, server, change, Vec::new(alloc)),
        Stage::Placed { areas } => place_code(alloc, tables, shared, server, change, areas),
        Stage::Exported { areas } => commit_code(tables, shared, server, change, areas),
        Stage::Patching => unreachable!(),
    }
}

/// The areas of a load, and all that follows.
#[tactic(auto, using(crate::proofs::Known::known_on, crate::proofs::Known::known_same))]
fn place_code<K: Naming>(
    alloc: Global,
    tables: &mut Tables,
    shared: &Shared<CodeLaw<K>>,
    server: &Server,
    change: &Change,
    areas: Vec<AreaRef>,
) -> (Stage, Result<Step, NoMemory>)
    // the tables are those of this table of words, by the run's names
    requires tables { AreTablesOf shared.now.table.shared.table_id shared.now.table.shared.key tables.old }
    requires names { tables.old.exports ≡ K.names }
    // the change is one of code that fits the server; the first of what it brings in has areas, and no exports are staged
    requires fits { Fits server.now change.now }
    requires code { IsCodeChange change.now }
    requires numbered { AreNumbered K.names (change_made server.now change.now).state }
    requires placed { HavePlaced K.names server.now change.now tables.old areas.items }
    requires index { tables.old.index ≡ indices.Nothing }
    // there is a number for one generation more
    requires room { length (written_by tables.old.writer).published < 2 ^ 40 }
    // whose tables they are stays
    ensures tables { AreTablesOf shared.now.table.shared.table_id shared.now.table.shared.key tables.new }
    ensures names { tables.new.exports ≡ K.names }
    // an answer, or want of memory, after which nothing of the change is left
    ensures ok { IfOk result.1 (StepAnswers K.names server.now change.now tables.old tables.new result.0) }
    ensures placed { IfOk result.1 (LacksNone change.now result.0) }
    ensures forward { IfOk result.1 (GoesOn 1 result.0) }
    ensures err { OnErr result.1 (StageStands K.names server.now change.now tables.new stages.Untouched) }
    ensures err_stage { OnErr result.1 (result.0 ≡ stages.Untouched) }
    ensures err_published { OnErr result.1 ((written_by tables.new.writer).published ≡ (written_by tables.old.writer).published) }
    ensures known { KeepsKnown (written_by tables.old.writer) (written_by tables.new.writer) }
{
    let mut areas = areas;
    match place_incoming(alloc, tables, shared, server, change, &mut areas) {
        Err(NoMemory) => {
            give_back(tables, shared, server, change, areas);
            (Stage::Untouched, Err(NoMemory))
        }
        Ok(Placing::AwaitRelease) => (Stage::Placed { areas }, Ok(Step::AwaitRelease)),
        Ok(Placing::Whole) => {
            stage_exports(tables, shared, server, change, areas.as_slice());
            commit_code(tables, shared, server, change, areas)
        }
    }
}

/// The wait of a load or a delete, and the store of the root behind it.
fn commit_code<K: Naming>(
    tables: &mut Tables,
    shared: &Shared<CodeLaw<K>>,
    server: &Server,
    change: &Change,
    areas: Vec<AreaRef>,
) -> (Stage, Result<Step, NoMemory>)
    // the tables are those of this table of words, by the run's names
    requires tables { AreTablesOf shared.now.table.shared.table_id shared.now.table.shared.key tables.old }
    requires names { tables.old.exports ≡ K.names }
    // the change is one of code that fits the server, with its exports staged
    requires fits { Fits server.now change.now }
    requires code { IsCodeChange change.now }
    requires numbered { AreNumbered K.names (change_made server.now change.now).state }
    requires exported { HaveExported K.names server.now change.now tables.old areas.items }
    // there is a number for one generation more
    requires room { length (written_by tables.old.writer).published < 2 ^ 40 }
    // whose tables they are stays
    ensures tables { AreTablesOf shared.now.table.shared.table_id shared.now.table.shared.key tables.new }
    ensures names { tables.new.exports ≡ K.names }
    // an answer, and never want of memory
    ensures ok { IfOk result.1 (StepAnswers K.names server.now change.now tables.old tables.new result.0) }
    ensures placed { IfOk result.1 (LacksNone change.now result.0) }
    ensures forward { IfOk result.1 (GoesOn 2 result.0) }
    ensures never { OnErr result.1 ⊥ }
    ensures known { KeepsKnown (written_by tables.old.writer) (written_by tables.new.writer) }
{
    match commit_exports(tables, shared, server, change, &areas) {
        Ok(generation) => (Stage::Untouched, Ok(Step::Published(generation))),
        Err(answer) => (Stage::Exported { areas }, Ok(Step::NotYet(answer))),
    }
}
