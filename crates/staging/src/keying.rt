//! Changes of keys: what a put or an erase does to the words, step by step.

ghost use Rattle.std.specs.Prelude.{◌≡◌, ◌≢◌, ◌<◌, ◌^◌, length, IfErr, IfOk, OnErr};
ghost use Rattle.progress_words.specs.Tokens.{written_by};
ghost use Rattle.server_core.specs.Decided.{Fits, change_made};
ghost use Rattle.server_core.specs.ServerState.{key_area};
ghost use Rattle.code_index.specs.declared.index.Staging.TheVariants as indices;
ghost use Rattle.term_table.specs.declared.answers.StageFault.TheVariants as faults;
ghost use Rattle.term_table.specs.Keys.{key_of};
ghost use Rattle.staging.specs.Keyed.{HasKeyWord, area_word, key_change};
ghost use Rattle.change_laws.specs.Changes.{incoming};
ghost use Rattle.staging.specs.Replaced.{HaveKeyed, HaveReplaced, former_of};
ghost use Rattle.staging.specs.Stages.{GoesOn, HasPublished, HavePlaced, IsKeyChange, IsLateFor, LacksNone, StageStands, StepAnswers, stage_number};
ghost use Rattle.staging.specs.Whose.{AreTablesOf, KeepsKnown};
ghost use Rattle.staging.specs.declared.stage.Stage.TheVariants as stages;

use crate::former::retire_former;
use crate::placing::{Placing, give_back, place_incoming};
use crate::stage::{Stage, Step};
use crate::tables::Tables;
use crate::upcoming::Upcoming;
use code_index::{
    counters_keep_index, exports_that_stay_are_staged, roots_keep_index, writes_keep_index,
};
use code_law::{CodeLaw, Naming};
use literal_areas::counters_keep_pools;
use progress_words::NotYet;
use server_core::{Change, Server};
use shared_words::Shared;
use std::alloc::Global;
use term_core::{AreaRef, AtomId, NoMemory};
use term_table::{Change as KeyChange, StageFault};

/// The word of a term table that leads to an area.
fn area_word(area: AreaRef) -> u64
    requires serial { area.serial < 2 ^ 40 }
    requires block { area.block < 512 }
    ensures { result ≡ area_word area }
{
    (area.serial * 512 + u64::from(area.block)) * 16 + 5
}

/// What is staged for a change, if it is about a key.
fn key_change(change: &Change, taken: &[AreaRef]) -> Option<KeyChange>
    requires { HasKeyWord change.now taken.now }
    ensures { result ≡ key_change change.now taken.now }
{
    match change {
        Change::HoldWord { key, term, .. } => Some(KeyChange::Put {
            key: *key,
            value: term.word(),
        }),
        Change::HoldArea { key, .. } => {
            let area = taken.first()?;
            Some(KeyChange::Put {
                key: *key,
                value: area_word(*area),
            })
        }
        Change::Forget { key, .. } => Some(KeyChange::Erase { key: *key }),
        _ => None,
    }
}

/// The key that a change is about.
fn changed_key(change: KeyChange) -> AtomId
    ensures { result.0 ≡ key_of change }
{
    match change {
        KeyChange::Put { key, .. } => key,
        KeyChange::Erase { key } => key,
    }
}

/// Goes on with a put or an erase: its area, its key, the former area's retire word, the store of the root. After want of memory nothing of it
/// stands in the words.
///
/// Source: Erlang/OTP, the manual page of persistent_term.
pub fn step_key<K: Naming>(
    alloc: Global,
    tables: &mut Tables,
    shared: &Shared<CodeLaw<K>>,
    server: &Server,
    change: &Change,
    stage: Stage,
) -> (Stage, Result<Step, NoMemory>)
    // the tables are those of this table of words, by the run's names
    requires tables { AreTablesOf shared.now.table.shared.table_id shared.now.table.shared.key tables.old }
    requires names { tables.old.exports ≡ K.names }
    // the change is one of a key that fits the server, how far the words are with it, and a number for one generation more
    requires fits { Fits server.now change.now }
    requires key { IsKeyChange change.now }
    requires stage { StageStands K.names server.now change.now tables.old stage }
    requires room { length (written_by tables.old.writer).published < 2 ^ 40 }
    // whose tables they are stays
    ensures tables { AreTablesOf shared.now.table.shared.table_id shared.now.table.shared.key tables.new }
    ensures names { tables.new.exports ≡ K.names }
    // an answer, or want of memory, after which nothing of the change is left
    ensures ok { IfOk result.1 (StepAnswers K.names server.now change.now tables.old tables.new result.0) }
    ensures placed { IfOk result.1 (LacksNone change.now result.0) }
    ensures forward { IfOk result.1 (GoesOn (stage_number stage) result.0) }
    ensures err { OnErr result.1 (StageStands K.names server.now change.now tables.new stages.Untouched) }
    ensures err_stage { OnErr result.1 (result.0 ≡ stages.Untouched) }
    ensures err_published { OnErr result.1 ((written_by tables.new.writer).published ≡ (written_by tables.old.writer).published) }
    ensures known { KeepsKnown (written_by tables.old.writer) (written_by tables.new.writer) }
{
    match stage {
        Stage::Untouched => place_key(alloc, tables, shared, server, change, Vec::new(alloc)),
        Stage::Placed { areas } => place_key(alloc, tables, shared, server, change, areas),
        Stage::Exported { .. } => unreachable!(),
        Stage::Patching => unreachable!(),
    }
}

/// The area of a put, and all that follows.
#[tactic(auto, using(crate::proofs::Known::known_on, crate::proofs::Known::known_same))]
fn place_key<K: Naming>(
    alloc: Global,
    tables: &mut Tables,
    shared: &Shared<CodeLaw<K>>,
    server: &Server,
    change: &Change,
    areas: Vec<AreaRef>,
) -> (Stage, Result<Step, NoMemory>)
    // the tables are those of this table of words, by the run's names
    requires tables { AreTablesOf shared.now.table.shared.table_id shared.now.table.shared.key tables.old }
    requires names { tables.old.exports ≡ K.names }
    // the change is one of a key that fits the server, its area may be there, no exports are staged, and there is one number more
    requires fits { Fits server.now change.now }
    requires key { IsKeyChange change.now }
    requires placed { HavePlaced K.names server.now change.now tables.old areas.items }
    requires index { tables.old.index ≡ indices.Nothing }
    requires room { length (written_by tables.old.writer).published < 2 ^ 40 }
    // whose tables they are stays
    ensures tables { AreTablesOf shared.now.table.shared.table_id shared.now.table.shared.key tables.new }
    ensures names { tables.new.exports ≡ K.names }
    // an answer, or want of memory, after which nothing of the change is left
    ensures ok { IfOk result.1 (StepAnswers K.names server.now change.now tables.old tables.new result.0) }
    ensures placed { IfOk result.1 (LacksNone change.now result.0) }
    ensures forward { IfOk result.1 (GoesOn 1 result.0) }
    ensures err { OnErr result.1 (StageStands K.names server.now change.now tables.new stages.Untouched) }
    ensures err_stage { OnErr result.1 (result.0 ≡ stages.Untouched) }
    ensures err_published { OnErr result.1 ((written_by tables.new.writer).published ≡ (written_by tables.old.writer).published) }
    ensures known { KeepsKnown (written_by tables.old.writer) (written_by tables.new.writer) }
{
    let mut areas = areas;
    match place_incoming(alloc, tables, shared, server, change, &mut areas) {
        Err(NoMemory) => {
            give_back(tables, shared, server, change, areas);
            (Stage::Untouched, Err(NoMemory))
        }
        Ok(Placing::AwaitRelease) => (Stage::Placed { areas }, Ok(Step::AwaitRelease)),
        Ok(Placing::Whole) => publish_staged(tables, shared, server, change, areas),
    }
}

/// Stages the key, and publishes it unless a thread may still read the table in which it is staged.
fn publish_staged<K: Naming>(
    tables: &mut Tables,
    shared: &Shared<CodeLaw<K>>,
    server: &Server,
    change: &Change,
    areas: Vec<AreaRef>,
) -> (Stage, Result<Step, NoMemory>)
    // the tables are those of this table of words, by the run's names
    requires tables { AreTablesOf shared.now.table.shared.table_id shared.now.table.shared.key tables.old }
    requires names { tables.old.exports ≡ K.names }
    // the change is one of a key that fits the server, its area is there, no exports are staged, and there is one number more
    requires fits { Fits server.now change.now }
    requires key { IsKeyChange change.now }
    requires placed { HavePlaced K.names server.now change.now tables.old areas.items }
    requires index { tables.old.index ≡ indices.Nothing }
    requires whole { length areas.items ≡ length (incoming change.now) }
    requires room { length (written_by tables.old.writer).published < 2 ^ 40 }
    ensures tables { AreTablesOf shared.now.table.shared.table_id shared.now.table.shared.key tables.new }
    ensures names { tables.new.exports ≡ K.names }
    // an answer, and never want of memory
    ensures ok { IfOk result.1 (StepAnswers K.names server.now change.now tables.old tables.new result.0) }
    ensures placed { IfOk result.1 (LacksNone change.now result.0) }
    ensures forward { IfOk result.1 (GoesOn 1 result.0) }
    ensures never { OnErr result.1 ⊥ }
    ensures known { KeepsKnown (written_by tables.old.writer) (written_by tables.new.writer) }
{
    let _generation = server.generation();
    match stage_key(tables, shared, server, change, areas.as_slice()) {
        Ok(key) => {
            retire_former(tables, shared, server, key);
            let generation = publish_key(tables, shared, server, change, areas.as_slice());
            (Stage::Untouched, Ok(Step::Published(generation)))
        }
        Err(answer) => (Stage::Placed { areas }, Ok(Step::NotYet(answer))),
    }
}

/// What is waited for, where there is room.
fn awaited(fault: StageFault) -> NotYet
    requires { fault ≢ faults.Full }
    ensures { fault ≡ faults.NotYet result }
{
    match fault {
        StageFault::NotYet(answer) => answer,
        StageFault::Full => unreachable!(),
    }
}

/// Stages the key, and says which it is.
fn stage_key<K: Naming>(
    tables: &mut Tables,
    shared: &Shared<CodeLaw<K>>,
    server: &Server,
    change: &Change,
    areas: &[AreaRef],
) -> Result<AtomId, NotYet>
    // the tables are those of this table of words
    requires tables { AreTablesOf shared.now.table.shared.table_id shared.now.table.shared.key tables.old }
    // the change is one of a key that fits the server, and all that it brings in has its area
    requires fits { Fits server.now change.now }
    requires key { IsKeyChange change.now }
    requires placed { HavePlaced K.names server.now change.now tables.old areas.now }
    requires whole { length areas.now ≡ length (incoming change.now) }
    // the tables are as they were, and nothing is published
    ensures tables { AreTablesOf shared.now.table.shared.table_id shared.now.table.shared.key tables.new }
    ensures exports { tables.new.exports ≡ tables.old.exports }
    ensures index { tables.new.index ≡ tables.old.index }
    ensures published { (written_by tables.new.writer).published ≡ (written_by tables.old.writer).published }
    ensures known { KeepsKnown (written_by tables.old.writer) (written_by tables.new.writer) }
    // the key is staged, and this is it
    ensures keyed { IfOk result (λ key. HaveKeyed K.names server.now change.now tables.new areas.now) }
    ensures former { IfOk result (λ key. former_of server.now change.now ≡ key_area server.now key.0) }
    // or the table in which it would be staged may still be read
    ensures placed { OnErr result (HavePlaced K.names server.now change.now tables.new areas.now) }
    ensures late { IfErr result (IsLateFor change.now tables.old tables.new) }
{
    counters_keep_index();
    writes_keep_index();
    counters_keep_pools();
    let Some(staged) = key_change(change, areas) else {
        unreachable!()
    };
    match tables.terms.stage_copy(shared, &mut tables.writer, staged) {
        Ok(()) => Ok(changed_key(staged)),
        Err(fault) => Err(awaited(fault)),
    }
}

/// Publishes the key that is staged.
fn publish_key<K: Naming>(
    tables: &mut Tables,
    shared: &Shared<CodeLaw<K>>,
    server: &Server,
    change: &Change,
    _areas: &[AreaRef],
) -> u64
    // what the key holds is staged, by the run's names, and no export is
    requires tables { AreTablesOf shared.now.table.shared.table_id shared.now.table.shared.key tables.old }
    requires names { tables.old.exports ≡ K.names }
    requires fits { Fits server.now change.now }
    requires key { IsKeyChange change.now }
    requires index { tables.old.index ≡ indices.Nothing }
    requires replaced { HaveReplaced K.names server.now change.now tables.old _areas.now }
    // there is a number for one generation more
    requires room { length (written_by tables.old.writer).published < 2 ^ 40 }
    // whose tables they are stays
    ensures tables { AreTablesOf shared.now.table.shared.table_id shared.now.table.shared.key tables.new }
    ensures exports { tables.new.exports ≡ tables.old.exports }
    // the state that the change leaves is published, and the writer keeps what it knew
    ensures published { HasPublished K.names (change_made server.now change.now).state tables.old tables.new result }
    ensures known { KeepsKnown (written_by tables.old.writer) (written_by tables.new.writer) }
{
    exports_that_stay_are_staged();
    roots_keep_index();
    counters_keep_index();
    let _generation = server.generation();
    let next = Upcoming {
        exports: &tables.exports,
        server,
        change,
        pools: &tables.pools,
    };
    tables.terms.publish(shared, &mut tables.writer, &next)
}
