//! Changes of what is traced: the patch of a breakpoint goes on by its phases up to the store of the root.

ghost use Rattle.std.specs.Prelude.{◌≡◌, ◌<◌, ◌^◌, ℕ, length, IfErr, IfOk};
ghost use Rattle.progress_words.specs.Tokens.{written_by};
ghost use Rattle.server_core.specs.Decided.{Fits, change_made};
ghost use Rattle.server_core.specs.Generations.{AreNumbered};
ghost use Rattle.server_core.specs.ServerState.{entry_of};
ghost use Rattle.change_laws.specs.Breakpoints.{TracesInCode};
ghost use Rattle.breakpoints.specs.declared.patch.Phase.TheVariants as phases;
ghost use Rattle.literal_areas.specs.declared.blocks.BlockUse.TheVariants.{Live};
ghost use Rattle.literal_areas.specs.Blocks.{IsLive, IsSound, use_of};
ghost use Rattle.staging.specs.Stages.{AreAtRest, IsPatchFor, IsPatched, StageStands, Waits};
ghost use Rattle.staging.specs.Traced.{AdvanceAnswers, IsPatchLate, IsTraceChange, NeedGoesOn, TraceAnswers, TraceLives};
ghost use Rattle.staging.specs.Whose.{AreTablesOf, KeepsKnown};
ghost use Rattle.staging.specs.declared.stage.Stage.TheVariants as stages;

use crate::renewing::live_area;
use crate::stage::{Stage, Step};
use crate::tables::Tables;
use crate::upcoming::Upcoming;
use breakpoints::{Patch, PatchStep};
use code_index::{exports_that_stay_are_staged, roots_keep_index, writes_keep_index};
use code_law::{CodeLaw, Naming};
use literal_areas::Pools;
use progress_words::NotYet;
use server_core::{Change, Server};
use shared_words::Shared;
use term_core::CodeRef;
use term_table::{roots_keep_tables, writes_keep_tables};

/// So many phases a patch has at most up to the store of the root.
const MOST_PHASES: u32 = 3;

/// The function, in the block in which its instance stands.
fn placed_at(pools: &Pools, at: CodeRef) -> CodeRef
    requires sound { IsSound pools.now }
    requires live { (block : ℕ) × (use_of pools.now block ≡ Some (Live at.area.serial)) }
    ensures same { entry_of result ≡ entry_of at }
    ensures live { IsLive pools.now result.area }
{
    let Some(area) = live_area(pools, at.area.serial) else {
        unreachable!()
    };
    CodeRef {
        area,
        function: at.function,
    }
}

/// The patch of a change of what is traced, with nothing stored yet.
fn patch_of(pools: &Pools, change: &Change) -> Patch
    requires sound { IsSound pools.now }
    requires trace { IsTraceChange change.now }
    requires live { TraceLives change.now pools.now }
    ensures of { IsPatchFor change.now result }
    ensures begun { result.phase ≡ phases.Begun }
    ensures live { IsLive pools.now result.at.area }
{
    match change {
        Change::SetTrace { at, .. } => Patch::begin(placed_at(pools, *at), true),
        Change::ClearTrace { at, .. } => Patch::begin(placed_at(pools, *at), false),
        _ => unreachable!(),
    }
}

/// Begins the patch of a change of what is traced.
fn begin_patch<K: Naming>(
    tables: &mut Tables,
    _shared: &Shared<CodeLaw<K>>,
    server: &Server,
    change: &Change,
)
    requires tables { AreTablesOf _shared.now.table.shared.table_id _shared.now.table.shared.key tables.old }
    requires fits { Fits server.now change.now }
    requires trace { IsTraceChange change.now }
    requires code { TracesInCode server.now change.now }
    requires rest { AreAtRest K.names server.now tables.old }
    ensures tables { AreTablesOf _shared.now.table.shared.table_id _shared.now.table.shared.key tables.new }
    ensures exports { tables.new.exports ≡ tables.old.exports }
    ensures writer { tables.new.writer ≡ tables.old.writer }
    ensures patched { IsPatched K.names server.now change.now tables.new }
{
    let _generation = server.generation();
    tables.patch = Some(patch_of(&tables.pools, change));
}

/// The patch of a change of what is traced comes to its next phase, or waits.
fn advance_patch<K: Naming>(
    tables: &mut Tables,
    shared: &Shared<CodeLaw<K>>,
    server: &Server,
    change: &Change,
) -> Result<PatchStep, NotYet>
    // the tables are those of this table of words, by the run's names
    requires tables { AreTablesOf shared.now.table.shared.table_id shared.now.table.shared.key tables.old }
    requires names { tables.old.exports ≡ K.names }
    // the patch of the change is under way, with nothing published
    requires fits { Fits server.now change.now }
    requires code { TracesInCode server.now change.now }
    requires numbered { AreNumbered K.names (change_made server.now change.now).state }
    requires patched { IsPatched K.names server.now change.now tables.old }
    // there is a number for one generation more
    requires room { length (written_by tables.old.writer).published < 2 ^ 40 }
    ensures tables { AreTablesOf shared.now.table.shared.table_id shared.now.table.shared.key tables.new }
    ensures exports { tables.new.exports ≡ tables.old.exports }
    ensures answers { IfOk result (AdvanceAnswers K.names server.now change.now tables.old tables.new) }
    ensures waits { IfErr result (λ answer. Waits K.names server.now change.now tables.old tables.new stages.Patching (IsPatchLate tables.old tables.new answer)) }
    ensures need { NeedGoesOn tables.old tables.new }
    ensures known { KeepsKnown (written_by tables.old.writer) (written_by tables.new.writer) }
{
    exports_that_stay_are_staged();
    writes_keep_index();
    roots_keep_index();
    writes_keep_tables();
    roots_keep_tables();
    let _generation = server.generation();
    let Some(mut patch) = tables.patch else {
        unreachable!()
    };
    let next = Upcoming {
        exports: &tables.exports,
        server,
        change,
        pools: &tables.pools,
    };
    let answer = patch.advance(shared, &mut tables.writer, &next);
    tables.patch = Some(patch);
    answer
}

/// The patch of a change of what is traced goes on until an answer is due.
fn go_on<K: Naming>(
    tables: &mut Tables,
    shared: &Shared<CodeLaw<K>>,
    server: &Server,
    change: &Change,
) -> (Stage, Step)
    // the tables are those of this table of words, by the run's names
    requires tables { AreTablesOf shared.now.table.shared.table_id shared.now.table.shared.key tables.old }
    requires names { tables.old.exports ≡ K.names }
    // the patch of the change is under way, with nothing published
    requires fits { Fits server.now change.now }
    requires code { TracesInCode server.now change.now }
    requires numbered { AreNumbered K.names (change_made server.now change.now).state }
    requires patched { IsPatched K.names server.now change.now tables.old }
    // there is a number for one generation more
    requires room { length (written_by tables.old.writer).published < 2 ^ 40 }
    ensures tables { AreTablesOf shared.now.table.shared.table_id shared.now.table.shared.key tables.new }
    ensures exports { tables.new.exports ≡ tables.old.exports }
    ensures answers { TraceAnswers K.names server.now change.now tables.old tables.new result.0 result.1 }
    ensures need { NeedGoesOn tables.old tables.new }
    ensures known { KeepsKnown (written_by tables.old.writer) (written_by tables.new.writer) }
{
    for round in 0..MOST_PHASES {
        match advance_patch(tables, shared, server, change) {
            Ok(step) => match step {
                PatchStep::Moved => {}
                PatchStep::Published(generation) => {
                    return (Stage::Untouched, Step::Published(generation));
                }
                PatchStep::Finished => unreachable!(),
            },
            Err(answer) => return (Stage::Patching, Step::NotYet(answer)),
        }
    }
    unreachable!()
}

/// Begins the patch of a change of what is traced, and goes on with it until an answer is due.
fn begin_trace<K: Naming>(
    tables: &mut Tables,
    shared: &Shared<CodeLaw<K>>,
    server: &Server,
    change: &Change,
) -> (Stage, Step)
    // the tables are those of this table of words, by the run's names
    requires tables { AreTablesOf shared.now.table.shared.table_id shared.now.table.shared.key tables.old }
    requires names { tables.old.exports ≡ K.names }
    // the change is one of what is traced in current code and fits the server, and nothing is under way
    requires fits { Fits server.now change.now }
    requires trace { IsTraceChange change.now }
    requires code { TracesInCode server.now change.now }
    requires numbered { AreNumbered K.names (change_made server.now change.now).state }
    requires rest { AreAtRest K.names server.now tables.old }
    // there is a number for one generation more
    requires room { length (written_by tables.old.writer).published < 2 ^ 40 }
    ensures tables { AreTablesOf shared.now.table.shared.table_id shared.now.table.shared.key tables.new }
    ensures exports { tables.new.exports ≡ tables.old.exports }
    ensures answers { TraceAnswers K.names server.now change.now tables.old tables.new result.0 result.1 }
    ensures need { NeedGoesOn tables.old tables.new }
    ensures known { KeepsKnown (written_by tables.old.writer) (written_by tables.new.writer) }
{
    begin_patch(tables, shared, server, change);
    go_on(tables, shared, server, change)
}

/// Goes on with a change of what is traced until an answer is due: its decision, its entry word, the store of the root. Behind that the patch
/// is not over: `settle` goes on with it.
///
/// Source: Erlang/OTP erts internal documentation, Tracing and ThreadProgress.
pub fn step_trace<K: Naming>(
    tables: &mut Tables,
    shared: &Shared<CodeLaw<K>>,
    server: &Server,
    change: &Change,
    stage: Stage,
) -> (Stage, Step)
    // the tables are those of this table of words, by the run's names
    requires tables { AreTablesOf shared.now.table.shared.table_id shared.now.table.shared.key tables.old }
    requires names { tables.old.exports ≡ K.names }
    // the change is one of what is traced in current code, fits the server, and how far the words are with it
    requires fits { Fits server.now change.now }
    requires trace { IsTraceChange change.now }
    requires code { TracesInCode server.now change.now }
    requires numbered { AreNumbered K.names (change_made server.now change.now).state }
    requires stage { StageStands K.names server.now change.now tables.old stage }
    // there is a number for one generation more
    requires room { length (written_by tables.old.writer).published < 2 ^ 40 }
    // whose tables they are stays
    ensures tables { AreTablesOf shared.now.table.shared.table_id shared.now.table.shared.key tables.new }
    ensures exports { tables.new.exports ≡ tables.old.exports }
    // the state that it leaves is published, or a thread is waited for; the writer keeps what it knew
    ensures answers { TraceAnswers K.names server.now change.now tables.old tables.new result.0 result.1 }
    ensures known { KeepsKnown (written_by tables.old.writer) (written_by tables.new.writer) }
    // and the value that the patch waited for is awaited still, or the counter has reached it
    ensures need { NeedGoesOn tables.old tables.new }
{
    match stage {
        Stage::Untouched => begin_trace(tables, shared, server, change),
        Stage::Placed { areas: _none } => begin_trace(tables, shared, server, change),
        Stage::Exported { .. } => unreachable!(),
        Stage::Patching => go_on(tables, shared, server, change),
    }
}

/// Takes the patch of a change that is given up back: the newest generation stays.
pub fn take_patch_back<K: Naming>(
    tables: &mut Tables,
    shared: &Shared<CodeLaw<K>>,
    _server: &Server,
    _change: &Change,
)
    requires tables { AreTablesOf shared.now.table.shared.table_id shared.now.table.shared.key tables.old }
    requires patched { IsPatched K.names _server.now _change.now tables.old }
    ensures tables { AreTablesOf shared.now.table.shared.table_id shared.now.table.shared.key tables.new }
    ensures exports { tables.new.exports ≡ tables.old.exports }
    ensures rest { AreAtRest K.names _server.now tables.new }
    ensures view { written_by tables.new.writer ≡ record (written_by tables.old.writer) { words = (written_by tables.new.writer).words } }
{
    writes_keep_index();
    writes_keep_tables();
    let Some(patch) = tables.patch else {
        unreachable!()
    };
    patch.take_back(shared, &mut tables.writer);
    tables.patch = None;
}
