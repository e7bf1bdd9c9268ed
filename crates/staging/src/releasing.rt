//! A retired area is released: no generation is published by it.

ghost use Rattle.std.specs.Prelude.{◌≡◌};
ghost use Rattle.area_core.specs.Blocks.{IsForInstances};
ghost use Rattle.progress_words.specs.Tokens.{written_by};
ghost use Rattle.breakpoints.specs.Laws.{HasNoDecisions, IsCalledByNone, IsUncalled};
ghost use Rattle.literal_areas.specs.Released.{MayRelease};
ghost use Rattle.staging.specs.Released.{ClearAreReleasable, IsReleasable, IsStagedStill, KeepsRelease, SettlingAreReleasable, SettlingReleased, StagesReleased, StandReleased, StandStill};
ghost use Rattle.staging.specs.Renewed.{IsSameButWords};
ghost use Rattle.staging.specs.Whose.{AreTablesOf};

use crate::tables::Tables;
use breakpoints::clear_decisions;
use code_index::{exports_that_stay_are_staged, stores_keep_index, writes_keep_index};
use code_law::{CodeLaw, Naming};
use shared_words::Shared;
use term_core::AreaRef;
use term_table::{stores_keep_tables, writes_keep_tables};

/// A look that was clear is all that a release asks for, whatever waits.
#[tactic(auto, using(crate::proofs::Releasable::clear_releasable))]
pub fn clear_areas_are_releasable<K: Naming>()
    ensures { ClearAreReleasable K.names }
{}

/// So is one while the switch of a breakpoint is not over.
pub fn clear_areas_are_releasable_while_settling<K: Naming>()
    ensures { SettlingAreReleasable K.names }
{}

/// How many blocks come before those for complex terms.
const BIG_BLOCKS: u32 = 64;

/// Releases a retired area that no thread reads and no slot names: its block is free from now on.
///
/// Source: Erlang/OTP erts internal documentation, CodeLoading, and the manual page of persistent_term.
pub fn release<K: Naming>(tables: &mut Tables, shared: &Shared<CodeLaw<K>>, serial: u64)
    requires tables { AreTablesOf shared.now.table.shared.table_id shared.now.table.shared.key tables.old }
    requires may { IsReleasable serial tables.old.pools (written_by tables.old.writer) }
    ensures tables { AreTablesOf shared.now.table.shared.table_id shared.now.table.shared.key tables.new }
    ensures exports { tables.new.exports ≡ tables.old.exports }
    ensures staged { IsStagedStill tables.old tables.new }
    // the words stand for the state that has released it, at rest and at each stage of a change that waits
    ensures stands { StandReleased K.names serial tables.old tables.new }
    ensures stages { StagesReleased K.names serial tables.old tables.new }
    // and while the switch of a breakpoint is not over
    ensures settling { SettlingReleased K.names serial tables.old tables.new }
    ensures drop { KeepsRelease serial (written_by tables.old.writer) (written_by tables.new.writer) }
{
    let Some(area) = tables.pools.find(serial) else {
        unreachable!()
    };
    clear_block(tables, shared, area);
    free_block(tables, shared, area);
}

/// Clears the decisions on the functions of the area's block, if that is one for instances.
fn clear_block<K: Naming>(tables: &mut Tables, shared: &Shared<CodeLaw<K>>, area: AreaRef)
    requires tables { AreTablesOf shared.now.table.shared.table_id shared.now.table.shared.key tables.old }
    requires may { MayRelease tables.old.pools (written_by tables.old.writer) area }
    requires called { IsCalledByNone (written_by tables.old.writer) area.block }
    requires uncalled { IsUncalled (written_by tables.old.writer) area.block }
    ensures tables { AreTablesOf shared.now.table.shared.table_id shared.now.table.shared.key tables.new }
    ensures exports { tables.new.exports ≡ tables.old.exports }
    ensures staged { IsStagedStill tables.old tables.new }
    // the area may be released still, and its block has no decisions
    ensures may { MayRelease tables.new.pools (written_by tables.new.writer) area }
    ensures cleared { IsForInstances area.block → HasNoDecisions (written_by tables.new.writer) area.block }
    // what the words stand for they stand for still, at rest and at each stage of a change that waits
    ensures stands { StandStill K.names tables.old tables.new }
    ensures same { IsSameButWords (written_by tables.old.writer) (written_by tables.new.writer) }
{
    if area.block >= BIG_BLOCKS {
        return;
    }
    writes_keep_index();
    writes_keep_tables();
    clear_decisions(shared, &mut tables.writer, area.block);
}

/// Frees the block of a retired area, which has no decisions.
fn free_block<K: Naming>(tables: &mut Tables, shared: &Shared<CodeLaw<K>>, area: AreaRef)
    requires tables { AreTablesOf shared.now.table.shared.table_id shared.now.table.shared.key tables.old }
    requires may { MayRelease tables.old.pools (written_by tables.old.writer) area }
    requires cleared { IsForInstances area.block → HasNoDecisions (written_by tables.old.writer) area.block }
    ensures tables { AreTablesOf shared.now.table.shared.table_id shared.now.table.shared.key tables.new }
    ensures exports { tables.new.exports ≡ tables.old.exports }
    ensures staged { IsStagedStill tables.old tables.new }
    // the words stand for the state that has released it, at rest and at each stage of a change that waits
    ensures stands { StandReleased K.names area.serial tables.old tables.new }
    ensures stages { StagesReleased K.names area.serial tables.old tables.new }
    ensures settling { SettlingReleased K.names area.serial tables.old tables.new }
    ensures drop { KeepsRelease area.serial (written_by tables.old.writer) (written_by tables.new.writer) }
{
    exports_that_stay_are_staged();
    stores_keep_index();
    stores_keep_tables();
    tables.pools.release(shared, &mut tables.writer, area);
}
