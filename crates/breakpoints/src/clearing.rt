//! The call by which the decisions on a block's functions are gone before the block is given out again.

ghost use Rattle.std.specs.Prelude.{◌≡◌, ◌<◌, length};
ghost use Rattle.area_core.specs.declared.map.TheConstants.{BREAKPOINT_INDICES, FUNCTIONS, TABLE_WORDS};
ghost use Rattle.area_core.specs.Blocks.{IsForInstances};
ghost use Rattle.area_core.specs.Map.{breakpoint_place};
ghost use Rattle.shared_words.specs.Publishing.{with_word};
ghost use Rattle.progress_words.specs.Tokens.{written_by, IsWriterOf, IsSameWriter};
ghost use Rattle.breakpoints.specs.Laws.{AreasAreBehind, HasCleared, HasClearedFirst, IsCalledByNone};

use crate::places::{BREAKPOINT_INDICES, FUNCTIONS, decision_word};
use shared_words::{Served, Shared, Writer};

/// Clears the decision on one function in one index.
fn clear_decision<N: Served>(
    shared: &Shared<N>,
    writer: &mut Writer,
    bp: u32,
    block: u32,
    function: u32,
)
    requires token { IsWriterOf shared.now.table.shared.table_id shared.now.table.shared.key writer.old }
    requires bp { bp < BREAKPOINT_INDICES }
    requires block { IsForInstances block }
    requires function { function < FUNCTIONS }
    requires areas { AreasAreBehind (written_by writer.old) }
    requires called { IsCalledByNone (written_by writer.old) block }
    ensures token { IsWriterOf shared.now.table.shared.table_id shared.now.table.shared.key writer.new }
    ensures same { IsSameWriter writer.old writer.new }
    ensures stored { written_by writer.new ≡ with_word (breakpoint_place bp block function) 0 (written_by writer.old) }
{
    shared.store_word(writer, decision_word(bp, block, function), 0);
}

/// Clears the decisions on the functions of the block in one index.
fn clear_index<N: Served>(shared: &Shared<N>, writer: &mut Writer, bp: u32, block: u32)
    requires token { IsWriterOf shared.now.table.shared.table_id shared.now.table.shared.key writer.old }
    requires bp { bp < BREAKPOINT_INDICES }
    requires block { IsForInstances block }
    requires all { length (written_by writer.old).words ≡ TABLE_WORDS }
    requires areas { AreasAreBehind (written_by writer.old) }
    requires called { IsCalledByNone (written_by writer.old) block }
    ensures token { IsWriterOf shared.now.table.shared.table_id shared.now.table.shared.key writer.new }
    ensures same { IsSameWriter writer.old writer.new }
    ensures cleared { HasClearedFirst bp block FUNCTIONS (written_by writer.old) (written_by writer.new) }
{
    for function in 0..FUNCTIONS {
        clear_decision(shared, writer, bp, block, function);
    }
}

/// Clears the decisions on the functions of a block in both indices, before the block is given out
/// again. No thread calls a function of an instance in it.
pub fn clear_decisions<N: Served>(shared: &Shared<N>, writer: &mut Writer, block: u32)
    requires token { IsWriterOf shared.now.table.shared.table_id shared.now.table.shared.key writer.old }
    requires block { IsForInstances block }
    requires all { length (written_by writer.old).words ≡ TABLE_WORDS }
    requires areas { AreasAreBehind (written_by writer.old) }
    requires called { IsCalledByNone (written_by writer.old) block }
    ensures token { IsWriterOf shared.now.table.shared.table_id shared.now.table.shared.key writer.new }
    ensures same { IsSameWriter writer.old writer.new }
    ensures cleared { HasCleared block (written_by writer.old) (written_by writer.new) }
{
    clear_index(shared, writer, 0, block);
    clear_index(shared, writer, 1, block);
}
