//! The call by which an area is released.

ghost use Rattle.std.specs.Prelude.{◌≡◌, IsTrue, is_some};
ghost use Rattle.progress_words.specs.Tokens.{written_by, IsWriterOf, IsSameWriter};
ghost use Rattle.literal_areas.specs.Blocks.{use_of, without_area};
ghost use Rattle.literal_areas.specs.Owned.{AreOf};
ghost use Rattle.literal_areas.specs.Released.{MayRelease, IsUnread, IsUnnamed, area_released};

use crate::areas::Areas;
use crate::blocks::BlockUse;
use crate::places::{FIRST_TERM_BLOCK, doom_word};
use crate::pools::Pools;
use shared_words::{Served, Shared, Writer};
use term_core::AreaRef;

impl Areas {
    /// The block of the area is free.
    fn release(&mut self, area: AreaRef)
        requires there { IsTrue (is_some (use_of self.old area.block)) }
        ensures { self.new ≡ without_area area self.old }
    {
        self.set_use(area.block, BlockUse::Free);
    }
}

/// Stores 0 into the retire word of the area's block, with which the writer keeps that the area was
/// dropped, and into its doom word where it has one.
#[tactic(auto, using(crate::proofs::Freed::cleared_both, crate::proofs::Freed::cleared_one))]
fn clear_words<N: Served>(areas: &Areas, shared: &Shared<N>, writer: &mut Writer, area: AreaRef)
    requires token { IsWriterOf shared.now.table.shared.table_id shared.now.table.shared.key writer.old }
    requires owned { AreOf areas.now (written_by writer.old) }
    requires may { MayRelease areas.now (written_by writer.old) area }
    ensures token { IsWriterOf shared.now.table.shared.table_id shared.now.table.shared.key writer.new }
    ensures same { IsSameWriter writer.old writer.new }
    ensures stored { written_by writer.new ≡ area_released area (written_by writer.old) }
{
    shared.store_release(writer, area);
    if area.block < FIRST_TERM_BLOCK {
        shared.store_word(writer, doom_word(area.block), 0);
    }
}

impl Pools {
    /// Releases an area that is retired, once a value that the writer took since then is reached and a
    /// look in both kinds found no slot that names it. Its block is free from now on: no thread may read
    /// it, and no slot names the area. The writer keeps that it was dropped.
    ///
    /// Source: Erlang/OTP erts internal documentation, CodeLoading, and the manual page of
    /// persistent_term.
    #[tactic(auto, using(crate::proofs::Freed::still_there))]
    pub fn release<N: Served>(&mut self, shared: &Shared<N>, writer: &mut Writer, area: AreaRef)
        requires token { IsWriterOf shared.now.table.shared.table_id shared.now.table.shared.key writer.old }
        requires owned { AreOf self.old (written_by writer.old) }
        requires may { MayRelease self.old (written_by writer.old) area }
        ensures released { self.new ≡ without_area area self.old }
        ensures token { IsWriterOf shared.now.table.shared.table_id shared.now.table.shared.key writer.new }
        ensures same { IsSameWriter writer.old writer.new }
        ensures stored { written_by writer.new ≡ area_released area (written_by writer.old) }
        ensures unread { IsUnread N.served shared.now.table.shared.key (written_by writer.new) area.block }
        ensures unnamed { IsUnnamed N.served shared.now.table.shared.key (written_by writer.new) area.serial }
        ensures owned { AreOf self.new (written_by writer.new) }
    {
        clear_words(&self.areas, shared, writer, area);
        self.areas.release(area);
    }
}
