//! The call by which an area gets its words.

ghost use Rattle.std.specs.Prelude.{◌≡◌, ◌≤◌, length};
ghost use Rattle.area_core.specs.Map.{room_of};
ghost use Rattle.progress_words.specs.Tokens.{written_by, IsWriterOf, IsSameWriter};
ghost use Rattle.literal_areas.specs.Blocks.{IsLive};
ghost use Rattle.literal_areas.specs.Owned.{AreOf, IsUnpublished};
ghost use Rattle.literal_areas.specs.Written.{HasWritten, KeepsOtherBlocks};

use crate::places::block_word;
use crate::pools::Pools;
use shared_words::{Served, Shared, Writer};
use term_core::AreaRef;

impl Pools {
    /// Stores words from the first of the area's block on, where they have room. The area is taken, and
    /// was not published: nobody reads its block.
    pub fn write<N: Served>(
        &mut self,
        shared: &Shared<N>,
        writer: &mut Writer,
        area: AreaRef,
        words: &[u64],
    )
        requires token { IsWriterOf shared.now.table.shared.table_id shared.now.table.shared.key writer.old }
        requires owned { AreOf self.old (written_by writer.old) }
        requires taken { IsLive self.old area }
        requires unpublished { IsUnpublished (written_by writer.old) area }
        requires room { length words.now ≤ room_of area.block }
        ensures pools { self.new ≡ self.old }
        ensures token { IsWriterOf shared.now.table.shared.table_id shared.now.table.shared.key writer.new }
        ensures same { IsSameWriter writer.old writer.new }
        ensures written { HasWritten area.block (length words.now) words.now (written_by writer.old) (written_by writer.new) }
        ensures others { KeepsOtherBlocks area.block (written_by writer.old) (written_by writer.new) }
        ensures owned { AreOf self.new (written_by writer.new) }
        ensures unpublished { IsUnpublished (written_by writer.new) area }
    {
        for (at, word) in words.iter().enumerate() {
            shared.store_word(writer, block_word(area.block, at as u32), *word);
        }
    }
}
