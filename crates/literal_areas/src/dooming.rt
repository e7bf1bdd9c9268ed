//! The call by which an instance is doomed.

ghost use Rattle.std.specs.Prelude.{◌≡◌, ◌<◌, length};
ghost use Rattle.area_core.specs.declared.map.TheConstants.{BIG_BLOCKS};
ghost use Rattle.area_core.specs.Map.{doom_place};
ghost use Rattle.shared_words.specs.Publishing.{with_word};
ghost use Rattle.progress_words.specs.Tokens.{written_by, IsWriterOf, IsSameWriter};
ghost use Rattle.literal_areas.specs.Blocks.{IsLive};
ghost use Rattle.literal_areas.specs.Owned.{AreOf};
ghost use Rattle.literal_areas.specs.Written.{IsPublished, IsUndoomed};

use crate::places::doom_word;
use crate::pools::Pools;
use crate::retiring::next_generation;
use shared_words::{Served, Shared, Writer};
use term_core::AreaRef;

impl Pools {
    /// Dooms a published instance, once: the generation that is published next is the first for which
    /// it is doomed. It stays live until it is retired.
    ///
    /// Source: Erlang/OTP erts internal documentation, CodeLoading.
    pub fn doom<N: Served>(&mut self, shared: &Shared<N>, writer: &mut Writer, area: AreaRef)
        requires token { IsWriterOf shared.now.table.shared.table_id shared.now.table.shared.key writer.old }
        requires owned { AreOf self.old (written_by writer.old) }
        requires live { IsLive self.old area }
        requires published { IsPublished (written_by writer.old) area }
        requires instance { area.block < BIG_BLOCKS }
        requires undoomed { IsUndoomed (written_by writer.old) area }
        ensures pools { self.new ≡ self.old }
        ensures token { IsWriterOf shared.now.table.shared.table_id shared.now.table.shared.key writer.new }
        ensures same { IsSameWriter writer.old writer.new }
        ensures stored { written_by writer.new ≡ with_word (doom_place area.block) (length (written_by writer.old).published) (written_by writer.old) }
        ensures owned { AreOf self.new (written_by writer.new) }
    {
        let since = next_generation(shared, writer);
        shared.store_word(writer, doom_word(area.block), since);
    }
}
