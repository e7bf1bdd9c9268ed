//! The call by which an area is retired.

ghost use Rattle.std.specs.Prelude.{◌≡◌, length};
ghost use Rattle.area_core.specs.Map.{retire_place};
ghost use Rattle.shared_words.specs.Publishing.{with_word};
ghost use Rattle.progress_words.specs.Tokens.{written_by, IsWriterOf, IsSameWriter};
ghost use Rattle.literal_areas.specs.Blocks.{IsLive, with_retired};
ghost use Rattle.literal_areas.specs.Owned.{AreOf};
ghost use Rattle.literal_areas.specs.Written.{IsPublished};

use crate::areas::Areas;
use crate::blocks::BlockUse;
use crate::places::retire_word;
use crate::pools::Pools;
use shared_words::{Served, Shared, Writer};
use term_core::AreaRef;

/// A root word is the number of its generation times this, and then the numbers of blocks.
const GENERATION_UNIT: u64 = 32;

/// The number of the generation that is published next.
pub(crate) fn next_generation<N: Served>(shared: &Shared<N>, writer: &mut Writer) -> u64
    requires token { IsWriterOf shared.now.table.shared.table_id shared.now.table.shared.key writer.old }
    ensures token { IsWriterOf shared.now.table.shared.table_id shared.now.table.shared.key writer.new }
    ensures same { IsSameWriter writer.old writer.new }
    ensures view { written_by writer.new ≡ written_by writer.old }
    ensures next { result ≡ length (written_by writer.old).published }
{
    shared.load_root(writer) / GENERATION_UNIT + 1
}

impl Areas {
    /// The area is retired from the generation of this number on.
    fn retire(&mut self, area: AreaRef, since: u64)
        requires live { IsLive self.old area }
        ensures { self.new ≡ with_retired area since self.old }
    {
        let serial = area.serial;
        self.set_use(area.block, BlockUse::Retired { serial, since });
    }
}

impl Pools {
    /// Retires a published area: the generation that is published next is the first for which it is
    /// retired. Until it is released its block keeps its words.
    ///
    /// Source: Erlang/OTP erts internal documentation, CodeLoading.
    pub fn retire<N: Served>(&mut self, shared: &Shared<N>, writer: &mut Writer, area: AreaRef)
        requires token { IsWriterOf shared.now.table.shared.table_id shared.now.table.shared.key writer.old }
        requires owned { AreOf self.old (written_by writer.old) }
        requires live { IsLive self.old area }
        requires published { IsPublished (written_by writer.old) area }
        ensures retired { self.new ≡ with_retired area (length (written_by writer.old).published) self.old }
        ensures token { IsWriterOf shared.now.table.shared.table_id shared.now.table.shared.key writer.new }
        ensures same { IsSameWriter writer.old writer.new }
        ensures stored { written_by writer.new ≡ with_word (retire_place area.block) (length (written_by writer.old).published) (written_by writer.old) }
        ensures owned { AreOf self.new (written_by writer.new) }
    {
        let since = next_generation(shared, writer);
        shared.store_word(writer, retire_word(area.block), since);
        self.areas.retire(area, since);
    }
}
