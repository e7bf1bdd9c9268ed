//! The calls by which an area is taken, and given back before it was published.

ghost use Rattle.std.specs.Prelude.{◌≡◌, ◌↔◌, ◌<◌, ◌^◌, false};
ghost use Rattle.std.specs.List.{list_any};
ghost use Rattle.term_core.specs.declared.area.AreaRef.{AreaRef};
ghost use Rattle.shared_words.specs.declared.view.WriterView.{WriterView};
ghost use Rattle.literal_areas.specs.Blocks.{is_free, blocks_of, HasSizes, AreAllLive, AwaitsRelease, HasAnswered, IsLast, IsLive, without_last};
ghost use Rattle.literal_areas.specs.Owned.{AreOf, IsUnpublished};

use crate::areas::Areas;
use crate::blocks::{BlockUse, Pool};
use crate::pools::Pools;
use term_core::AreaRef;

/// What comes of an attempt to take an area.
#[derive(Clone, Copy, Debug, PartialEq, Eq)]
pub enum Take {
    /// The area, live from now on.
    Area(AreaRef),
    /// All blocks of the pool are live.
    AllLive,
    /// No block of the pool is free, and the area in at least one is retired and not yet released.
    AwaitRelease,
}

impl Areas {
    /// Why no block of the pool is taken, where none is free.
    fn refusal(&self, pool: Pool) -> Take
        requires full { list_any is_free (blocks_of pool self.now) ≡ false }
        ensures { HasAnswered pool self.now self.now result }
    {
        if self.blocks(pool).has_retired() {
            Take::AwaitRelease
        } else {
            Take::AllLive
        }
    }

    /// Takes a free block of the pool for an area, which has the next serial.
    fn take(&mut self, pool: Pool) -> Take
        requires sizes { HasSizes self.old }
        requires room { self.old.next < 2 ^ 40 }
        ensures { HasAnswered pool self.old self.new result }
    {
        let Some(block) = self.free_block(pool) else {
            return self.refusal(pool);
        };
        let serial = self.next;
        self.next = serial + 1;
        self.set_use(block, BlockUse::Live { serial });
        Take::Area(AreaRef { serial, block })
    }

    /// Frees the block of the area that was taken last, whose serial is the next one.
    fn give_back(&mut self, area: AreaRef)
        requires last { IsLast self.old area }
        ensures { self.new ≡ without_last area self.old }
    {
        self.next = area.serial;
        self.set_use(area.block, BlockUse::Free);
    }
}

impl Pools {
    /// Takes a free block of the pool for an area, which has the next serial. It takes no memory.
    #[tactic(auto, using(crate::proofs::FreeBlocks::all_live_exactly, crate::proofs::FreeBlocks::await_exactly, crate::proofs::Serials::sound_after, crate::proofs::Serials::live_after, crate::proofs::Owners::owned_after, crate::proofs::Owners::unpublished_after))]
    pub fn take(&mut self, pool: Pool) -> Take
        requires room { self.old.next < 2 ^ 40 }
        ensures answered { HasAnswered pool self.old self.new result }
        ensures all_live { (result ≡ Take.AllLive) ↔ AreAllLive (blocks_of pool self.old) }
        ensures await_release { (result ≡ Take.AwaitRelease) ↔ AwaitsRelease (blocks_of pool self.old) }
        ensures live { (area : AreaRef) → IsLive self.old area → IsLive self.new area }
        ensures owned { (w : WriterView) → AreOf self.old w → AreOf self.new w }
        ensures unpublished { (w : WriterView) (area : AreaRef) → result ≡ Take.Area area → AreOf self.old w → IsUnpublished w area }
    {
        self.areas.take(pool)
    }

    /// Gives an area back that was taken last, and was never published. Its block is free again, and
    /// its serial is the next one.
    pub fn give_back(&mut self, area: AreaRef)
        requires last { IsLast self.old area }
        ensures given { self.new ≡ without_last area self.old }
        ensures owned { (w : WriterView) → AreOf self.old w → IsUnpublished w area → AreOf self.new w }
    {
        self.areas.give_back(area);
    }
}
