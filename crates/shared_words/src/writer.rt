//! The stores of the writer: of the words of blocks, and of the root, by which it publishes.

ghost use Rattle.std.specs.Prelude.{◌≡◌, ◌+◌, ◌*◌, ◌^◌, ◌<◌};
ghost use Rattle.area_core.specs.declared.map.TheConstants.{CODE_INDICES, BREAKPOINT_INDICES, TERM_TABLES};
ghost use Rattle.shared_words.specs.declared.view.View.TheVariants as views;
ghost use Rattle.shared_words.specs.Seats.{IsWriterSeat, IsSameSeat, writer_of};
ghost use Rattle.shared_words.specs.Publishing.{MayStoreWord, with_word, IsRootOf, MayPublish, with_next};

use crate::law::Served;
use crate::plays::{StoreRoot, StoreWord};
use crate::seats::Writer;
use crate::table::{ROOT, Shared};
use std::marker::Brand;

/// What the writer publishes next: a generation with its root and the blocks of its areas. The proof
/// of a call picks it.
pub trait Next {
    ghost use Rattle.area_core.specs.declared.table.Published.{Published};

    ghost next: { Published };
}

impl Next for Brand {
    ghost use Rattle.area_core.specs.Step.{opening_published};

    ghost next = { opening_published };
}

/// The root word of a generation.
pub(crate) fn root_word(code: u32, bp: u32, term: u32, generation: u64) -> u64
    requires code { code < CODE_INDICES }
    requires bp { bp < BREAKPOINT_INDICES }
    requires term { term < TERM_TABLES }
    requires room { generation < 2 ^ 59 }
    ensures { result ≡ code + 4 * bp + 8 * term + 32 * generation }
{
    u64::from(code) + 4 * u64::from(bp) + 8 * u64::from(term) + 32 * generation
}

impl<N: Served> Shared<N> {
    /// Stores a word of a block that no generation reads that may still be read, and in which no area is
    /// kept, but for entry words; or the retire or doom word of a block.
    pub fn store_word(&self, writer: &mut Writer, word: u32, value: u64)
        requires token { IsWriterSeat self.now.table.shared.table_id self.now.table.shared.key writer.old.generation writer.old.seat }
        requires may { MayStoreWord (writer_of writer.old.seat.me.0) word value }
        ensures token { IsWriterSeat self.now.table.shared.table_id self.now.table.shared.key writer.new.generation writer.new.seat }
        ensures same { IsSameSeat writer.old.seat writer.new.seat }
        ensures generation { writer.new.generation ≡ writer.old.generation }
        ensures view { writer.new.seat.me.0 ≡ views.Writer (with_word word value (writer_of writer.old.seat.me.0)) }
    {
        self.table
            .shared
            .store::<StoreWord>(&mut writer.seat, word as usize, value);
    }

    /// Stores the root of the next generation, and so publishes it. Blocks and areas stand for it, and each
    /// area that is kept stands in it. The number of a generation has room in the root word below 2^59.
    pub fn store_root<M: Next>(&self, writer: &mut Writer, code: u32, bp: u32, term: u32)
        requires token { IsWriterSeat self.now.table.shared.table_id self.now.table.shared.key writer.old.generation writer.old.seat }
        requires root { IsRootOf M.next.root code bp term }
        requires may { MayPublish N.served (writer_of writer.old.seat.me.0) M.next }
        requires room { writer.old.generation + 1 < 2 ^ 59 }
        ensures token { IsWriterSeat self.now.table.shared.table_id self.now.table.shared.key writer.new.generation writer.new.seat }
        ensures same { IsSameSeat writer.old.seat writer.new.seat }
        ensures generation { writer.new.generation ≡ writer.old.generation + 1 }
        ensures view { writer.new.seat.me.0 ≡ views.Writer (with_next M.next (writer_of writer.old.seat.me.0)) }
    {
        let generation = writer.generation + 1;
        let root = root_word(code, bp, term, generation);
        self.table
            .shared
            .store::<StoreRoot<M>>(&mut writer.seat, ROOT as usize, root);
        writer.generation = generation;
    }
}
