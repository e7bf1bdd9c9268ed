//! The store of entry words, by which calls of a function look for a breakpoint or not.

ghost use Rattle.std.specs.Prelude.{◌≡◌, ◌<◌};
ghost use Rattle.area_core.specs.declared.map.TheConstants.{BIG_BLOCKS, FUNCTIONS, TABLE_WORDS};
ghost use Rattle.area_core.specs.Map.{block_place, image_entry_at};
ghost use Rattle.area_core.specs.Stores.{entry_word};
ghost use Rattle.shared_words.specs.declared.view.View.TheVariants as views;
ghost use Rattle.shared_words.specs.Seats.{IsWriterSeat, IsSameSeat, writer_of};
ghost use Rattle.shared_words.specs.Publishing.{MayStoreEntry, with_word};

use crate::law::Served;
use crate::plays::StoreWord;
use crate::seats::Writer;
use crate::table::Shared;
use term_core::CodeRef;

/// The first word of the blocks.
const BLOCKS_START: u32 = 1493;

/// How many words a block of an instance has.
const BIG_WORDS: u32 = 1024;

/// Where a block has the entry word of the first function of its instance.
const FIRST_ENTRY: u32 = 6;

/// How many words a block has for each function of its instance.
const ROW_WORDS: u32 = 4;

/// The place of the entry word of a function of an instance.
fn entry_place(at: CodeRef) -> u32
    requires big { at.area.block < BIG_BLOCKS }
    requires few { at.function < FUNCTIONS }
    ensures there { result < TABLE_WORDS }
    ensures place { result ≡ block_place at.area.block (image_entry_at at.function) }
{
    BLOCKS_START + at.area.block * BIG_WORDS + (at.function * ROW_WORDS + FIRST_ENTRY)
}

/// What is stored there: 1 where it is on.
fn entry_word(on: bool) -> u64
    ensures { result ≡ entry_word on }
{
    if on { 1 } else { 0 }
}

impl<N: Served> Shared<N> {
    /// Stores the entry word of a function of a kept instance: 1 where a call of it is to look for a
    /// breakpoint, else 0.
    ///
    /// It may be stored while threads read it: what a reader may take from an entry word is that it is 0
    /// only where its generation does not trace the function.
    ///
    /// Source: Erlang/OTP erts internal documentation, Tracing.
    pub fn store_entry(&self, writer: &mut Writer, at: CodeRef, on: bool)
        requires token { IsWriterSeat self.now.table.shared.table_id self.now.table.shared.key writer.old.generation writer.old.seat }
        requires may { MayStoreEntry (writer_of writer.old.seat.me.0) at on }
        ensures token { IsWriterSeat self.now.table.shared.table_id self.now.table.shared.key writer.new.generation writer.new.seat }
        ensures same { IsSameSeat writer.old.seat writer.new.seat }
        ensures generation { writer.new.generation ≡ writer.old.generation }
        ensures view { writer.new.seat.me.0 ≡ views.Writer (with_word (block_place at.area.block (image_entry_at at.function)) (entry_word on) (writer_of writer.old.seat.me.0)) }
    {
        let place = entry_place(at);
        self.table
            .shared
            .store::<StoreWord>(&mut writer.seat, place as usize, entry_word(on));
    }
}
