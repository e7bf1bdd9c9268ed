//! The loads of words that a turn reads.

ghost use Rattle.std.specs.Prelude.{◌<◌, IsTrue, length, slice_get};
ghost use Rattle.prgr_core.specs.Members.{is_value};
ghost use Rattle.area_core.specs.declared.map.TheConstants.{EXPORT_ENTRIES};
ghost use Rattle.area_core.specs.Generations.{is_code_word};
ghost use Rattle.area_core.specs.Map.{block_place};
ghost use Rattle.shared_words.specs.declared.view.View.TheVariants as views;
ghost use Rattle.shared_words.specs.Processes.{held_by_view};
ghost use Rattle.shared_words.specs.Publishing.{MayLoadWord};
ghost use Rattle.shared_words.specs.Seats.{IsMemberSeat};
ghost use Rattle.anchors.specs.Holds.{view_of};
ghost use Rattle.word_view.specs.Loaded.{HasRead, IsFound, IsReadAt, IsWordThere};
ghost use Rattle.word_view.specs.Views.{IsReading};

use crate::places::{CODE_UNIT, block_word, index_word};
use shared_words::{Member, Served, Shared};

/// Loads a word that the member may read.
pub fn load<N: Served>(shared: &Shared<N>, member: &mut Member, word: u32) -> u64
    requires token { IsMemberSeat shared.now.table.shared.table_id member.old.number member.old.seat }
    requires awake { IsTrue (is_value (view_of member.old).member.word) }
    requires learnt { (view_of member.old).member.generation < length (view_of member.old).seen }
    requires may { MayLoadWord word (views.Member (view_of member.old)) }
    ensures token { IsMemberSeat shared.now.table.shared.table_id member.new.number member.new.seat }
    ensures read { HasRead member.old member.new }
    ensures found { IsFound (view_of member.old) word result }
{
    shared.load_word(member, word)
}

/// The word that the active code index has for the name of this number.
pub fn code_word<N: Served>(shared: &Shared<N>, member: &mut Member, entry: u32) -> u64
    requires token { IsMemberSeat shared.now.table.shared.table_id member.old.number member.old.seat }
    requires reading { IsReading member.old.root (view_of member.old) }
    requires entry { entry < EXPORT_ENTRIES }
    ensures token { IsMemberSeat shared.now.table.shared.table_id member.new.number member.new.seat }
    ensures read { HasRead member.old member.new }
    ensures found { IsFound (view_of member.old) (block_place (held_by_view (view_of member.old)).root.code entry) result }
    ensures word { IsTrue (is_code_word (held_by_view (view_of member.old)) (slice_get (held_by_view (view_of member.old)).state.exports entry) result) }
{
    let code = (member.root() % CODE_UNIT) as u32;
    load(shared, member, index_word(code, entry))
}

/// A word of an area that a turn may come to, by the block in which the area stands.
pub fn area_word<N: Served>(shared: &Shared<N>, member: &mut Member, block: u32, at: u32) -> u64
    requires token { IsMemberSeat shared.now.table.shared.table_id member.old.number member.old.seat }
    requires reading { IsReading member.old.root (view_of member.old) }
    requires may { IsReadAt (view_of member.old) block at }
    ensures token { IsMemberSeat shared.now.table.shared.table_id member.new.number member.new.seat }
    ensures read { HasRead member.old member.new }
    ensures word { IsWordThere (view_of member.old) block at result }
{
    load(shared, member, block_word(block, at))
}
