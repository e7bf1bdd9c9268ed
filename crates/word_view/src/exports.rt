//! What the name of a function reaches.

ghost use Rattle.std.specs.Prelude.{◌<◌};
ghost use Rattle.area_core.specs.declared.map.TheConstants.{EXPORT_ENTRIES};
ghost use Rattle.shared_words.specs.Processes.{held_by_view};
ghost use Rattle.shared_words.specs.Seats.{IsMemberSeat};
ghost use Rattle.anchors.specs.Holds.{view_of};
ghost use Rattle.word_view.specs.Loaded.{HasRead, IsCodeOf, LeadsOn, export_at};
ghost use Rattle.word_view.specs.Views.{IsReading};

use crate::places::FUNCTIONS;
use crate::reads::{area_word, code_word};
use shared_words::{Member, Served, Shared};
use term_core::{AreaRef, CodeRef};

/// What the name of this number reaches: the word of the active code index tells block and function, and
/// the first word of the block the serial of the instance.
pub fn export_of<N: Served>(shared: &Shared<N>, member: &mut Member, entry: u32) -> Option<CodeRef>
    requires token { IsMemberSeat shared.now.table.shared.table_id member.old.number member.old.seat }
    requires reading { IsReading member.old.root (view_of member.old) }
    requires entry { entry < EXPORT_ENTRIES }
    requires leads { LeadsOn (view_of member.old) (export_at (held_by_view (view_of member.old)) entry) }
    ensures token { IsMemberSeat shared.now.table.shared.table_id member.new.number member.new.seat }
    ensures read { HasRead member.old member.new }
    ensures code { IsCodeOf (held_by_view (view_of member.old)) (export_at (held_by_view (view_of member.old)) entry) result }
{
    let word = code_word(shared, member, entry);
    if word == 0 {
        return None;
    }
    let block = ((word - 1) / FUNCTIONS) as u32;
    let serial = area_word(shared, member, block, 0);
    Some(CodeRef {
        area: AreaRef { serial, block },
        function: ((word - 1) % FUNCTIONS) as u32,
    })
}
