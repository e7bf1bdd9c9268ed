//! The steps on the slots of processes.

ghost use Rattle.std.specs.Prelude.{◌≡◌, ◌^◌, ◌<◌, ◌≤◌};
ghost use Rattle.area_core.specs.declared.map.TheConstants.{TABLE_WORDS};
ghost use Rattle.shared_words.specs.declared.table.TheConstants.{PROCESSES, ANCHORS};
ghost use Rattle.area_core.specs.Map.{slot_place};
ghost use Rattle.shared_words.specs.declared.view.View.TheVariants as views;
ghost use Rattle.shared_words.specs.Processes.{AreCopied};
ghost use Rattle.shared_words.specs.Seats.{IsSeatOf, IsMemberSeat, IsSameSeat, IsWriterSeat, member_of, writer_of};
ghost use Rattle.shared_words.specs.Slots.{MayStoreSlot, with_slot, MayLook, slot_looked};

use crate::law::Served;
use crate::pass::Words;
use crate::plays::{LoadSlot, StoreSlot};
use crate::seats::{Member, Writer};
use crate::table::{ANCHORS, SLOT_WORDS, SLOTS, Shared};
use crate::view::View;
use atomic_table::Seat;
use std::marker::Brand;
use term_core::{AreaRef, Kind};

/// The look that a load stands in, or none. The proof of a call picks it.
pub trait Looking {
    ghost use Rattle.std.specs.Prelude.{Option};
    ghost use Rattle.term_core.specs.declared.area.AreaRef.{AreaRef};
    ghost use Rattle.term_core.specs.declared.hold.Kind.{Kind};

    ghost look: { Option (AreaRef × Option Kind) };
}

impl Looking for Brand {
    ghost use Rattle.std.specs.Prelude.{None};

    ghost look = { None };
}

/// The place of a word of a process's slot in the table: the turns done, then the anchors.
pub(crate) fn slot_word(process: u32, place: u32) -> usize
    requires process { process < PROCESSES }
    requires place { place ≤ ANCHORS }
    ensures { result ≡ slot_place process place }
{
    SLOTS as usize + process as usize * SLOT_WORDS as usize + place as usize
}

/// Loads a word of a slot in the look that was picked.
fn look_at<N: Served, K: Looking>(
    table: &Words<N>,
    writer: &mut Seat<(), View>,
    process: u32,
    place: u32,
    _look: Option<(AreaRef, Option<Kind>)>,
) -> u64
    requires picked { _look ≡ K.look }
    requires token { IsSeatOf table.now.table_id writer.old }
    requires writer { writer.old.me.0 ≡ views.Writer (writer_of writer.old.me.0) }
    requires sized { table.now.table_id.words ≡ TABLE_WORDS }
    requires process { process < PROCESSES }
    requires place { place ≤ ANCHORS }
    requires may { MayLook (writer_of writer.old.me.0) K.look }
    ensures token { IsSameSeat writer.old writer.new }
    ensures narrow { place ≡ 0 → result < 2 ^ 32 }
    ensures view { writer.new.me.0 ≡ views.Writer (slot_looked process place K.look result (writer_of writer.old.me.0)) }
{
    table.load::<LoadSlot<K>>(writer, slot_word(process, place))
}

impl<N: Served> Shared<N> {
    /// Stores a word of the slot of one of the member's processes: at place 0 the number of turns done,
    /// with which the mark of a turn joins, else an anchor. The member is awake, and the note of the
    /// process has come. What an anchor newly names is a current instance, the area of a key, or, as a
    /// literal, an instance that the slot names for a frame.
    ///
    /// Source: Erlang/OTP, the manual pages of the module code and of persistent_term; the words are
    /// this project's own.
    #[tactic(auto, using(crate::proofs::AnchorStores::copied_next, crate::proofs::AnchorStores::copied_done))]
    pub fn store_slot(&self, member: &mut Member, process: u32, place: u32, value: u64)
        requires token { IsMemberSeat self.now.table.shared.table_id member.old.number member.old.seat }
        requires copied { AreCopied member.old.anchors.items (member_of member.old.seat.me.0) }
        requires may { MayStoreSlot self.now.table.shared.key process place value (member_of member.old.seat.me.0) }
        ensures token { IsSameSeat member.old.seat member.new.seat }
        ensures number { member.new.number ≡ member.old.number }
        ensures root { member.new.root ≡ member.old.root }
        ensures copied { AreCopied member.new.anchors.items (member_of member.new.seat.me.0) }
        ensures view { member.new.seat.me.0 ≡ views.Member (with_slot process place value (member_of member.old.seat.me.0)) }
    {
        let word = slot_word(process, place);
        self.table
            .shared
            .store::<StoreSlot>(&mut member.seat, word, value);
        if place > 0 {
            let anchor = process as usize * ANCHORS as usize + (place as usize - 1);
            member.anchors[anchor] = value;
        }
    }

    /// Loads a word of the slot of a process: at place 0 the number of turns done, else an anchor. In a
    /// look on an area the writer keeps the turn word, and an anchor that does not name the area in the
    /// kind that is asked for: a frame, or both where none is named. A look begins only once a wait is
    /// over that began while the area was retired, or an old instance where frames are asked for.
    ///
    /// Source: Erlang/OTP, the manual page of the module code (check_process_code); the words are this
    /// project's own.
    pub fn load_slot(
        &self,
        writer: &mut Writer,
        process: u32,
        place: u32,
        look: Option<(AreaRef, Option<Kind>)>,
    ) -> u64
        requires token { IsWriterSeat self.now.table.shared.table_id self.now.table.shared.key writer.old.generation writer.old.seat }
        requires process { process < PROCESSES }
        requires place { place ≤ ANCHORS }
        requires may { MayLook (writer_of writer.old.seat.me.0) look }
        ensures token { IsWriterSeat self.now.table.shared.table_id self.now.table.shared.key writer.new.generation writer.new.seat }
        ensures same { IsSameSeat writer.old.seat writer.new.seat }
        ensures generation { writer.new.generation ≡ writer.old.generation }
        ensures narrow { place ≡ 0 → result < 2 ^ 32 }
        ensures view { writer.new.seat.me.0 ≡ views.Writer (slot_looked process place look result (writer_of writer.old.seat.me.0)) }
    {
        look_at::<N, Brand>(&self.table.shared, &mut writer.seat, process, place, look)
    }
}
