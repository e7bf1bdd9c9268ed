//! The steps of a member on its own word.

ghost use Rattle.std.specs.Prelude.{◌≡◌};
ghost use Rattle.shared_words.specs.declared.view.View.TheVariants as views;
ghost use Rattle.shared_words.specs.Seats.{IsMemberSeat, IsSameSeat, member_of};
ghost use Rattle.shared_words.specs.Kinds.{MayConfirm, MayWait, MayEnter, value_confirmed, now_waiting, now_entering};

use crate::law::Served;
use crate::plays::{Confirm, StoreEntering, StoreWaiting};
use crate::seats::Member;
use crate::table::{CONFIRMED, Shared};
use prgr_core::{ENTERING, WAITING};

impl<N: Served> Shared<N> {
    /// Stores the value after the counter that the member has loaded into its word. It has loaded the
    /// root after the counter.
    pub fn confirm(&self, member: &mut Member, value: u64)
        requires token { IsMemberSeat self.now.table.shared.table_id member.old.number member.old.seat }
        requires may { MayConfirm value (member_of member.old.seat.me.0) }
        ensures token { IsSameSeat member.old.seat member.new.seat }
        ensures number { member.new.number ≡ member.old.number }
        ensures root { member.new.root ≡ member.old.root }
        ensures anchors { member.new.anchors.items ≡ member.old.anchors.items }
        ensures view { member.new.seat.me.0 ≡ views.Member (value_confirmed value (member_of member.old.seat.me.0)) }
    {
        let word = CONFIRMED as usize + member.number as usize;
        self.table
            .shared
            .store::<Confirm>(&mut member.seat, word, value);
    }

    /// Stores into the member's word that it waits: it reads nothing, and holds back no progress. None of
    /// its processes has a turn under way.
    pub fn store_waiting(&self, member: &mut Member)
        requires token { IsMemberSeat self.now.table.shared.table_id member.old.number member.old.seat }
        requires may { MayWait (member_of member.old.seat.me.0) }
        ensures token { IsSameSeat member.old.seat member.new.seat }
        ensures number { member.new.number ≡ member.old.number }
        ensures root { member.new.root ≡ member.old.root }
        ensures anchors { member.new.anchors.items ≡ member.old.anchors.items }
        ensures view { member.new.seat.me.0 ≡ views.Member (now_waiting (member_of member.old.seat.me.0)) }
    {
        let word = CONFIRMED as usize + member.number as usize;
        self.table
            .shared
            .store::<StoreWaiting>(&mut member.seat, word, WAITING);
    }

    /// Stores into the member's word that it enters: it reads nothing until its next report.
    pub fn store_entering(&self, member: &mut Member)
        requires token { IsMemberSeat self.now.table.shared.table_id member.old.number member.old.seat }
        requires may { MayEnter (member_of member.old.seat.me.0) }
        ensures token { IsSameSeat member.old.seat member.new.seat }
        ensures number { member.new.number ≡ member.old.number }
        ensures root { member.new.root ≡ member.old.root }
        ensures anchors { member.new.anchors.items ≡ member.old.anchors.items }
        ensures view { member.new.seat.me.0 ≡ views.Member (now_entering (member_of member.old.seat.me.0)) }
    {
        let word = CONFIRMED as usize + member.number as usize;
        self.table
            .shared
            .store::<StoreEntering>(&mut member.seat, word, ENTERING);
    }
}
