//! The steps of a member that leads, or tries to.

ghost use Rattle.std.specs.Prelude.{◌≡◌, ◌≤◌, ◌+◌, false};
ghost use Rattle.prgr_core.specs.declared.member.TheConstants.{MOST_MEMBERS};
ghost use Rattle.prgr_core.specs.Members.{is_waiting};
ghost use Rattle.shared_words.specs.declared.view.View.TheVariants as views;
ghost use Rattle.shared_words.specs.Seats.{IsMemberSeat, IsSameSeat, member_of};
ghost use Rattle.shared_words.specs.Kinds.{MayScan, MayRaise, MayLead, IsLeader, known_counter, word_scanned, counter_raised, lead_found, lead_given};

use crate::law::Served;
use crate::plays::{DropLead, LoadConfirmed, StoreCounter, TakeLead};
use crate::seats::Member;
use crate::table::{CONFIRMED, COUNTER, LEAD, Shared};

impl<N: Served> Shared<N> {
    /// Loads the word of a member, and scans that member where the word shows that it is done.
    pub fn load_confirmed(&self, member: &mut Member, other: u32) -> u64
        requires token { IsMemberSeat self.now.table.shared.table_id member.old.number member.old.seat }
        requires may { MayScan self.now.table.shared.key other (member_of member.old.seat.me.0) }
        ensures token { IsSameSeat member.old.seat member.new.seat }
        ensures number { member.new.number ≡ member.old.number }
        ensures root { member.new.root ≡ member.old.root }
        ensures anchors { member.new.anchors.items ≡ member.old.anchors.items }
        ensures near { is_waiting result ≡ false → result ≤ known_counter (member_of member.old.seat.me.0) + 1 }
        ensures view { member.new.seat.me.0 ≡ views.Member (word_scanned other result (member_of member.old.seat.me.0)) }
    {
        let word = CONFIRMED as usize + other as usize;
        self.table
            .shared
            .load::<LoadConfirmed>(&mut member.seat, word)
    }

    /// Raises the counter by one. All members are scanned, and the delay where there are watchers.
    pub fn store_counter(&self, member: &mut Member)
        requires token { IsMemberSeat self.now.table.shared.table_id member.old.number member.old.seat }
        requires may { MayRaise self.now.table.shared.key (member_of member.old.seat.me.0) }
        ensures token { IsSameSeat member.old.seat member.new.seat }
        ensures number { member.new.number ≡ member.old.number }
        ensures root { member.new.root ≡ member.old.root }
        ensures anchors { member.new.anchors.items ≡ member.old.anchors.items }
        ensures view { member.new.seat.me.0 ≡ views.Member (counter_raised (member_of member.old.seat.me.0)) }
    {
        self.table
            .shared
            .fetch_add::<StoreCounter>(&mut member.seat, COUNTER as usize, 1);
    }

    /// Takes the lead where nobody has it. It answers the word that it found: 0, or the number of the
    /// member that leads plus 1.
    pub fn take_lead(&self, member: &mut Member) -> u64
        requires token { IsMemberSeat self.now.table.shared.table_id member.old.number member.old.seat }
        requires may { MayLead (member_of member.old.seat.me.0) }
        ensures token { IsSameSeat member.old.seat member.new.seat }
        ensures number { member.new.number ≡ member.old.number }
        ensures root { member.new.root ≡ member.old.root }
        ensures anchors { member.new.anchors.items ≡ member.old.anchors.items }
        ensures leader { result ≤ MOST_MEMBERS }
        ensures view { member.new.seat.me.0 ≡ views.Member (lead_found result (member_of member.old.seat.me.0)) }
    {
        let own = member.number as u64 + 1;
        self.table
            .shared
            .compare_exchange::<TakeLead>(&mut member.seat, LEAD as usize, 0, own)
    }

    /// Gives up the lead.
    pub fn drop_lead(&self, member: &mut Member)
        requires token { IsMemberSeat self.now.table.shared.table_id member.old.number member.old.seat }
        requires may { IsLeader (member_of member.old.seat.me.0) }
        ensures token { IsSameSeat member.old.seat member.new.seat }
        ensures number { member.new.number ≡ member.old.number }
        ensures root { member.new.root ≡ member.old.root }
        ensures anchors { member.new.anchors.items ≡ member.old.anchors.items }
        ensures view { member.new.seat.me.0 ≡ views.Member (lead_given (member_of member.old.seat.me.0)) }
    {
        self.table
            .shared
            .store::<DropLead>(&mut member.seat, LEAD as usize, 0);
    }
}
