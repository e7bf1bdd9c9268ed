//! The call by which a turn of a process ends.

ghost use Rattle.std.specs.Prelude.{◌≡◌};
ghost use Rattle.shared_words.specs.Processes.{AreCopied};
ghost use Rattle.shared_words.specs.Seats.{IsMemberSeat, IsSameSeat};
ghost use Rattle.shared_words.specs.Slots.{with_slot};
ghost use Rattle.anchors.specs.Holds.{view_of, MayRun};
ghost use Rattle.anchors.specs.Turns.{MayMark};

use shared_words::{Member, Served, Shared};

/// Ends a turn of a process of the member: stores how many turns it has done, with which the mark of the
/// turn joins, the generation that the member holds with what the slot names. The number is one more than
/// there are marks; it ends to rise at the end of a `u32`, and a process whose slot names nothing goes on
/// beyond it.
///
/// Source: Erlang/OTP, the manual page of the module code (check_process_code); turn words are this
/// project's own.
#[tactic(auto, using(crate::proofs::Stored::seat_still))]
pub fn mark_turn<N: Served>(shared: &Shared<N>, member: &mut Member, process: u32, turns: u32)
    requires token { IsMemberSeat shared.now.table.shared.table_id member.old.number member.old.seat }
    requires copied { AreCopied member.old.anchors.items (view_of member.old) }
    requires run { MayRun shared.now.table.shared.key process (view_of member.old) }
    requires may { MayMark process turns (view_of member.old) }
    ensures token { IsMemberSeat shared.now.table.shared.table_id member.new.number member.new.seat }
    ensures same { IsSameSeat member.old.seat member.new.seat }
    ensures number { member.new.number ≡ member.old.number }
    ensures root { member.new.root ≡ member.old.root }
    ensures copied { AreCopied member.new.anchors.items (view_of member.new) }
    ensures view { view_of member.new ≡ with_slot process 0 turns (view_of member.old) }
{
    shared.store_slot(member, process, 0, u64::from(turns));
}
