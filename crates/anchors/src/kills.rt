//! The call by which an instance that is purged ends a process that stands in it.

ghost use Rattle.std.specs.Prelude.{◌≡◌, ◌<◌};
ghost use Rattle.term_core.specs.declared.hold.Kind.TheVariants.{Frame};
ghost use Rattle.marks.specs.Names.{HasAnchor, tells_kill};
ghost use Rattle.shared_words.specs.Processes.{AreCopied};
ghost use Rattle.shared_words.specs.Seats.{IsMemberSeat, IsSameSeat};
ghost use Rattle.anchors.specs.Holds.{view_of, anchors_of, MayRun, HoldsAnchors};
ghost use Rattle.anchors.specs.Drops.{IsDoomed, HasKilled};

use crate::places::frame_anchor;
use shared_words::{Member, Served, Shared};
use term_core::AreaRef;

/// Tells by one store that a doomed instance, in which a process of the member has a frame, killed the
/// process: the anchor that named the instance names nothing from now on, and tells of the kill.
///
/// Source: Erlang/OTP, the manual page of the module code (check_process_code, purge); anchors are this
/// project's own.
#[tactic(auto, using(crate::proofs::Stored::seat_still, crate::proofs::Killing::kill_may, crate::proofs::Killing::killed_now, crate::proofs::Killing::kill_told))]
pub fn kill<N: Served>(shared: &Shared<N>, member: &mut Member, process: u32, area: AreaRef)
    // the process is the member's, which may make a turn of it
    requires token { IsMemberSeat shared.now.table.shared.table_id member.old.number member.old.seat }
    requires copied { AreCopied member.old.anchors.items (view_of member.old) }
    requires run { MayRun shared.now.table.shared.key process (view_of member.old) }
    // the instance has a frame of it, and is doomed
    requires named { HoldsAnchors Frame (anchors_of (view_of member.old) process) area.serial }
    requires doomed { IsDoomed area.serial (view_of member.old) }
    // the token is as it was
    ensures token { IsMemberSeat shared.now.table.shared.table_id member.new.number member.new.seat }
    ensures same { IsSameSeat member.old.seat member.new.seat }
    ensures number { member.new.number ≡ member.old.number }
    ensures root { member.new.root ≡ member.old.root }
    ensures copied { AreCopied member.new.anchors.items (view_of member.new) }
    // the kill is told by one store
    ensures killed { HasKilled process area.serial (view_of member.old) (view_of member.new) }
    ensures told { 0 < area.serial → HasAnchor tells_kill (anchors_of (view_of member.new) process) area.serial }
{
    if let Some(place) = frame_anchor(member, process, area.serial) {
        let word = member.anchor(process, place);
        shared.store_slot(member, process, place, word - word % 4);
    }
}
