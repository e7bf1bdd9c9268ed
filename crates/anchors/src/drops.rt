//! The call by which a process names an area no more.

ghost use Rattle.std.specs.Prelude.{◌≡◌, ◌≤◌};
ghost use Rattle.shared_words.specs.declared.table.TheConstants.{ANCHORS};
ghost use Rattle.shared_words.specs.Processes.{AreCopied};
ghost use Rattle.shared_words.specs.Seats.{IsMemberSeat, IsSameSeat};
ghost use Rattle.anchors.specs.Holds.{view_of, anchors_of, MayRun, HoldsAnchors};
ghost use Rattle.anchors.specs.Drops.{IsWordWithout, HasDroppedAt, HasDropped};

use shared_words::{ANCHORS, Member, Served, Shared};
use term_core::{AreaRef, Kind};

/// The word of an anchor, with the area named in it for this kind no more.
fn word_without(word: u64, serial: u64, kind: Kind) -> u64
    ensures { IsWordWithout word serial kind result }
{
    if word / 4 != serial {
        return word;
    }
    match kind {
        Kind::Frame if word % 4 == 1 => 0,
        Kind::Frame if word % 4 == 3 => word - 1,
        Kind::Literal if word % 4 == 2 => 0,
        Kind::Literal if word % 4 == 3 => word - 2,
        _ => word,
    }
}

/// Names the area for this kind no more in the anchor at this place, where it did.
#[tactic(auto, using(crate::proofs::Stored::seat_still, crate::proofs::Dropping::drop_may, crate::proofs::Dropping::dropped_now, crate::proofs::Dropping::dropped_none))]
fn drop_at<N: Served>(
    shared: &Shared<N>,
    member: &mut Member,
    process: u32,
    place: u32,
    serial: u64,
    kind: Kind,
)
    requires token { IsMemberSeat shared.now.table.shared.table_id member.old.number member.old.seat }
    requires copied { AreCopied member.old.anchors.items (view_of member.old) }
    requires run { MayRun shared.now.table.shared.key process (view_of member.old) }
    requires place { (1 ≤ place) × (place ≤ ANCHORS) }
    ensures token { IsMemberSeat shared.now.table.shared.table_id member.new.number member.new.seat }
    ensures same { IsSameSeat member.old.seat member.new.seat }
    ensures number { member.new.number ≡ member.old.number }
    ensures root { member.new.root ≡ member.old.root }
    ensures copied { AreCopied member.new.anchors.items (view_of member.new) }
    ensures dropped { HasDroppedAt process kind serial place (view_of member.old) (view_of member.new) }
{
    let word = member.anchor(process, place);
    let rest = word_without(word, serial, kind);
    if rest != word {
        shared.store_slot(member, process, place, rest);
    }
}

/// Names an area that a process of the member names, for a frame or for a literal, for that no more.
///
/// Source: Erlang/OTP, the manual pages of the module code (check_process_code) and of persistent_term;
/// anchors are this project's own.
pub fn drop_hold<N: Served>(
    shared: &Shared<N>,
    member: &mut Member,
    process: u32,
    area: AreaRef,
    kind: Kind,
)
    requires token { IsMemberSeat shared.now.table.shared.table_id member.old.number member.old.seat }
    requires copied { AreCopied member.old.anchors.items (view_of member.old) }
    requires run { MayRun shared.now.table.shared.key process (view_of member.old) }
    requires held { HoldsAnchors kind (anchors_of (view_of member.old) process) area.serial }
    ensures token { IsMemberSeat shared.now.table.shared.table_id member.new.number member.new.seat }
    ensures same { IsSameSeat member.old.seat member.new.seat }
    ensures number { member.new.number ≡ member.old.number }
    ensures root { member.new.root ≡ member.old.root }
    ensures copied { AreCopied member.new.anchors.items (view_of member.new) }
    ensures dropped { HasDropped process kind area.serial (view_of member.old) (view_of member.new) }
{
    for place in 1..ANCHORS + 1 {
        drop_at(shared, member, process, place, area.serial, kind);
    }
}
