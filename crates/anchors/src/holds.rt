//! The calls by which a process names areas, and names them no more.

ghost use Rattle.std.specs.Prelude.{◌≡◌, ◌^◌, ◌<◌, OnErr, OnOk};
ghost use Rattle.shared_words.specs.Processes.{AreCopied};
ghost use Rattle.shared_words.specs.Seats.{IsMemberSeat, IsSameSeat};
ghost use Rattle.anchors.specs.Holds.{view_of, anchors_of, MayRun, IsUnkilled, MayHold, AreOthers, HasHeld, IsNamedWord, IsPlaceFor};

use crate::places::place_for;
use shared_words::{Member, Served, Shared};
use term_core::{AreaRef, Full, Kind};

/// The word of an anchor of this area, or of one that is 0, with one more kind named.
fn named_word(word: u64, serial: u64, kind: Kind) -> u64
    requires room { serial < 2 ^ 62 }
    ensures { IsNamedWord word serial kind result }
{
    let kinds = word % 4;
    let named = match kind {
        Kind::Frame if kinds % 2 == 0 => kinds + 1,
        Kind::Literal if kinds < 2 => kinds + 2,
        _ => kinds,
    };
    serial * 4 + named
}

/// Names an area in the anchor at this place, where it does not yet.
#[tactic(auto, using(crate::proofs::Stored::seat_still, crate::proofs::Holding::hold_may, crate::proofs::Holding::held_now, crate::proofs::Holding::held_before))]
fn name_at<N: Served>(
    shared: &Shared<N>,
    member: &mut Member,
    process: u32,
    place: u32,
    serial: u64,
    kind: Kind,
)
    // the process is the member's, which may make a turn of it
    requires token { IsMemberSeat shared.now.table.shared.table_id member.old.number member.old.seat }
    requires copied { AreCopied member.old.anchors.items (view_of member.old) }
    requires run { MayRun shared.now.table.shared.key process (view_of member.old) }
    // it goes on, and names the area or may reach it
    requires unkilled { IsUnkilled (anchors_of (view_of member.old) process) }
    requires may { MayHold process kind serial (view_of member.old) }
    requires room { serial < 2 ^ 62 }
    // there is room for the area there
    requires place { IsPlaceFor (anchors_of (view_of member.old) process) serial place }
    // the token is as it was
    ensures token { IsMemberSeat shared.now.table.shared.table_id member.new.number member.new.seat }
    ensures same { IsSameSeat member.old.seat member.new.seat }
    ensures number { member.new.number ≡ member.old.number }
    ensures root { member.new.root ≡ member.old.root }
    ensures copied { AreCopied member.new.anchors.items (view_of member.new) }
    // what the process names then
    ensures held { HasHeld process kind serial (view_of member.old) (view_of member.new) }
{
    let word = member.anchor(process, place);
    let named = named_word(word, serial, kind);
    if named != word {
        shared.store_slot(member, process, place, named);
    }
}

/// Names an area for a frame or for a literal in the slot of a process of the member. The process names
/// it already, or may reach it: a current instance for a frame; the area of a key, or an instance of one
/// of its frames, for a literal. `Full` comes exactly where the slot names 16 other areas.
///
/// Source: Erlang/OTP, the manual pages of the module code (check_process_code) and of persistent_term;
/// anchors are this project's own.
#[tactic(auto, using(crate::proofs::Holding::all_others, crate::proofs::Holding::not_others))]
pub fn hold<N: Served>(
    shared: &Shared<N>,
    member: &mut Member,
    process: u32,
    area: AreaRef,
    kind: Kind,
) -> Result<(), Full>
    // the process is the member's, which may make a turn of it
    requires token { IsMemberSeat shared.now.table.shared.table_id member.old.number member.old.seat }
    requires copied { AreCopied member.old.anchors.items (view_of member.old) }
    requires run { MayRun shared.now.table.shared.key process (view_of member.old) }
    // it goes on, and names the area or may reach it
    requires unkilled { IsUnkilled (anchors_of (view_of member.old) process) }
    requires may { MayHold process kind area.serial (view_of member.old) }
    requires room { area.serial < 2 ^ 62 }
    // the token is as it was
    ensures token { IsMemberSeat shared.now.table.shared.table_id member.new.number member.new.seat }
    ensures same { IsSameSeat member.old.seat member.new.seat }
    ensures number { member.new.number ≡ member.old.number }
    ensures root { member.new.root ≡ member.old.root }
    ensures copied { AreCopied member.new.anchors.items (view_of member.new) }
    // what the process names then
    ensures held { OnOk result (HasHeld process kind area.serial (view_of member.old) (view_of member.new)) }
    ensures room { OnOk result (AreOthers (anchors_of (view_of member.old) process) area.serial → ⊥) }
    ensures full { OnErr result (AreOthers (anchors_of (view_of member.old) process) area.serial) }
    ensures unchanged { OnErr result (view_of member.new ≡ view_of member.old) }
{
    match place_for(member, process, area.serial) {
        Some(place) => {
            name_at(shared, member, process, place, area.serial, kind);
            Ok(())
        }
        None => Err(Full),
    }
}
