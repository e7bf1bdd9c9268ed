//! Where in a slot an area stands.

ghost use Rattle.std.specs.Prelude.{◌≡◌, ◌<◌, IfSome};
ghost use Rattle.shared_words.specs.declared.table.TheConstants.{PROCESSES};
ghost use Rattle.shared_words.specs.Processes.{AreCopied};
ghost use Rattle.term_core.specs.declared.hold.Kind.TheVariants.{Frame};
ghost use Rattle.anchors.specs.Holds.{view_of, anchors_of, StandsAt, StandsNowhere, IsFreeAt, HasNoFree, IsPlaceFor, HasNoPlace, HoldsAnchors};
ghost use Rattle.anchors.specs.Drops.{IsFrameAt};

use shared_words::{ANCHORS, Member};

/// The place, counted from 1, of the anchor that is of this area, if one is.
pub fn anchor_of(member: &Member, process: u32, serial: u64) -> Option<u32>
    requires copied { AreCopied member.now.anchors.items (view_of member.now) }
    requires process { process < PROCESSES }
    ensures found { IfSome result (λ place. StandsAt (anchors_of (view_of member.now) process) serial place) }
    ensures none { result ≡ None → StandsNowhere (anchors_of (view_of member.now) process) serial }
{
    for place in 1..ANCHORS + 1 {
        let word = member.anchor(process, place);
        if word != 0 && word / 4 == serial {
            return Some(place);
        }
    }
    None
}

/// The place, counted from 1, of an anchor that names nothing and tells nothing, if one is.
pub fn free_anchor(member: &Member, process: u32) -> Option<u32>
    requires copied { AreCopied member.now.anchors.items (view_of member.now) }
    requires process { process < PROCESSES }
    ensures found { IfSome result (λ place. IsFreeAt (anchors_of (view_of member.now) process) place) }
    ensures none { result ≡ None → HasNoFree (anchors_of (view_of member.now) process) }
{
    for place in 1..ANCHORS + 1 {
        if member.anchor(process, place) == 0 {
            return Some(place);
        }
    }
    None
}

/// The place, counted from 1, of the anchor that is of this area, or else of one that is free.
pub fn place_for(member: &Member, process: u32, serial: u64) -> Option<u32>
    requires copied { AreCopied member.now.anchors.items (view_of member.now) }
    requires process { process < PROCESSES }
    ensures found { IfSome result (λ place. IsPlaceFor (anchors_of (view_of member.now) process) serial place) }
    ensures none { result ≡ None → HasNoPlace (anchors_of (view_of member.now) process) serial }
{
    match anchor_of(member, process, serial) {
        Some(place) => Some(place),
        None => free_anchor(member, process),
    }
}

/// The place, counted from 1, of an anchor that names the area for a frame, if one does.
pub fn frame_anchor(member: &Member, process: u32, serial: u64) -> Option<u32>
    requires copied { AreCopied member.now.anchors.items (view_of member.now) }
    requires process { process < PROCESSES }
    ensures found { IfSome result (λ place. IsFrameAt (anchors_of (view_of member.now) process) serial place) }
    ensures none { result ≡ None → HoldsAnchors Frame (anchors_of (view_of member.now) process) serial → ⊥ }
{
    for place in 1..ANCHORS + 1 {
        let word = member.anchor(process, place);
        if word % 2 == 1 && word / 4 == serial {
            return Some(place);
        }
    }
    None
}
