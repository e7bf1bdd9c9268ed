//! A member whose process holds and drops three areas at random, turn by turn.

ghost use Rattle.std.specs.Prelude.{◌≡◌, ◌+◌, ◌<◌, ◌^◌, true};
ghost use Rattle.area_core.specs.Generations.{is_current};
ghost use Rattle.shared_words.specs.declared.table.TheConstants.{PROCESSES};
ghost use Rattle.shared_words.specs.Processes.{AreCopied};
ghost use Rattle.progress_words.specs.Tokens.{view_of, IsMemberOf};
ghost use Rattle.anchors.specs.Holds.{anchors_of, names_for, HoldsAnchors, MayHold};
ghost use Rattle.area_tests.specs.Several.{three_published};
ghost use Rattle.area_tests.specs.Work.{IsWorking, IsPlaying, IsUnder, GoesOn, HasEndedTurn, turns_done};
ghost use Rattle.area_tests.specs.declared.players.TheConstants.{EARLY, TURNS};

use crate::several::{AREAS, area_of};
use crate::tables::Any;
use anchors::{drop_hold, hold, mark_turn};
use progress_words::{report, wait};
use shared_words::{ANCHORS, Member, Shared};
use term_core::{AreaRef, Full, Kind};

/// How many turns a process makes before its member's next report.
pub const EARLY: u32 = 5_000;

/// How many turns it makes in all, but for the last one, in which it drops all.
pub const TURNS: u32 = 20_000;

/// Whether the word of an anchor names the area for the kind.
fn names(word: u64, serial: u64, kind: Kind) -> bool
    ensures { result ≡ names_for kind word serial }
{
    match kind {
        Kind::Frame => word % 2 == 1 && word / 4 == serial,
        Kind::Literal => 2 <= word % 4 && word / 4 == serial,
    }
}

/// Whether the slot names the area for the kind.
fn names_area(member: &Member, process: u32, serial: u64, kind: Kind) -> bool
    requires copied { AreCopied member.now.anchors.items (view_of member.now) }
    requires process { process < PROCESSES }
    ensures { result ≡ true → HoldsAnchors kind (anchors_of (view_of member.now) process) serial }
{
    for place in 1..ANCHORS + 1 {
        if names(member.anchor(process, place), serial, kind) {
            return true;
        }
    }
    false
}

/// Holds the area.
#[tactic(auto, using(crate::proofs::Work::held_goes, crate::proofs::Work::refused_goes))]
fn hold_one(shared: &Shared<Any>, member: &mut Member, process: u32, area: AreaRef, kind: Kind)
    requires works { IsWorking shared.now.table.shared.table_id shared.now.table.shared.key process member.old }
    requires room { area.serial < 2 ^ 62 }
    requires may { MayHold process kind area.serial (view_of member.old) }
    ensures { GoesOn shared.now.table.shared.table_id shared.now.table.shared.key process member.old member.new }
{
    match hold(shared, member, process, area, kind) {
        Ok(()) => {}
        Err(Full) => {}
    }
}

/// Drops the area, if the slot names it for the kind.
#[tactic(auto, using(crate::proofs::Work::dropped_goes, crate::proofs::Playing::none_goes))]
fn try_drop(shared: &Shared<Any>, member: &mut Member, process: u32, area: AreaRef, kind: Kind)
    requires works { IsWorking shared.now.table.shared.table_id shared.now.table.shared.key process member.old }
    ensures { GoesOn shared.now.table.shared.table_id shared.now.table.shared.key process member.old member.new }
{
    if names_area(member, process, area.serial, kind) {
        drop_hold(shared, member, process, area, kind);
    }
}

/// Holds the area for a frame, where the member holds the first generation.
#[tactic(auto, using(crate::proofs::Playing::may_first, crate::proofs::Playing::none_goes))]
fn try_frame(shared: &Shared<Any>, member: &mut Member, process: u32, area: AreaRef, early: bool)
    requires works { IsWorking shared.now.table.shared.table_id shared.now.table.shared.key process member.old }
    requires room { area.serial < 2 ^ 62 }
    requires current { is_current three_published area.serial ≡ true }
    requires under { early ≡ true → IsUnder three_published (view_of member.old) }
    ensures { GoesOn shared.now.table.shared.table_id shared.now.table.shared.key process member.old member.new }
{
    if early {
        hold_one(shared, member, process, area, Kind::Frame);
    }
}

/// Holds the area for a literal, where the slot names it for a frame.
#[tactic(auto, using(crate::proofs::Naming::may_literal, crate::proofs::Playing::none_goes))]
fn try_literal(shared: &Shared<Any>, member: &mut Member, process: u32, area: AreaRef)
    requires works { IsWorking shared.now.table.shared.table_id shared.now.table.shared.key process member.old }
    requires room { area.serial < 2 ^ 62 }
    ensures { GoesOn shared.now.table.shared.table_id shared.now.table.shared.key process member.old member.new }
{
    if names_area(member, process, area.serial, Kind::Frame) {
        hold_one(shared, member, process, area, Kind::Literal);
    }
}

/// One hold or drop of one of the areas.
#[tactic(auto, using(crate::proofs::Playing::current_one, crate::proofs::Playing::room_one))]
fn choose(shared: &Shared<Any>, member: &mut Member, process: u32, choice: u32, early: bool)
    requires works { IsWorking shared.now.table.shared.table_id shared.now.table.shared.key process member.old }
    requires under { early ≡ true → IsUnder three_published (view_of member.old) }
    ensures { GoesOn shared.now.table.shared.table_id shared.now.table.shared.key process member.old member.new }
{
    let area = area_of(choice / 4 % AREAS);
    match choice % 4 {
        0 => try_frame(shared, member, process, area, early),
        1 => try_literal(shared, member, process, area),
        2 => try_drop(shared, member, process, area, Kind::Literal),
        _ => try_drop(shared, member, process, area, Kind::Frame),
    }
}

/// Ends the turn after so many.
#[tactic(auto, using(crate::proofs::Playing::turn_ended, crate::proofs::Playing::next_turn))]
fn end_turn(shared: &Shared<Any>, member: &mut Member, process: u32, done: u32)
    requires works { IsWorking shared.now.table.shared.table_id shared.now.table.shared.key process member.old }
    requires turns { turns_done process (view_of member.old) ≡ done }
    requires few { done < 30000 }
    ensures { HasEndedTurn shared.now.table.shared.table_id shared.now.table.shared.key process member.old member.new }
{
    mark_turn(shared, member, process, done + 1);
}

/// A turn with one hold or drop.
#[tactic(auto, using(crate::proofs::Playing::turn_after))]
fn play_turn(
    shared: &Shared<Any>,
    member: &mut Member,
    process: u32,
    choice: u32,
    done: u32,
    early: bool,
)
    requires works { IsWorking shared.now.table.shared.table_id shared.now.table.shared.key process member.old }
    requires under { early ≡ true → IsUnder three_published (view_of member.old) }
    requires turns { turns_done process (view_of member.old) ≡ done }
    requires few { done < 30000 }
    ensures { HasEndedTurn shared.now.table.shared.table_id shared.now.table.shared.key process member.old member.new }
{
    choose(shared, member, process, choice, early);
    end_turn(shared, member, process, done);
}

/// A turn, and then a report.
#[tactic(auto, using(crate::proofs::Playing::rests_now, crate::proofs::Playing::reported_works, crate::proofs::Playing::reported_turns))]
fn play_late_turn(shared: &Shared<Any>, member: &mut Member, process: u32, choice: u32, done: u32)
    requires works { IsWorking shared.now.table.shared.table_id shared.now.table.shared.key process member.old }
    requires turns { turns_done process (view_of member.old) ≡ done }
    requires few { done < 30000 }
    ensures works { IsWorking shared.now.table.shared.table_id shared.now.table.shared.key process member.new }
    ensures turns { turns_done process (view_of member.new) ≡ done + 1 }
    ensures number { member.new.number ≡ member.old.number }
{
    play_turn(shared, member, process, choice, done, false);
    report(shared, member);
}

/// The next of a row of numbers that look random.
fn next_random(seed: u32) -> u32 {
    seed.wrapping_mul(1_664_525).wrapping_add(1_013_904_223)
}

/// The turns under the first generation.
#[tactic(auto, using(crate::proofs::Playing::one_more))]
fn play_early(shared: &Shared<Any>, member: &mut Member, process: u32)
    requires works { IsWorking shared.now.table.shared.table_id shared.now.table.shared.key process member.old }
    requires under { IsUnder three_published (view_of member.old) }
    requires turns { turns_done process (view_of member.old) ≡ 0 }
    ensures works { IsWorking shared.now.table.shared.table_id shared.now.table.shared.key process member.new }
    ensures turns { turns_done process (view_of member.new) ≡ EARLY }
    ensures number { member.new.number ≡ member.old.number }
{
    let mut seed = process;
    for done in 0..EARLY {
        seed = next_random(seed);
        play_turn(shared, member, process, seed / 65_536, done, true);
    }
}

/// The turns of a member that reports after each.
fn play_late(shared: &Shared<Any>, member: &mut Member, process: u32)
    requires works { IsWorking shared.now.table.shared.table_id shared.now.table.shared.key process member.old }
    requires turns { turns_done process (view_of member.old) ≡ EARLY }
    ensures works { IsWorking shared.now.table.shared.table_id shared.now.table.shared.key process member.new }
    ensures turns { turns_done process (view_of member.new) ≡ TURNS }
    ensures number { member.new.number ≡ member.old.number }
{
    let mut seed = process + 17;
    for done in EARLY..TURNS {
        seed = next_random(seed);
        play_late_turn(shared, member, process, seed / 65_536, done);
    }
}

/// The last turn, in which all is dropped; the member then waits.
#[tactic(auto, using(crate::proofs::Playing::may_rest, crate::proofs::Playing::turns_left))]
fn play_last(shared: &Shared<Any>, member: &mut Member, process: u32)
    requires works { IsWorking shared.now.table.shared.table_id shared.now.table.shared.key process member.old }
    requires turns { turns_done process (view_of member.old) ≡ TURNS }
    ensures token { IsMemberOf shared.now.table.shared.table_id member.new }
    ensures number { member.new.number ≡ member.old.number }
{
    drop_all(shared, member, process);
    end_turn(shared, member, process, TURNS);
    wait(shared, member);
}

/// Drops all areas in both kinds.
#[tactic(auto, using(crate::proofs::Playing::none_goes, crate::proofs::Playing::goes_again))]
fn drop_all(shared: &Shared<Any>, member: &mut Member, process: u32)
    requires works { IsWorking shared.now.table.shared.table_id shared.now.table.shared.key process member.old }
    ensures { GoesOn shared.now.table.shared.table_id shared.now.table.shared.key process member.old member.new }
{
    for at in 0..AREAS {
        drop_both(shared, member, process, area_of(at));
    }
}

/// Drops the area in both kinds.
#[tactic(auto, using(crate::proofs::Playing::goes_again))]
fn drop_both(shared: &Shared<Any>, member: &mut Member, process: u32, area: AreaRef)
    requires works { IsWorking shared.now.table.shared.table_id shared.now.table.shared.key process member.old }
    ensures { GoesOn shared.now.table.shared.table_id shared.now.table.shared.key process member.old member.new }
{
    try_drop(shared, member, process, area, Kind::Literal);
    drop_frame(shared, member, process, area);
}

/// Drops the area for a frame.
fn drop_frame(shared: &Shared<Any>, member: &mut Member, process: u32, area: AreaRef)
    requires works { IsWorking shared.now.table.shared.table_id shared.now.table.shared.key process member.old }
    ensures { GoesOn shared.now.table.shared.table_id shared.now.table.shared.key process member.old member.new }
{
    try_drop(shared, member, process, area, Kind::Frame);
}

/// All turns of a process.
pub fn play(shared: &Shared<Any>, mut member: Member, process: u32) -> Member
    requires playing { IsPlaying shared.now.table.shared.table_id shared.now.table.shared.key process three_published member }
    ensures token { IsMemberOf shared.now.table.shared.table_id result }
    ensures number { result.number ≡ member.number }
{
    play_early(shared, &mut member, process);
    play_late(shared, &mut member, process);
    play_last(shared, &mut member, process);
    member
}
