//! The slot of a process, all from one thread. The expected values are those of the rules: a slot has
//! 16 anchors, an anchor is four times the serial of its area, with 1 for a frame and 2 for a literal,
//! and a killed one is four times the serial alone.

ghost use Rattle.std.specs.Prelude.{◌≡◌, ◌≤◌, true};
ghost use Rattle.term_core.specs.declared.hold.Kind.TheVariants as kinds;
ghost use Rattle.shared_words.specs.Making.{IsHanding, IsMemberBegun};
ghost use Rattle.shared_words.specs.Publishing.{with_next};
ghost use Rattle.progress_words.specs.Tokens.{view_of, written_by, IsMemberOf, IsWriterOf};
ghost use Rattle.anchors.specs.Holds.{anchors_of, HoldsAnchors};
ghost use Rattle.area_tests.specs.Many.{many_published, IsPrepared};
ghost use Rattle.area_tests.specs.Work.{IsPlaying};

use crate::starting::begin_work;
use crate::tables::{Any, last_words};
use anchors::{drop_hold, hold, kill, mark_turn};
use shared_words::{Member, Next, Parts, Shared, Writer};
use std::alloc::Global;
use std::test::Fail;
use term_core::{AreaRef, Full, Kind, NoMemory, WordList};

/// The generation of seventeen instances.
struct Many;

impl Next for Many {
    ghost use Rattle.area_tests.specs.Many.{many_published};

    ghost next = { many_published };
}

/// The doom word of block 24.
const DOOM_WORD: u32 = 1_453;

/// Publishes the generation of seventeen instances.
#[tactic(auto, using(crate::proofs::Many::may_publish_many, crate::proofs::Many::many_root))]
fn publish_many(shared: &Shared<Any>, writer: &mut Writer)
    requires token { IsWriterOf shared.now.table.shared.table_id shared.now.table.shared.key writer.old }
    requires prepared { IsPrepared (written_by writer.old) }
    requires room { writer.old.generation ≡ 0 }
    ensures token { IsWriterOf shared.now.table.shared.table_id shared.now.table.shared.key writer.new }
    ensures published { written_by writer.new ≡ with_next many_published (written_by writer.old) }
{
    shared.store_root::<Many>(writer, 0, 0, 0);
}

/// Holds an instance for a frame, where the slot has room.
#[tactic(auto, using(crate::proofs::Work::held_plays, crate::proofs::Work::held_names, crate::proofs::Work::refused_plays, crate::proofs::Naming::may_frame))]
fn hold_frame(shared: &Shared<Any>, member: &mut Member, serial: u64) -> bool
    requires plays { IsPlaying shared.now.table.shared.table_id shared.now.table.shared.key 0 many_published member.old }
    requires serial { (1 ≤ serial) × (serial ≤ 17) }
    ensures plays { IsPlaying shared.now.table.shared.table_id shared.now.table.shared.key 0 many_published member.new }
    ensures holds { result ≡ true → HoldsAnchors kinds.Frame (anchors_of (view_of member.new) 0) serial }
{
    match hold(shared, member, 0, AreaRef { serial, block: 0 }, Kind::Frame) {
        Ok(()) => true,
        Err(Full) => false,
    }
}

/// Holds an instance, which it names for a frame, for a literal too.
#[tactic(auto, using(crate::proofs::Work::held_plays, crate::proofs::Work::held_names, crate::proofs::Work::refused_plays, crate::proofs::Naming::may_literal, crate::proofs::Naming::still_frame))]
fn hold_literal(shared: &Shared<Any>, member: &mut Member, serial: u64) -> bool
    requires plays { IsPlaying shared.now.table.shared.table_id shared.now.table.shared.key 0 many_published member.old }
    requires serial { serial ≤ 17 }
    requires held { HoldsAnchors kinds.Frame (anchors_of (view_of member.old) 0) serial }
    ensures plays { IsPlaying shared.now.table.shared.table_id shared.now.table.shared.key 0 many_published member.new }
    ensures frame { result ≡ true → HoldsAnchors kinds.Frame (anchors_of (view_of member.new) 0) serial }
    ensures literal { result ≡ true → HoldsAnchors kinds.Literal (anchors_of (view_of member.new) 0) serial }
{
    match hold(
        shared,
        member,
        0,
        AreaRef { serial, block: 0 },
        Kind::Literal,
    ) {
        Ok(()) => true,
        Err(Full) => false,
    }
}

/// Holds an instance for a frame and then for a literal.
fn hold_both(shared: &Shared<Any>, member: &mut Member, serial: u64) -> bool
    requires plays { IsPlaying shared.now.table.shared.table_id shared.now.table.shared.key 0 many_published member.old }
    requires serial { (1 ≤ serial) × (serial ≤ 17) }
    ensures plays { IsPlaying shared.now.table.shared.table_id shared.now.table.shared.key 0 many_published member.new }
    ensures frame { result ≡ true → HoldsAnchors kinds.Frame (anchors_of (view_of member.new) 0) serial }
    ensures literal { result ≡ true → HoldsAnchors kinds.Literal (anchors_of (view_of member.new) 0) serial }
{
    if hold_frame(shared, member, serial) {
        hold_literal(shared, member, serial)
    } else {
        false
    }
}

/// Names an instance for a frame no more.
#[tactic(auto, using(crate::proofs::Work::dropped_plays, crate::proofs::Naming::literal_left))]
fn drop_frame(shared: &Shared<Any>, member: &mut Member, serial: u64)
    requires plays { IsPlaying shared.now.table.shared.table_id shared.now.table.shared.key 0 many_published member.old }
    requires frame { HoldsAnchors kinds.Frame (anchors_of (view_of member.old) 0) serial }
    requires literal { HoldsAnchors kinds.Literal (anchors_of (view_of member.old) 0) serial }
    ensures plays { IsPlaying shared.now.table.shared.table_id shared.now.table.shared.key 0 many_published member.new }
    ensures literal { HoldsAnchors kinds.Literal (anchors_of (view_of member.new) 0) serial }
{
    drop_hold(shared, member, 0, AreaRef { serial, block: 0 }, Kind::Frame);
}

/// Names an instance for a literal no more.
#[tactic(auto, using(crate::proofs::Work::dropped_plays))]
fn drop_literal(shared: &Shared<Any>, member: &mut Member, serial: u64)
    requires plays { IsPlaying shared.now.table.shared.table_id shared.now.table.shared.key 0 many_published member.old }
    requires literal { HoldsAnchors kinds.Literal (anchors_of (view_of member.old) 0) serial }
    ensures plays { IsPlaying shared.now.table.shared.table_id shared.now.table.shared.key 0 many_published member.new }
{
    drop_hold(
        shared,
        member,
        0,
        AreaRef { serial, block: 0 },
        Kind::Literal,
    );
}

/// Names an instance no more, for neither kind.
fn drop_both(shared: &Shared<Any>, member: &mut Member, serial: u64) -> bool
    requires plays { IsPlaying shared.now.table.shared.table_id shared.now.table.shared.key 0 many_published member.old }
    requires serial { (1 ≤ serial) × (serial ≤ 17) }
    ensures plays { IsPlaying shared.now.table.shared.table_id shared.now.table.shared.key 0 many_published member.new }
{
    let both = hold_both(shared, member, serial);
    if both {
        drop_frame(shared, member, serial);
        drop_literal(shared, member, serial);
    }
    both
}

/// The sixteenth instance, which is doomed, kills the process, which then ends its turn.
#[tactic(auto, using(crate::proofs::Work::killed_ends, crate::proofs::Work::killed_turns, crate::proofs::Naming::doomed_many, crate::proofs::Naming::next_mark))]
fn end_killed(shared: &Shared<Any>, member: &mut Member) -> bool
    requires plays { IsPlaying shared.now.table.shared.table_id shared.now.table.shared.key 0 many_published member.old }
    ensures token { IsMemberOf shared.now.table.shared.table_id member.new }
    ensures number { member.new.number ≡ member.old.number }
{
    let held = hold_frame(shared, member, 16);
    if held {
        kill(
            shared,
            member,
            0,
            AreaRef {
                serial: 16,
                block: 0,
            },
        );
        mark_turn(shared, member, 0, 1);
    }
    held
}

/// Holds the first so many instances for frames; answers how many found room.
fn hold_first(shared: &Shared<Any>, member: &mut Member, count: u64) -> u64
    requires plays { IsPlaying shared.now.table.shared.table_id shared.now.table.shared.key 0 many_published member.old }
    requires few { count ≤ 17 }
    ensures plays { IsPlaying shared.now.table.shared.table_id shared.now.table.shared.key 0 many_published member.new }
{
    let mut held = 0;
    for serial in 1..count + 1 {
        if hold_frame(shared, member, serial) {
            held += 1;
        }
    }
    held
}

/// A slot of 16 areas has no room for a seventeenth, and has room for one of the 16 in the other kind.
fn fill_slot(shared: &Shared<Any>, member: &mut Member) -> [bool; 7]
    requires plays { IsPlaying shared.now.table.shared.table_id shared.now.table.shared.key 0 many_published member.old }
    ensures token { IsMemberOf shared.now.table.shared.table_id member.new }
    ensures number { member.new.number ≡ member.old.number }
{
    let all = hold_first(shared, member, 16) == 16;
    let seventeenth = hold_frame(shared, member, 17);
    let again = hold_frame(shared, member, 1);
    let other = hold_both(shared, member, 1);
    let dropped = drop_both(shared, member, 1);
    let room = hold_frame(shared, member, 17);
    let killed = end_killed(shared, member);
    [all, seventeenth, again, other, dropped, room, killed]
}

/// Publishes the generation, has the process begin, and fills its slot.
#[tactic(auto, using(crate::proofs::Many::may_doom_begun, crate::proofs::Many::prepared, crate::proofs::Many::may_note, crate::proofs::Many::two_published, crate::proofs::Many::plays_many, crate::proofs::Many::begun_zero, new_tables::proofs::Begun::of_begun, new_tables::proofs::Begun::view_begun, new_tables::proofs::Begun::copied_begun))]
fn begin_and_fill(shared: &Shared<Any>, writer: &mut Writer, member: &mut Member) -> [bool; 7]
    requires token { IsWriterOf shared.now.table.shared.table_id shared.now.table.shared.key writer.old }
    requires handing { IsHanding shared.now.table.shared.table_id shared.now.table.shared.key 1 writer.old.seat }
    requires begun { IsMemberBegun shared.now.table.shared.table_id 0 member.old }
    requires one { shared.now.table.shared.key.members ≡ 1 }
    ensures writer { IsWriterOf shared.now.table.shared.table_id shared.now.table.shared.key writer.new }
    ensures token { IsMemberOf shared.now.table.shared.table_id member.new }
    ensures number { member.new.number ≡ member.old.number }
{
    shared.store_word(writer, DOOM_WORD, 1);
    publish_many(shared, writer);
    if begin_work(shared, writer, member, 0) {
        fill_slot(shared, member)
    } else {
        [false; 7]
    }
}

/// What each call answers over a new table, and its words at the end.
fn fill_new(alloc: Global) -> Result<Option<([bool; 7], WordList)>, NoMemory> {
    let (shared, parts) = Shared::<Any>::new(alloc, 1, 0)?;
    let Parts {
        mut writer,
        mut members,
        watchers,
    } = parts;
    let Some(mut member) = members.pop() else {
        return Ok(None);
    };
    let answers = begin_and_fill(&shared, &mut writer, &mut member);
    members.push(member)?;
    let parts = Parts {
        writer,
        members,
        watchers,
    };
    let words = last_words(alloc, shared, parts)?;
    Ok(Some((answers, words)))
}

/// A slot that is full: what each call answers, and the words of the slot when the table is closed.
#[test]
fn a_slot_holds_sixteen_areas(rt: HostRuntime) -> Result<(), Fail> {
    let Some(filled) = fill_new(rt.alloc())? else {
        assert!(rt; false, "there is a member");
        return Ok(());
    };
    let answers = filled.0;
    let words = filled.1;
    assert_eq!(rt; answers, [true, false, true, true, true, true, true]);
    let slot = [
        1, 69, 9, 13, 17, 21, 25, 29, 33, 37, 41, 45, 49, 53, 57, 61, 64,
    ];
    for place in 0..17 {
        let expected = slot[place];
        assert_eq!(rt;
            words.get(place + 21).copied(),
            Some(expected),
            "at {place}"
        );
    }
    Ok(())
}
