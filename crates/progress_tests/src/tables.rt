//! Events on a state of blocks and slots, one after another: which are enabled and which are not.

mod steps;

use area_core::*;
use steps::*;

#[test]
fn members_load_the_counter_and_the_root_and_confirm(rt: HostRuntime) {
    let events = [
        (counter(SeatName::Writer), true),
        (counter(SeatName::Member(2)), false),
        (newest(SeatName::Writer), true),
        (newest(SeatName::Member(2)), false),
        (confirm(0, 2), false),
        (counter(READER), true),
        (confirm(0, 2), false),
        (newest(READER), true),
        (confirm(0, 3), false),
        (confirm(2, 2), false),
        (confirm(0, 2), true),
    ];
    assert!(rt; follows(rt.alloc(), &events));
}

#[test]
fn a_leader_raises_the_counter(rt: HostRuntime) {
    let events = [
        (Step::DropLead(1), false),
        (Step::TakeLead(2), false),
        (Step::TakeLead(1), true),
        (Step::TakeLead(0), false),
        (confirmed(0, 1), false),
        (confirmed(1, 2), false),
        (confirmed(1, 0), true),
        (confirmed(1, 1), true),
        (Step::StoreCounter(1), false),
        (delay(1, 1), false),
        (delay(0, 0), false),
        (delay(1, 0), true),
        (Step::StoreCounter(0), false),
        (Step::StoreCounter(1), true),
        (Step::DropLead(1), true),
    ];
    assert!(rt; follows(rt.alloc(), &events));
}

#[test]
fn a_seat_loads_what_its_generation_reads(rt: HostRuntime) {
    let events = [
        (load(SeatName::Writer, INSTANCE), true),
        (load(READER, INSTANCE), false),
        (load(SeatName::Member(2), INSTANCE), false),
        (load(SeatName::Watcher(0), INSTANCE), false),
        (counter(READER), true),
        (newest(READER), true),
        (load(READER, INSTANCE), true),
        (load(READER, RETIRE), true),
        (load(READER, EXPORT), true),
        (load(READER, TERM), false),
        (load(READER, PAST), false),
    ];
    assert!(rt; follows(rt.alloc(), &events));
}

#[test]
fn words_that_are_read_are_not_stored(rt: HostRuntime) {
    let unread = 1493 + 2048;
    let events = [
        (store(unread, 7), true),
        (store(INSTANCE, 1), false),
        (store(EXPORT, 0), false),
        (store(TERM, 5), true),
        // The root, a word of a slot, and a word that there is not.
        (store(0, 0), false),
        (store(21, 0), false),
        (store(PAST, 0), false),
    ];
    assert!(rt; follows(rt.alloc(), &events));
}

#[test]
fn retire_and_doom_words_tell_of_what_is_read(rt: HostRuntime) {
    let events = [
        (store(RETIRE, 1), false),
        (store(RETIRE, 2), true),
        (store(DOOM, 1), false),
        (store(DOOM, 2), true),
        (store(RETIRE, 0), true),
    ];
    assert!(rt; follows(rt.alloc(), &events));
}

#[test]
fn a_slot_newly_names_what_its_process_reaches(rt: HostRuntime) {
    let events = [
        // Member 0 does not read the instance yet.
        (slot(2, 1, 5), false),
        (counter(READER), true),
        (newest(READER), true),
        (slot(2, 1, 5), true),
        // The area stands in one anchor, which may name it for a literal too.
        (slot(2, 2, 6), false),
        (slot(2, 1, 7), true),
        // There is no instance 2.
        (slot(2, 2, 9), false),
        // Process 1 is of the other member, and there is no place 17.
        (slot(1, 1, 0), false),
        (slot(2, 17, 0), false),
        (slot(64, 1, 0), false),
        (slot(2, 0, 1), true),
        (look(2, 16), true),
        (look(2, 17), false),
        (look(64, 0), false),
    ];
    assert!(rt; follows(rt.alloc(), &events));
}

#[test]
fn notes_go_to_processes_and_members(rt: HostRuntime) {
    let events = [
        (Step::SplitNote(63), true),
        (Step::SplitNote(64), false),
        (Step::JoinNote(1), true),
        (Step::JoinNote(2), false),
    ];
    assert!(rt; follows(rt.alloc(), &events));
}

#[test]
fn members_wait_and_enter(rt: HostRuntime) {
    let events = [
        (Step::StoreEntering(1), false),
        (Step::StoreWaiting(1), true),
        (Step::StoreWaiting(1), false),
        (Step::StoreEntering(1), true),
        (Step::StoreWaiting(2), false),
    ];
    assert!(rt; follows(rt.alloc(), &events));
}

#[test]
fn a_watcher_delays_the_counter(rt: HostRuntime) {
    let watcher = SeatName::Watcher(0);
    let events = [
        (newest(SeatName::Watcher(1)), false),
        (newest(watcher), true),
        (add(0, 1), false),
        (counter(watcher), true),
        (add(1, 1), false),
        (add(0, 1), true),
        (subtract(0, 1), false),
        (counter(watcher), true),
        (subtract(0, 1), true),
    ];
    assert!(rt; follows(rt.alloc(), &events));
}

#[test]
fn a_root_stands_for_its_generation(rt: HostRuntime) {
    let events = [
        // Code index 0 does not lead to the instance.
        (root_in(9, 0, 0, false), false),
        // No word tells that the function is traced.
        (root(0, true), false),
        // There is no third breakpoint index.
        (root(2, false), false),
        (root(1, false), true),
    ];
    assert!(rt; follows(rt.alloc(), &events));
}

#[test]
fn an_instance_stands_in_a_block_for_instances(rt: HostRuntime) {
    // Its image stands in block 64, to which the code index leads.
    let events = [(root_in(64, 1, 0, false), false)];
    assert!(rt; follows_staged(rt.alloc(), &events));
}

#[test]
fn a_function_is_patched_by_phases(rt: HostRuntime) {
    // The word of the function in breakpoint index 1, which is staged, and in the active one.
    let decision = 1493 + 4 * 1024;
    let active = 1493 + 3 * 1024;
    let events = [
        (store(active, 1), false),
        (store(decision, 1), true),
        // Too early: a member that reads the new generation would not ask for the decision.
        (root(1, true), false),
        // There is no function 1.
        (entry(1, true), false),
        (entry(0, true), true),
        (root(1, true), true),
    ];
    assert!(rt; follows(rt.alloc(), &events));
}

#[test]
fn bad_patch(rt: HostRuntime) {
    let decision = 1493 + 4 * 1024;
    let events = [
        (store(decision, 1), true),
        (entry(0, true), true),
        (root(1, true), true),
        (counter(READER), true),
        (newest(READER), true),
        // The newest generation traces the function.
        (entry(0, false), false),
        (root(0, false), true),
        // Too early: member 0 still reads the generation before.
        (entry(0, false), false),
        (store(decision, 0), false),
        (counter(READER), true),
        (newest(READER), true),
        (entry(0, false), true),
        (store(decision, 0), true),
    ];
    assert!(rt; follows(rt.alloc(), &events));
}
