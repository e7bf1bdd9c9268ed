//! Lists of events with what becomes of them, from the worked examples of the rules.

ghost use Rattle.std.specs.Prelude.{◌≤◌};

use prgr_core::*;
use std::alloc::Global;

/// What becomes of a list of events.
#[derive(Clone, Copy, Debug, PartialEq, Eq)]
enum Outcome {
    Done {
        events: usize,
        counter: u64,
        generation: u64,
    },
    NotEnabled(u64),
    Refused(u32),
    NoMemory,
}

fn done(events: usize, counter: u64, generation: u64) -> Outcome {
    Outcome::Done {
        events,
        counter,
        generation,
    }
}

/// What becomes of the events under so many members and watchers.
fn replayed(alloc: Global, members: u32, watchers: u32, list: &EventList) -> Outcome
    requires least { 1 ≤ members }
    requires most { members ≤ 16 }
    requires watchers { watchers ≤ 4 }
{
    let mut state = match PrgrState::new(alloc, members, watchers) {
        Ok(state) => state,
        Err(NoMemory) => return Outcome::NoMemory,
    };
    match replay(&mut state, list) {
        Ok(()) => done(list.len(), state.counter(), state.generation()),
        Err(ReplayFault::NotEnabled { index }) => Outcome::NotEnabled(index),
        Err(ReplayFault::NoMemory { .. }) => Outcome::NoMemory,
    }
}

fn outcome_of(alloc: Global, text: &str) -> Outcome {
    match read_events(alloc, text.as_bytes()) {
        Ok(events) if events.members < 1 || 16 < events.members || 4 < events.watchers => {
            Outcome::Refused(0)
        }
        Ok(events) => replayed(alloc, events.members, events.watchers, &events.list),
        Err(EventFault::Syntax { line }) => Outcome::Refused(line),
        Err(EventFault::NoMemory) => Outcome::NoMemory,
    }
}

#[test]
fn lists_of_members_are_replayed(rt: HostRuntime) {
    let cases = [
        (
            "beam progress 1\nmembers 1\nwatchers 0\npublish\nretire\nlead 0\nscan 0 0\nadvance 0\nrelease 1\ngo\n",
            Outcome::NotEnabled(6),
        ),
        (
            "beam progress 1\nmembers 1\nwatchers 0\npublish\nretire\nlead 0\nscan 0 0\nadvance 0\nload_counter 0\nload_root 0\nreport 0\nscan 0 0\nadvance 0\nrelease 1\ngo\n",
            done(11, 3, 1),
        ),
        (
            "beam progress 1\nmembers 2\nwatchers 0\nwait 1\nlead 0\nscan 0 0\nscan 0 1\nenter 1\nload_counter 1\nload_root 1\nadvance 0\nreport 1\ngo\n",
            done(9, 2, 0),
        ),
        (
            "beam progress 1\nmembers 2\nwatchers 0\nwait 1\nlead 0\nscan 0 0\nscan 0 1\nenter 1\nload_counter 1\nload_root 1\nadvance 0\nreport 1\nscan 0 0\nscan 0 1\nadvance 0\ngo\n",
            Outcome::NotEnabled(12),
        ),
    ];
    for (text, wanted) in cases {
        assert_eq!(rt; outcome_of(rt.alloc(), text), wanted, "at {text}");
    }
}

#[test]
fn a_claim_delays_the_second_raise(rt: HostRuntime) {
    let cases = [
        (
            "beam progress 1\nmembers 1\nwatchers 1\nwatch_load 0\nwatch_add 0 1\nwatch_load 0\nwatch_root 0\nlead 0\nscan 0 0\nscan_delay 0\nadvance 0\nload_counter 0\nload_root 0\nreport 0\nscan 0 0\nscan_delay 0\nadvance 0\ngo\n",
            Outcome::NotEnabled(14),
        ),
        (
            "beam progress 1\nmembers 1\nwatchers 1\nwatch_load 0\nwatch_add 0 1\nwatch_load 0\nwatch_root 0\nlead 0\nscan 0 0\nscan_delay 0\nadvance 0\nload_counter 0\nload_root 0\nreport 0\nscan 0 0\nscan_delay 0\nwatch_sub 0 1\nscan_delay 0\nadvance 0\ngo\n",
            done(16, 3, 0),
        ),
        (
            "beam progress 1\nmembers 17\nwatchers 0\ngo\n",
            Outcome::Refused(2),
        ),
    ];
    for (text, wanted) in cases {
        assert_eq!(rt; outcome_of(rt.alloc(), text), wanted, "at {text}");
    }
}

/// What becomes of a load of the counter by watcher 0, and of an event behind it, of so many watchers.
fn behind_a_look(alloc: Global, watchers: u32, event: PrgrEvent) -> Outcome
    requires { watchers ≤ 4 }
{
    let mut list = EventList::new(alloc);
    for event in [PrgrEvent::WatchLoad { watcher: 0 }, event] {
        if list.push(event).is_err() {
            return Outcome::NoMemory;
        }
    }
    replayed(alloc, 1, watchers, &list)
}

/// No text has such numbers.
#[test]
fn stray_numbers_are_not_enabled(rt: HostRuntime) {
    let stray = PrgrEvent::WatchLoad { watcher: 1 };
    let third = PrgrEvent::WatchAdd {
        watcher: 0,
        which: 2,
    };
    for (watchers, event, index) in [(1, stray, 2), (1, third, 2), (0, stray, 1)] {
        let outcome = behind_a_look(rt.alloc(), watchers, event);
        assert_eq!(rt; outcome, Outcome::NotEnabled(index), "{event:?}");
    }
}
