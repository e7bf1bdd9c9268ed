//! The events: one for each kind of atomic step on the shared words.

use term_core::{AreaRefList, CodeRef, Generation};

/// Whose step it is.
#[derive(Clone, Copy, Debug, PartialEq, Eq)]
pub enum SeatName {
    Writer,
    Member(u32),
    Watcher(u32),
}

/// One atomic step. Seats, processes and words go by their numbers, from 0.
///
/// Rule: docs/DEFINITIONS.md, "Blocks, slots and entry words".
#[derive(Debug, Drop)]
pub enum AreaEvent {
    LoadCounter {
        seat: SeatName,
    },
    LoadRoot {
        seat: SeatName,
    },
    Confirm {
        member: u32,
        value: u64,
    },
    LoadConfirmed {
        member: u32,
        other: u32,
    },
    StoreCounter {
        member: u32,
    },
    /// The exchange that finds no leader.
    TakeLead {
        member: u32,
    },
    DropLead {
        member: u32,
    },
    LoadWord {
        seat: SeatName,
        word: u32,
    },
    StoreWord {
        word: u32,
        value: u64,
    },
    /// The store that publishes the next generation, whose areas have these blocks.
    StoreRoot {
        code: u32,
        bp: u32,
        term: u32,
        next: Generation,
        areas: AreaRefList,
    },
    StoreWaiting {
        member: u32,
    },
    StoreEntering {
        member: u32,
    },
    SplitNote {
        process: u32,
    },
    JoinNote {
        member: u32,
    },
    /// Place 0 is the number of turns done, places 1 to 16 are the anchors.
    StoreSlot {
        member: u32,
        process: u32,
        place: u32,
        value: u64,
    },
    LoadSlot {
        process: u32,
        place: u32,
    },
    /// The entry word of a function: 1 where it is on, else 0.
    StoreEntry {
        at: CodeRef,
        on: bool,
    },
    AddDelay {
        watcher: u32,
        which: u32,
    },
    SubDelay {
        watcher: u32,
        which: u32,
    },
    LoadDelay {
        member: u32,
        which: u32,
    },
}
