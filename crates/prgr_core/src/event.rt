//! The events of the machine.

use crate::lists::EventList;

/// One step of the machine. Members, watchers and delay counters go by their numbers, from 0.
///
/// Rule: docs/DEFINITIONS.md, "The progress machine".
#[derive(Clone, Copy, Debug)]
pub enum PrgrEvent {
    LoadCounter { member: u32 },
    LoadRoot { member: u32 },
    Report { member: u32 },
    Lead { member: u32 },
    Scan { member: u32, other: u32 },
    ScanDelay { member: u32 },
    Advance { member: u32 },
    GiveUp { member: u32 },
    Wait { member: u32 },
    Enter { member: u32 },
    Publish,
    Retire,
    Release { generation: u64 },
    WatchLoad { watcher: u32 },
    WatchAdd { watcher: u32, which: u32 },
    WatchRoot { watcher: u32 },
    WatchSub { watcher: u32, which: u32 },
}

/// What an event list says.
#[derive(Debug, Drop)]
pub struct Events {
    pub members: u32,
    pub watchers: u32,
    pub list: EventList,
}
