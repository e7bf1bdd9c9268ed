//! The tokens, each with one seat.

ghost use Rattle.std.specs.Prelude.{◌≡◌, ◌-◌, ◌<◌, ◌≤◌};
ghost use Rattle.shared_words.specs.declared.table.TheConstants.{PROCESSES, ANCHORS};
ghost use Rattle.area_core.specs.Map.{word_at};
ghost use Rattle.shared_words.specs.Processes.{AreCopied, process_of};
ghost use Rattle.prgr_core.specs.declared.watcher.TheConstants.{DELAY_COUNTS};
ghost use Rattle.prgr_core.specs.Watchers.{delay_of, holds_delay};
ghost use Rattle.shared_words.specs.Seats.{IsRooted, HoldsRoot, member_of, watcher_of, root_held, root_watched, counts_held};

use crate::table::ANCHORS;
use crate::view::View;
use atomic_table::Seat;

/// A member: a thread that reports its progress.
#[derive(Drop)]
pub struct Member {
    pub(crate) seat: Seat<(), View>,
    pub(crate) number: u32,
    pub(crate) root: u64,
    /// A copy of the anchors of all processes, 16 of each in a row. Those of other members' are 0.
    pub(crate) anchors: Vec<u64>,
}

impl Member {
    /// The root word of the generation that the member has held since its last report.
    pub fn root(&self) -> u64
        requires rooted { IsRooted self.now.root (member_of self.now.seat.me.0) }
        ensures { result ≡ root_held (member_of self.now.seat.me.0) }
    {
        self.root
    }

    /// An anchor of the slot of one of the member's processes, the anchors counted from 1.
    pub fn anchor(&self, process: u32, place: u32) -> u64
        requires copied { AreCopied self.now.anchors.items (member_of self.now.seat.me.0) }
        requires process { process < PROCESSES }
        requires place { (1 ≤ place) × (place ≤ ANCHORS) }
        ensures { result ≡ word_at (process_of (member_of self.now.seat.me.0) process).slot.anchors (place - 1) }
    {
        self.anchors[process as usize * ANCHORS as usize + (place as usize - 1)]
    }
}

/// The one thread at a time that publishes.
#[derive(Drop)]
pub struct Writer {
    pub(crate) seat: Seat<(), View>,
    /// The newest generation.
    pub(crate) generation: u64,
}

/// What a process that is spawned takes along: which generations were published then.
#[derive(Drop)]
pub struct Note {
    pub(crate) seat: Seat<(), View>,
    /// The process that is spawned.
    pub(crate) process: u32,
}

/// A watcher: a thread that is no member, and delays progress while it reads.
#[derive(Drop)]
pub struct Watcher {
    pub(crate) seat: Seat<(), View>,
    /// The root word that it has loaded last.
    pub(crate) root: u64,
    /// The delay counts that it holds: 1 for that of even values and 2 for that of odd values, added up.
    pub(crate) holds: u32,
}

impl Watcher {
    /// The root word of the generation that the watcher holds.
    pub fn root(&self) -> u64
        requires rooted { HoldsRoot self.now.root (watcher_of self.now.seat.me.0) }
        ensures { result ≡ root_watched (watcher_of self.now.seat.me.0) }
    {
        self.root
    }

    /// Whether the watcher holds this delay count.
    pub fn holds(&self, which: u32) -> bool
        requires which { which < DELAY_COUNTS }
        requires counted { self.now.holds ≡ counts_held (watcher_of self.now.seat.me.0) }
        ensures { result ≡ holds_delay (delay_of which) (watcher_of self.now.seat.me.0).watcher }
    {
        if which == 0 {
            self.holds % 2 == 1
        } else {
            self.holds >= 2
        }
    }
}

/// The tokens of a table.
#[derive(Drop)]
pub struct Parts {
    pub writer: Writer,
    /// The members in the order of their numbers.
    pub members: Vec<Member>,
    /// The watchers in the order of their numbers.
    pub watchers: Vec<Watcher>,
}
