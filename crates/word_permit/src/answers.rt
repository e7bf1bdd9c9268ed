//! What the calls of a permit answer.

use progress_words::NotYet;
use run_log::EntryList;
use server_core::Applied;
use shared_words::Note;
use staging::Tables;

/// How far a command is that needs the permission.
#[derive(Debug, Drop)]
pub enum CommandStep {
    /// The command is done, with the answer of its last entry.
    Done(Applied),
    /// A thread may still read what the next step stores: the counter that was loaded in this call is below what is awaited.
    NotYet(NotYet),
    /// No block is free for what the command brings in, and one waits for its release.
    AwaitRelease,
    /// The purge waits, or the soft purge looks again: this anchor of a process, its place counted from 1, named the old code for a frame, and `turn` is the
    /// turn word of its slot. Both were loaded in this call. Of a soft purge the anchor was loaded once more, and names the code no more. The next call looks
    /// again.
    Lingers {
        process: u32,
        turn: u32,
        place: u32,
        word: u64,
    },
}

/// What became of the areas that wait for their release.
#[derive(Clone, Copy, Debug, PartialEq, Eq)]
pub enum Pumped {
    /// The area with this serial was released, and its entry joined the journal.
    Released(u64),
    /// A thread may still read an area that waits: the counter that was loaded in this call is below what is awaited.
    NotYet(NotYet),
    /// The area with this serial waits: this anchor of a process, its place counted from 1, names it. `turn` is the turn word of its slot. Both were
    /// loaded in this call.
    Named {
        serial: u64,
        process: u32,
        turn: u32,
        place: u32,
        word: u64,
    },
    /// No area waits.
    Nothing,
}

/// What a command gave that is made at once.
#[derive(Drop)]
pub struct AtOnce {
    pub applied: Applied,
    /// The process, where the command is a spawn.
    pub spawned: Option<Spawned>,
}

/// A process that was spawned, and that nobody has taken over yet.
#[derive(Drop)]
pub struct Spawned {
    /// Its number: the place of its spawn line in the text of the script, counted from 0.
    pub process: u32,
    /// What it takes along: which generations were published at the spawn.
    pub note: Note,
}

/// What is left of a permit.
#[derive(Drop)]
pub struct Finished {
    pub journal: EntryList,
    pub tables: Tables,
}
