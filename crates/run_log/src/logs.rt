use machine_core::{End, LineList};
use server_core::{Cmd, Reply};
use term_core::{Items, Mfa, TermList};

/// Who made an entry of the journal.
#[derive(Clone, Copy, Debug, PartialEq, Eq)]
pub enum Who {
    /// A loader block, by its number in the script, counted from 0.
    Loader(u32),
    /// The runtime itself.
    Runtime,
}

/// A command that was made, with what it answered.
#[derive(Debug, Drop)]
pub struct Entry {
    pub who: Who,
    pub cmd: Cmd,
    pub reply: Reply,
    /// The generation that the command published, counted from 1.
    pub published: Option<u64>,
}

/// The entries of a journal, the oldest first.
pub type EntryList = Items<Entry>;

/// Turns of a process in a row under one generation, and the lines that they made.
#[derive(Debug, Drop)]
pub struct Span {
    pub generation: u64,
    pub turns: u64,
    pub lines: LineList,
}

/// The spans of a process, in order.
pub type SpanList = Items<Span>;

/// What a process did, from its first turn to its end.
#[derive(Debug, Drop)]
pub struct ProcessLog {
    pub target: Mfa,
    pub args: TermList,
    pub spans: SpanList,
    pub fin: End,
}

/// The logs of the processes, by number.
pub type ProcessLogList = Items<ProcessLog>;

/// Exported functions, each with the serial of its instance.
pub type ExportList = Items<(Mfa, u64)>;

/// What an observer saw of a generation: the exported functions of its current instances.
///
/// They are in order of the names of their modules, then of their own names, then of their arities; names are compared
/// by their bytes.
#[derive(Debug, Drop)]
pub struct Snapshot {
    pub generation: u64,
    pub exports: ExportList,
}

/// The snapshots of an observer, in order.
pub type SnapshotList = Items<Snapshot>;

/// The snapshots of each observer, by number.
pub type ObserverList = Items<SnapshotList>;

/// What a run did: the journal of its commands, its processes, and what its observers saw.
#[derive(Debug, Drop)]
pub struct RunLog {
    pub journal: EntryList,
    pub processes: ProcessLogList,
    pub observers: ObserverList,
}
