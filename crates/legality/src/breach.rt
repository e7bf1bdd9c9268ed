//! What a log that is not lawful breaks: a clause of the definition, and where.

/// A clause of a lawful log, in the order of the definition.
#[derive(Clone, Copy, Debug, PartialEq, Eq)]
pub enum Clause {
    Replays,
    LoadersInOrder,
    SpawnBeforeTurns,
    TurnsFollow,
    ReleasedUnnamed,
    LingersTold,
    PurgedUnnamed,
    SnapshotsTrue,
    NothingRetired,
    Complete,
}

/// Where a log was found to break a clause. Numbers count from 0. It is a hint: no contract says that the fault lies there.
#[derive(Clone, Copy, Debug, PartialEq, Eq)]
pub enum Place {
    /// The log as a whole.
    Whole,
    /// An entry of the journal.
    Entry(usize),
    /// Behind the last entry.
    End,
    /// A process.
    Process(usize),
    /// The spans of a process under one generation, from this one on.
    Span { process: usize, span: usize },
    /// A snapshot of an observer.
    Snapshot { observer: usize, snapshot: usize },
}

/// A clause that a log breaks, and where that was found.
#[derive(Clone, Copy, Debug, PartialEq, Eq)]
pub struct Breach {
    pub clause: Clause,
    pub at: Place,
}
