//! What the machine knows of one watcher: a thread that is no member, and delays progress while
//! it reads.

mod records;

/// How many watchers a machine has at most.
pub const MOST_WATCHERS: usize = 4;

/// How many delay counters there are. They go by their numbers, 0 and 1.
pub const DELAY_COUNTS: u32 = 2;

/// One of the two delay counters. A value of the progress counter belongs to the one of its
/// parity.
#[derive(Clone, Copy, Debug)]
pub enum Delay {
    /// Delay counter 0.
    Even,
    /// Delay counter 1.
    Odd,
}

/// Where a watcher stands.
#[derive(Clone, Copy, Debug)]
pub enum Phase {
    Idle,
    /// It has loaded this counter.
    Loaded(u64),
    /// It has raised the delay count of this counter.
    Added(u64),
    /// The counter went on before it looked again, and it holds this delay count alone.
    Moved(Delay),
    /// It holds both delay counts.
    Both,
    /// It may read: it holds the delay count of this counter.
    Claimed(u64),
    /// It reads no more, and has not yet lowered each delay count that it holds.
    Leaving,
}

/// A thread that is no member, and delays progress while it reads.
#[derive(Clone, Copy, Debug)]
pub struct Watcher {
    /// Watchers are numbered from 0.
    pub number: u32,
    pub phase: Phase,
    /// Whether it holds delay count 0.
    pub holds_even: bool,
    /// Whether it holds delay count 1.
    pub holds_odd: bool,
    /// The generation that the root had when it last loaded it in its present claim.
    pub generation: Option<u64>,
}
