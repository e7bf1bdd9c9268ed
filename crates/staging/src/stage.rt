//! How far the words are with a change of the server that waits.

use progress_words::NotYet;
use term_core::AreaRef;

/// How far the words are with a change that waits.
#[derive(Debug, Drop)]
pub enum Stage {
    /// Nothing of it stands in the words.
    Untouched,
    /// The first of what it brings in stand in these areas.
    Placed { areas: Vec<AreaRef> },
    /// All that it brings in stands in these areas, and the exports are staged.
    Exported { areas: Vec<AreaRef> },
    /// The breakpoint that it sets or clears is being switched.
    Patching,
}

/// What comes of a step of a change.
#[derive(Clone, Copy, Debug, PartialEq, Eq, Drop)]
pub enum Step {
    /// The change is published by this generation.
    Published(u64),
    /// A thread may still read what the next step stores.
    NotYet(NotYet),
    /// No block is free for what comes in, and one waits for its release.
    AwaitRelease,
}
