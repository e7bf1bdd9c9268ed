//! What each seat at the turns knows. No value of these types is made: they are for clauses alone.

use crate::turn::Turn;
use std::collections::LinkedList;

/// The word of a turn, as it was found by who tried to take that turn.
pub struct FoundTurn {
    pub turn: Turn,
    pub word: u64,
}

/// What a seat holds.
pub struct Holdings {
    /// The process for which it holds the first turn.
    pub first: Option<u32>,
    /// The process for which it holds the second one.
    pub second: Option<u32>,
    /// How many copiers it stands for that hold nothing.
    pub idle: u64,
    /// The words that it found when it tried to take turns, the newest first.
    pub found: LinkedList<FoundTurn>,
}
