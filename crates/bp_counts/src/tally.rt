//! What each seat at the counts knows. No value of this type is made: it is for clauses alone.

use std::collections::LinkedList;

/// What a seat has hit, and how often it may still hit.
pub struct Tally {
    /// The names that it hit, by their numbers, the newest first.
    pub hits: LinkedList<u32>,
    /// How many hits it has left.
    pub left: u64,
}
