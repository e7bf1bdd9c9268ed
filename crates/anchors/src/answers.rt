//! What a look answers.

/// What a look through the slots of all processes found.
#[derive(Clone, Copy, Debug, PartialEq, Eq)]
pub enum Scan {
    /// This anchor of a process, its place counted from 1, names the area. `turn` is the turn word of its
    /// slot, which was loaded before it.
    Named {
        process: u32,
        turn: u32,
        place: u32,
        word: u64,
    },
    /// No anchor names the area. Whether one tells that the area's instance killed its process.
    Clear {
        killed: bool,
    },
}
