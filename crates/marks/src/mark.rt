//! Slots and marks of processes. No value of these types is made: they are for clauses alone.

use term_core::{CountList, Items};

/// A finished turn: the generation that it was made under, and what its slot named when it ended.
pub struct Mark {
    pub generation: u64,
    /// The anchors of the slot, as words.
    pub anchors: CountList,
}

/// Marks of one process, newest first.
pub type MarkList = Items<Mark>;

/// The words of a process's slot.
pub struct Slot {
    /// How many turns were done. It ends to rise at the end of a `u32`.
    pub turns: u64,
    /// Sixteen anchors.
    pub anchors: CountList,
}

/// What a member knows of one of its processes.
pub struct ProcessView {
    pub slot: Slot,
    pub marks: MarkList,
    /// How many generations were published when the note of the process was split, if it has come.
    pub note: Option<u64>,
}
