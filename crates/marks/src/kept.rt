//! What the writer keeps of waits, looks and answers. No value of these types is made: they are for clauses alone.

use term_core::{CountList, Items};

/// What a look asks for.
pub enum LookKind {
    /// Frames alone, as a purge does.
    Frame,
    /// Frames and literals, as a release does.
    Both,
}

/// A wait that is over: from this generation on no turn comes to the area in this kind, and no thread is
/// under an earlier one any more.
pub struct EndedWait {
    pub generation: u64,
    pub serial: u64,
    pub kind: LookKind,
}

/// An anchor that was loaded after a wait, and did not name the area in the kind.
pub struct LookedAnchor {
    pub wait: EndedWait,
    pub process: u32,
    /// The place of the anchor, from 0.
    pub place: u32,
    /// Whether it told that the area's instance killed the process.
    pub told: bool,
}

/// A turn word that was loaded after a wait.
pub struct ReadTurn {
    pub wait: EndedWait,
    pub process: u32,
    pub turns: u64,
}

/// An area that was released, where the wait is in both kinds, or the instance that a purge dropped.
pub struct DroppedArea {
    pub wait: EndedWait,
    /// The newest generation then.
    pub generation: u64,
    /// The processes that the instance killed.
    pub killed: CountList,
}

/// A process that was found in an old instance after one of its turns, counted from 1. The generation of
/// the wait was the newest then.
pub struct LingeringFrame {
    pub wait: EndedWait,
    pub process: u32,
    pub turns: u64,
}

/// What the writer keeps. Each list grows at its front, and nothing is taken out.
pub struct WriterKept {
    pub waits: Items<EndedWait>,
    pub anchors: Items<LookedAnchor>,
    pub turns: Items<ReadTurn>,
    pub dropped: Items<DroppedArea>,
    pub lingering: Items<LingeringFrame>,
}
