//! What is known of the slots of processes: marks of turns, what the writer looked at, and what it keeps of its answers.
#![tactic(auto)]

mod kept;
mod laws;
mod mark;

pub use kept::{
    DroppedArea, EndedWait, LingeringFrame, LookKind, LookedAnchor, ReadTurn, WriterKept,
};
pub use laws::{
    answers_are_true, clear_looks_end_names, members_keep_what_is_known, tested_stores_are_allowed,
    waits_back_what_is_kept, writers_keep_what_is_known,
};
pub use mark::{Mark, MarkList, ProcessView, Slot};
