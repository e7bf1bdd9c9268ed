//! What every run of a script keeps, whatever program makes it and in whatever order: what its steps do to its state, and that its log is lawful.
#![tactic(auto)]

mod laws;
mod phase;

pub use laws::{made_turns_follow, turns_are_made};
pub use phase::Phase;
