//! Turns to copy retired constants: two of them, each held for one process at a time.
#![tactic(auto)]

mod closing;
mod copier;
mod holdings;
mod laws;
mod making;
mod rule;
mod turn;
mod turns;

pub use copier::{Copier, CopierList};
pub use holdings::{FoundTurn, Holdings};
pub use laws::{at_most_two_turns_are_held, words_tell_who_holds};
pub use making::MOST_COPIERS;
pub use turn::{Holding, PROCESS_LIMIT, TURNS, Taken, Turn};
pub use turns::CopyTurns;
