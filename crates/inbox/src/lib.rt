//! Inboxes: what one thread posts, another one takes, each once and in order.
#![tactic(auto)]

mod ends;
mod names;
mod opening;
mod queue;
mod rule;

pub use ends::{Poster, Taker};
pub use names::InboxNames;
pub use opening::Opening;
pub use queue::Inbox;
