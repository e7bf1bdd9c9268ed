//! The permission to change the code over the words that all threads share: how far the next command is, the journal, the server to which it leads,
//! and the writer's tables.
#![tactic(auto)]

mod answers;
mod book;
mod deciding;
mod dooming;
mod dropping;
mod going_on;
mod looking;
mod noting;
mod operations;
mod permit;
mod pumping;
mod purging;
mod run_name;
mod softly;
mod steps;
mod tracing;

pub use answers::{AtOnce, CommandStep, Finished, Pumped, Spawned};
pub use book::{AreaNeed, Decision, Waiting, WordBook};
pub use permit::Permit;
pub use run_name::RunName;
