//! The permission to change the code: who may make the next command, the journal, and the server to which it leads.
#![tactic(auto)]

mod answers;
pub mod book;
pub mod commands;
pub mod following;
pub mod foretold;
pub mod gate;
pub mod holder;
mod loader_run;
pub mod operations;
pub mod steps;

pub use answers::Seize;
pub use gate::{Gate, NoGate, Place};
pub use holder::Holder;
pub use loader_run::LoaderRun;
