//! The current and the old instance of each module.
#![tactic(auto)]

mod fault;
mod table;

pub use fault::{DropAnswer, PromoteFault};
pub use table::ModuleTable;
