//! Numbers for the names of functions: the words of a code index stand at these numbers.
#![tactic(auto)]

mod fault;
mod names;
mod table;

pub use fault::AddFault;
pub use table::{ExportTable, MOST_ENTRIES};
