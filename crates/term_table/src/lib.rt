//! The term tables: what keys of persistent terms hold, as members look it up, and as the writer of a
//! shared table stages a change in a table that no thread reads and publishes it by one store of the
//! root.
#![tactic(auto)]

mod answers;
mod buckets;
mod change;
mod copying;
mod laws;
mod looking;
mod places;
mod publishing;
mod rebuilding;
mod staging;
mod table;

pub use answers::StageFault;
pub use change::Change;
pub use laws::{
    counters_keep_tables, keys_that_stay_are_staged, notes_keep_tables, roots_keep_tables,
    stores_keep_tables, writes_keep_tables,
};
pub use looking::lookup;
pub use table::TermTable;
