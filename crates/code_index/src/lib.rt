//! The code indices, as the writer of a shared table stages exports in one that no thread reads, and
//! publishes them all by one store of the root.
#![tactic(auto)]

mod committing;
mod index;
mod laws;
mod places;
mod setting;
mod starting;

pub use index::{CodeIndex, Staging};
pub use laws::{
    counters_keep_index, exports_that_stay_are_staged, notes_keep_index, roots_keep_index,
    stores_keep_index, writes_keep_index,
};
