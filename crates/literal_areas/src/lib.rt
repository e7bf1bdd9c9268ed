//! The blocks of the shared table in which instances and persistent terms stand, dealt out as areas:
//! which are free, live and retired, and the stores by which an area is written, doomed and retired.
#![tactic(auto)]

mod areas;
mod blocks;
mod dooming;
mod laws;
mod places;
mod pools;
mod releasing;
mod retiring;
mod taking;
mod writing;

pub use areas::Areas;
pub use blocks::{BlockList, BlockUse, INSTANCE_BLOCKS, Pool, TERM_BLOCKS};
pub use laws::{
    counters_keep_pools, looks_keep_pools, notes_keep_pools, roots_keep_pools, stores_keep_pools,
};
pub use places::{doom_word, retire_word};
pub use pools::Pools;
pub use taking::Take;
