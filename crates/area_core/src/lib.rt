//! What stands in the shared words beneath readers: blocks, slots and entry words, and which steps keep them.
#![tactic(auto)]

mod event;
mod generations;
mod laws;
mod map;
mod readers;
mod roots;
mod state;
mod stores;
mod table;
mod terms;

pub use event::{AreaEvent, SeatName};
pub use laws::{
    block_stores_are_decided, doom_stores_are_decided, entry_stores_are_decided,
    events_keep_both_invariants, grace_frees_blocks, readable_generations_are_listed,
    retire_stores_are_decided, root_stores_are_decided, slot_stores_are_decided,
    term_tables_are_decided, what_is_read_is_not_stored,
};
pub use map::{TABLE_WORDS, WordKind, kind_of};
pub use readers::Slots;
pub use state::{AreaState, area_step};
pub use table::{KeptArea, KeptList, Published, PublishedList, Root, Table, WordTable};
