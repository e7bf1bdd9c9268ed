//! Breakpoints, as the writer of a shared table switches them in phases beneath running threads, and as a turn finds
//! whether a function has one.
#![tactic(auto)]

mod abandoning;
mod advancing;
mod clearing;
mod deciding;
mod laws;
mod patch;
mod phases;
mod places;

pub use clearing::clear_decisions;
pub use deciding::decision;
pub use laws::{
    breakpoints_rest_at_first, cleared_blocks_leave_patches, others_keep_patches,
    roots_keep_breakpoints,
};
pub use patch::{Patch, PatchStep, Phase};
