//! What a command of the code server changes in the words that all threads share: areas are taken and written, exports and keys are staged,
//! and one store of the root publishes them.
#![tactic(auto)]

mod coding;
mod committing;
mod exporting;
mod former;
mod keying;
mod placing;
mod releasing;
mod renewing;
mod settling;
mod stage;
mod stepping;
mod tables;
mod tracing;
mod upcoming;

pub use placing::Placing;
pub use releasing::{
    clear_areas_are_releasable, clear_areas_are_releasable_while_settling, release,
};
pub use renewing::publish_same;
pub use settling::settle;
pub use stage::{Stage, Step};
pub use stepping::{abandon, step};
pub use tables::Tables;
pub use tracing::step_trace;
pub use upcoming::Upcoming;
