//! What a process sees of the code server through the words that all threads share, and what it holds there.
#![tactic(auto)]

mod began;
mod exports;
mod laws;
mod places;
mod reads;
mod tells;
mod terms;
mod turns;
mod view;

pub use began::Began;
pub use laws::{
    newcomers_begin, other_steps_leave_slots, reports_begin_turns, reports_leave_processes,
    stores_leave_other_processes, turns_go_on_after_reports, turns_leave_other_processes,
    wakes_are_reports,
};
pub use places::{CODE_UNIT, FUNCTIONS, block_word, index_word};
pub use turns::turn_of;
pub use view::WordView;
