//! The run of a script over the words that all threads share: schedulers in threads, and loaders that change the code beneath them.
#![tactic(auto)]

mod beginning;
mod desk;
mod finishing;
mod lap;
mod loaders;
mod loading;
mod looking;
mod onlooker;
mod parted;
mod posting;
mod process_logs;
mod ran;
mod releasing;
mod round;
mod rounds;
mod run;
mod running;
mod scheduler;
mod seat;
mod sight;
mod slice_step;
mod slicing;
mod telling;

pub use beginning::MOST_SCHEDULERS;
pub use ran::Ran;
pub use running::{run_on, run_script};
pub use scheduler::SLICE_LAPS;
