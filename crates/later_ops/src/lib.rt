//! Operations that wait until the progress counter has reached a value.
#![tactic(auto)]

mod later;

pub use later::Later;
