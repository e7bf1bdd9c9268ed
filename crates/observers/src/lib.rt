//! Observers of a run: each is a thread that is no scheduler, which delays thread progress, reads what the newest generation exports from the words that
//! all threads share, and goes on.
#![tactic(auto)]

mod exports;
mod laws;
mod observer;
mod reads;
mod shots;

pub use laws::observers_begin;
pub use observer::Observer;
