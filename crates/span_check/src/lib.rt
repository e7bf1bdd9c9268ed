//! What a process did under one generation, held against the spans of its log.
//!
//! Who judges a whole log goes over its journal with one server, and keeps a `Standing` for each process log: how far the log
//! was judged. `Standing::new` makes one of which nothing was judged. Right after each publication `take_spans` takes the spans
//! under that generation, and judges what soft purges told of the process when so many generations were published. Contracts say
//! of a standing, for any states of the generations, that it `StandsAt` its place, and, whatever those are, that it `IsReached`
//! up to a generation, `IsReady` for a turn and `HasItsNames` at hand. `take_spans` keeps these (`IsTaken`), or the log can not
//! be lawful (`IsRefused`).
//!
//! `standings_are_last` says that the clauses on the last turn up to a generation can be asked of the standing, `standings_stay`
//! that a standing holds on while the server makes commands, `standings_end` that one that has not ended behind all its spans is
//! of a log that is not followed.
#![tactic(auto)]

mod frames;
mod laws;
mod named;
mod spans;
mod standing;
mod steps;
mod watch;

pub use laws::{standings_are_last, standings_end, standings_stay};
pub use standing::{Standing, take_spans};
pub use watch::Watch;
