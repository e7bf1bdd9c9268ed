//! Whether a log is lawful for a script, and which clause it breaks where it is not: a sweep over its journal with one code server.
#![tactic(auto)]

mod breach;
mod ending;
mod entries;
mod halves;
mod judging;
mod known;
mod looks;
mod observers;
mod replies;
mod shape;
mod spans;
mod sweep;
mod watches;

pub use breach::{Breach, Clause, Place};
pub use judging::{first_breach, legal};
pub use shape::{
    has_commands_in_order, is_complete, is_killed, killed_serials, snapshots_fit, spans_rise,
    spawns_come_first,
};
