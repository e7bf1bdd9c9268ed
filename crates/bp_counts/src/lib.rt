//! Exact counts of calls: a word for each name, which all threads raise, and a counter for each of them.
#![tactic(auto)]

mod closing;
mod counter;
mod counts;
mod making;
mod rule;
mod sizes;
mod tally;

pub use counter::{Counter, CounterList, MOST_HITS};
pub use counts::Counts;
pub use sizes::{MOST_COUNTED_NAMES, MOST_COUNTERS, Sizes};
pub use tally::Tally;
