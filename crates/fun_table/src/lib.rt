//! How many funs of each instance there are.
#![tactic(auto)]

mod counts;

pub use counts::FunCounts;
