//! Scripts that a seed and a size make: two modules in eight versions each, and commands that a generator of numbers picks.
#![tactic(auto)]

mod commands;
mod generator;
mod laws;
mod making;
mod modules;
mod subject;

pub use laws::made_scripts_are_scripts;
pub use making::{MOST_COMMANDS, make_script};
pub use subject::Subject;

#[cfg(test)]
mod tests;
