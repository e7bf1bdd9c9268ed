//! What a script says: its modules, its observers, its loaders' commands, and the numbers of its processes.
#![tactic(auto)]

mod copying;
mod processes;
mod script;

pub use processes::first_numbers;
pub use script::{
    CommandList, LONGEST_LINE, LONGEST_SCRIPT, LoaderList, MOST_FUNCTION_NAMES, MOST_LOADERS,
    MOST_OBSERVERS, MOST_PROCESSES, MOST_SNAPSHOTS, Script, ScriptCmd,
};
