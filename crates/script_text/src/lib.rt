//! The text of a script: what it says, its reader with the one fault of every other text, and its printer.
#![tactic(auto)]

mod fault;
mod fault_text;
mod printing;
mod reading;

pub use fault::{PrintFault, ScriptFault, Which};
pub use fault_text::print_fault;
pub use printing::{canonical_script_reads_back, print_script};
pub use reading::read_script;
pub use script_core::{
    CommandList, LONGEST_LINE, LONGEST_SCRIPT, LoaderList, MOST_FUNCTION_NAMES, MOST_LOADERS,
    MOST_OBSERVERS, MOST_PROCESSES, MOST_SNAPSHOTS, Script, ScriptCmd,
};
