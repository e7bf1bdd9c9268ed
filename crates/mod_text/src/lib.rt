//! The text of a module: its lines, read one by one, and the module that they say.
#![tactic(auto)]

mod fault;
mod instrs;
mod labels;
mod limits;
mod line;
mod naming;
mod printing;
mod reader;
mod reading;
mod settling;
mod targets;
mod values;
mod words;
mod written;

pub use fault::{FinishFault, LineFault, ModFault};
pub use printing::{canonical_text_reads_back, print_module};
pub use reader::ModuleReader;
pub use reading::read_module;
pub use words::{arity_of, version_of};
