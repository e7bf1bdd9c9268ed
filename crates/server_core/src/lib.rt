//! The code server of one thread: what each command answers, and what it leaves.
#![tactic(auto)]

mod answers;
mod areas;
mod breakpoints;
mod change;
mod command;
mod fault;
mod functions;
mod growth;
mod instance;
mod keys;
mod laws;
mod loading;
mod purges;
mod releases;
mod retired;
mod serials;
mod server;
mod slots;
mod stored_term;
mod terms;
mod texts;
mod traces;
mod versions;

pub use change::Change;
pub use command::{Applied, Cmd, Limit, Linger, ModRef, RefList, Reply};
pub use fault::ApplyFault;
pub use functions::export_of;
pub use instance::LoadedModule;
pub use laws::changes_wait_for_releases;
pub use server::Server;
pub use stored_term::StoredTerm;
pub use term_core::{AreaRef, CodeRef, Found};
