//! What one scheduler does over the words that all threads share: it takes processes in, reports, gives each one its turn of a lap, and tries to lead.
#![tactic(auto)]

mod ending;
mod laps;
mod laws;
mod newcomer;
mod process_run;
mod reporting;
mod table_name;
mod taking;
mod turns;
mod waiting;

pub use laps::take_turns;
pub use laws::{kept_processes_have_run, other_calls_keep_processes, schedulers_begin};
pub use newcomer::Newcomer;
pub use process_run::ProcessRun;
pub use reporting::{catch_up, try_lead};
pub use table_name::TableName;
pub use taking::take_in;
pub use waiting::{begin_wait, end_wait};
