//! Reading a report: the one log that it shows, or the first line after which no report goes on.
#![tactic(auto)]

mod command;
mod entry;
mod fault;
mod line;
mod line_fault;
mod reading;
mod reply;
mod state;
mod terms;
mod words;

pub use fault::ReportFault;
pub use reading::read_report;
