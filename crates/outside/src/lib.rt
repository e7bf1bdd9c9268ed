//! The outside of the programs: sources and sinks, whole texts, answers of one line, and the input of a check: a script with a
//! report behind it.
#![tactic(auto)]

mod answer;
mod check_input;
mod fault;
mod memory;
mod parting;
mod piece;
mod refusals;
mod sink;
mod source;
mod standard;
mod sure;
mod transfer;

pub use answer::{
    Answer, DONE, NO_MEMORY, NOT_ALLOWED, NOT_UNDERSTOOD, REFUSED, SINK_FAULT, SOURCE_FAULT, Stop,
    line_answer,
};
pub use check_input::{CheckInput, LONGEST_CHECK, read_input};
pub use fault::{Failed, ReadFault};
pub use memory::{MemSink, MemSource};
pub use parting::script_length;
pub use refusals::{refusal, report_refusal};
pub use sink::Sink;
pub use source::Source;
pub use standard::{StdSink, StdSource};
pub use sure::{SureSink, SureSource};
pub use transfer::{Input, read_whole, write_whole};
