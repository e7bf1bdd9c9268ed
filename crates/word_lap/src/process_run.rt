//! A process of a scheduler, with what it did so far.

use machine_core::{End, Process};
use run_log::SpanList;

/// A process that a scheduler has, with what it did so far.
#[derive(Drop)]
pub struct ProcessRun {
    pub process: Process,
    pub spans: SpanList,
    /// How it ended, if it has.
    pub fin: Option<End>,
}
