//! What a run of a script did: its journal and its processes, when such a log is lawful, and its report and its summary.
#![tactic(auto)]

mod exports;
mod journal;
mod logs;
mod rendering;
mod totals;
mod underway;

pub use exports::{MfaList, exported_functions, exports_are_one, exports_of, snapshot_of};
pub use logs::{
    Entry, EntryList, ExportList, ObserverList, ProcessLog, ProcessLogList, RunLog, Snapshot,
    SnapshotList, Span, SpanList, Who,
};
pub use rendering::render;
pub use totals::summary;
pub use underway::HalfPurge;
