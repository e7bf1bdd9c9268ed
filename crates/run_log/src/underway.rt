//! What is under way between two entries of a journal: a purge between its two halves.

use crate::logs::Who;
use term_core::AtomId;

/// A purge that waits between its two halves: its module's old code is doomed, and is to go.
#[derive(Clone, Copy, Debug, PartialEq, Eq)]
pub struct HalfPurge {
    /// Who makes it.
    pub who: Who,
    pub module: AtomId,
}
