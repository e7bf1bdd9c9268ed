//! Why a change is not staged.

use progress_words::NotYet;

/// Why a change was not staged.
#[derive(Clone, Copy, Debug, PartialEq, Eq, Drop)]
pub enum StageFault {
    /// The key is new, and as many keys are held as can be.
    Full,
    /// A thread may still read the table in which the change would be staged.
    NotYet(NotYet),
}
