//! What a run answers.

use run_log::RunLog;
use shared_words::Closed;

/// What was done, and the words as all threads left them.
#[derive(Drop)]
pub struct Ran {
    pub log: RunLog,
    pub closed: Closed,
}
