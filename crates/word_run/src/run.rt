//! What a run has between two of its rounds.

use crate::desk::Desk;
use crate::onlooker::Onlooker;
use crate::seat::Seat;
use crate::sight::Sight;
use code_law::{CodeLaw, Naming};
use inbox::{Inbox, InboxNames};
use shared_words::Shared;
use word_lap::{Newcomer, TableName};
use word_permit::RunName;

/// What a run has between two of its rounds.
#[derive(Drop)]
pub struct Run<K: Naming, N: RunName, T: TableName, I: InboxNames> {
    pub(crate) shared: Shared<CodeLaw<K>>,
    pub(crate) desk: Desk<K, N, T, I>,
    /// The inboxes, by the number of their scheduler.
    pub(crate) inboxes: Vec<Inbox<Newcomer<T>, I>>,
    /// The schedulers, by number.
    pub(crate) seats: Vec<Seat<T, I>>,
    /// The observers, by number.
    pub(crate) onlookers: Vec<Onlooker>,
    pub(crate) sight: Sight,
}
