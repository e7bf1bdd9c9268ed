//! What a permit keeps over the words that all threads share.

use server_core::{Applied, Change, Cmd};
use staging::{Stage, Tables};
use write_permit::book::Book;

/// A command as it was decided: what it changes, and what it will answer.
#[derive(Drop)]
pub struct Decision {
    pub cmd: Cmd,
    pub change: Change,
    pub applied: Applied,
}

/// A decided command that waits, and how far the words are with it.
#[derive(Drop)]
pub struct Waiting {
    pub decision: Decision,
    pub stage: Stage,
}

/// A retired area that is to be looked for in slots, once the counter has reached a value.
#[derive(Clone, Copy, Debug, PartialEq, Eq)]
pub struct AreaNeed {
    pub serial: u64,
    pub value: u64,
}

/// What a permit keeps.
#[derive(Drop)]
pub struct WordBook {
    /// The script, the server with its modules, the journal, how far each loader is, and who has the permission.
    pub plain: Book,
    /// The writer's token and tables.
    pub tables: Tables,
    /// The decided command of the loader that has the permission, where it waits.
    pub waiting: Option<Waiting>,
    /// What is waited for before the next area is looked for.
    pub need: Option<AreaNeed>,
    /// The value of the counter that a purge waits for before it looks for processes in old code.
    pub look: Option<u64>,
}
