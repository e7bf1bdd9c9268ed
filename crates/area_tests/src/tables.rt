//! A shared table, and what its words are at its end.

ghost use Rattle.shared_words.specs.Closing.{AreAllMembers, AreWatchers};
ghost use Rattle.progress_words.specs.Tokens.{IsWriterOf};

use shared_words::{Parts, Served, Shared, close};
use std::alloc::Global;
use term_core::{NoMemory, WordList};

/// Generations of which nothing is said.
pub struct Any;

impl Served for Any {
    ghost served = { λ _. Unit {0} };
}

/// The words of a table, which ends.
pub fn last_words(alloc: Global, shared: Shared<Any>, parts: Parts) -> Result<WordList, NoMemory>
    requires token { IsWriterOf shared.table.shared.table_id shared.table.shared.key parts.writer }
    requires members { AreAllMembers shared.table.shared.table_id shared.table.shared.key.members parts.members.items }
    requires watchers { AreWatchers shared.table.shared.table_id parts.watchers.items }
{
    Ok(close(alloc, shared, parts)?.words())
}
