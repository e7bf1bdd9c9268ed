//! One watcher that delays progress and resumes, while nobody else does anything.

ghost use Rattle.progress_words.specs.Delays.{IsIdle};
ghost use Rattle.progress_words.specs.Tokens.{watched_by, IsWatcherOf};

use crate::tables::Any;
use progress_words::{delay, resume};
use shared_words::{Parts, Shared, Watcher};
use std::alloc::Global;
use term_core::NoMemory;

/// Makes a table of one member and one watcher, which delays progress so often, each time until it resumes.
/// Answers how often it did.
pub fn delay_alone(alloc: Global, times: u32) -> Result<u32, NoMemory> {
    let (shared, parts) = Shared::<Any>::new(alloc, 1, 1)?;
    let Parts {
        writer: _,
        members: _,
        mut watchers,
    } = parts;
    match watchers.pop() {
        Some(mut watcher) => {
            delay_often(&shared, &mut watcher, times);
            Ok(times)
        }
        None => Ok(0),
    }
}

/// Delays so often, each time until it resumes.
fn delay_often(shared: &Shared<Any>, watcher: &mut Watcher, times: u32)
    requires token { IsWatcherOf shared.now.table.shared.table_id watcher.old }
    requires idle { IsIdle (watched_by watcher.old) }
{
    for _ in 0..times {
        delay(shared, watcher);
        resume(shared, watcher);
    }
}
