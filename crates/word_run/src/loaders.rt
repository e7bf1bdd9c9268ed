//! The loaders of a scheduler in a lap: each makes one step, under the lock.

ghost use Rattle.std.specs.Prelude.{◌≡◌, ◌<◌, ◌%◌, true, length, IfOk};
ghost use Rattle.word_permit.specs.Runs.{IsOverWords};
ghost use Rattle.word_run.specs.Desks.{HasHomes};
ghost use Rattle.word_run.specs.Loaders.{AreInboxes, TellsOfLoaders};
ghost use Rattle.word_run.specs.Names.{HasTable};

use crate::slicing::{RoundName, Slicing};
use code_law::{CodeLaw, Naming};
use inbox::{Inbox, InboxNames};
use shared_words::Shared;
use std::alloc::Global;
use std::sync::{Mutex, Wait};
use term_core::NoMemory;
use word_lap::{Newcomer, TableName};
use word_permit::RunName;
use write_permit::Gate;

/// One step of one loader, under the lock. Answers whether it had no next command.
fn step_loader<K: Naming, N: RunName, T: TableName, I: InboxNames, E: RoundName, R: Wait, G: Gate>(
    alloc: Global,
    rt: &R,
    shared: &Shared<CodeLaw<K>>,
    desk: &Mutex<Slicing<K, N, T, I, E>>,
    inboxes: &[Inbox<Newcomer<T>, I>],
    gate: &G,
    who: u32,
) -> Result<bool, NoMemory>
    requires words { IsOverWords shared.now.table.shared.table_id shared.now.table.shared.key N.run }
    requires table { HasTable N.run T.table }
    requires homes { HasHomes E.began (length inboxes.now) }
    requires inboxes { AreInboxes inboxes.now }
    ensures { IfOk result (λ over. E.answered who over) }
{
    let mut desk = desk.lock(rt);
    desk.stands();
    desk.step(alloc, rt, shared, inboxes, gate, who)
}

/// One step of a loader, if it is one of the scheduler of this number. Answers whether it had no next command.
fn step_own<K: Naming, N: RunName, T: TableName, I: InboxNames, E: RoundName, R: Wait, G: Gate>(
    alloc: Global,
    rt: &R,
    shared: &Shared<CodeLaw<K>>,
    desk: &Mutex<Slicing<K, N, T, I, E>>,
    inboxes: &[Inbox<Newcomer<T>, I>],
    gate: &G,
    number: u32,
    who: u32,
) -> Result<bool, NoMemory>
    requires words { IsOverWords shared.now.table.shared.table_id shared.now.table.shared.key N.run }
    requires table { HasTable N.run T.table }
    requires homes { HasHomes E.began (length inboxes.now) }
    requires inboxes { AreInboxes inboxes.now }
    requires some { 0 < length inboxes.now }
    ensures own { who % length inboxes.now ≡ number → IfOk result (λ over. E.answered who over) }
    ensures other { (who % length inboxes.now ≡ number → ⊥) → IfOk result (λ over. over ≡ true) }
{
    if who as usize % inboxes.len() != number as usize {
        return Ok(true);
    }
    step_loader(alloc, rt, shared, desk, inboxes, gate, who)
}

/// One step of each loader of the scheduler of this number: loader j is on scheduler j modulo their count. Answers whether none of them had a next
/// command.
pub fn step_loaders<
    K: Naming,
    N: RunName,
    T: TableName,
    I: InboxNames,
    E: RoundName,
    R: Wait,
    G: Gate,
>(
    alloc: Global,
    rt: &R,
    shared: &Shared<CodeLaw<K>>,
    desk: &Mutex<Slicing<K, N, T, I, E>>,
    inboxes: &[Inbox<Newcomer<T>, I>],
    gate: &G,
    number: u32,
    loaders: u32,
) -> Result<bool, NoMemory>
    requires words { IsOverWords shared.now.table.shared.table_id shared.now.table.shared.key N.run }
    requires table { HasTable N.run T.table }
    requires homes { HasHomes E.began (length inboxes.now) }
    requires inboxes { AreInboxes inboxes.now }
    requires some { 0 < length inboxes.now }
    ensures { IfOk result (λ over. TellsOfLoaders E.answered number (length inboxes.now) loaders over) }
{
    let mut over = true;
    for who in 0..loaders {
        over &= step_own(alloc, rt, shared, desk, inboxes, gate, number, who)?;
    }
    Ok(over)
}
