//! A process that was spawned goes to its scheduler.

ghost use Rattle.std.specs.Prelude.{◌≡◌, ◌<◌, length, OnErr, OnOk};
ghost use Rattle.word_lap.specs.Newcomers.{IsNoted};
ghost use Rattle.word_run.specs.Loaders.{AreEnds, AreInboxes, posted_home};

use inbox::{Inbox, InboxNames, Poster};
use std::marker::PhantomData;
use std::sync::Wait;
use term_core::{Mfa, NoMemory, TermList};
use word_lap::{Newcomer, TableName};
use word_permit::Spawned;

/// Posts a process that was spawned to the scheduler of its number, modulo their count. After want of memory it is lost, and the run ends.
pub fn post_home<T: TableName, I: InboxNames, R: Wait>(
    rt: &R,
    spawned: Spawned,
    published: u64,
    target: Mfa,
    args: TermList,
    inboxes: &[Inbox<Newcomer<T>, I>],
    posters: &mut [Poster<Newcomer<T>, I>],
) -> Result<(), NoMemory>
    requires note { IsNoted T.table spawned.process published spawned.note }
    requires some { 0 < length posters.old }
    requires homes { length inboxes.now ≡ length posters.old }
    requires inboxes { AreInboxes inboxes.now }
    requires ends { AreEnds posters.old }
    ensures ok { OnOk result (posters.new ≡ posted_home posters.old (record { number = spawned.process; target = target; args = args; published = published })) }
    ensures err { OnErr result (posters.new ≡ posters.old) }
{
    let home = spawned.process as usize % posters.len();
    let newcomer = Newcomer {
        number: spawned.process,
        target,
        args,
        published,
        note: spawned.note,
        of: PhantomData,
    };
    match inboxes[home].post(rt, &mut posters[home], newcomer) {
        Ok(()) => Ok(()),
        Err(_) => Err(NoMemory),
    }
}
