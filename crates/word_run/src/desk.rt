//! What lies under the lock of a run: the permit, and the ends that post to the schedulers' inboxes.

ghost use Rattle.std.specs.Prelude.{◌≡◌, true};
ghost use Rattle.word_run.specs.Rounds.{IsDone};

use code_law::Naming;
use inbox::{InboxNames, Poster};
use std::marker::Model;
use word_lap::{Newcomer, TableName};
use word_permit::{Permit, RunName};

/// The permit, and the posting end of each scheduler's inbox, by number. What was posted is the spawns of the journal.
#[derive(Drop)]
pub struct Desk<K: Naming, N: RunName, T: TableName, I: InboxNames> {
    pub(crate) permit: Permit<K, N>,
    pub(crate) posters: Vec<Poster<Newcomer<T>, I>>,
}

impl<K: Naming, N: RunName, T: TableName, I: InboxNames> Model for Desk<K, N, T, I> {
    ghost use Rattle.std.specs.Coded.{codes};
    ghost use Rattle.term_core.specs.contracts.atom.Mfa as mfa_contracts;
    ghost use Rattle.term_core.specs.contracts.term.TermList as args_contracts;
    ghost use Rattle.word_permit.specs.contracts.book.WordBook as book_contracts;
    ghost use Rattle.word_run.specs.Desks.{DeskState, IsDesk};

    ghost Value = { DeskState };

    ghost coded = { Prim.hlevel (codes, book_contracts.the_row.coded, mfa_contracts.the_row.coded, args_contracts.the_row.coded) };

    ghost view = { λ d. record { book = d.permit; posted = d.posters.items } };

    ghost invariant = { λ d. IsDesk (record { book = d.permit; posted = d.posters.items }) };
}

impl<K: Naming, N: RunName, T: TableName, I: InboxNames> Desk<K, N, T, I> {
    /// Whether all commands are done, and no area waits for its release.
    pub fn is_over(&self) -> bool
        ensures { result ≡ true → IsDone self.now }
    {
        self.permit.server().oldest_retired().is_none() && self.permit.all_done()
    }
}
