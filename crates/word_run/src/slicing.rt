//! What lies under the lock while slices run: a desk, of which it is known what it was when the round began.

use crate::desk::Desk;
use code_law::Naming;
use inbox::InboxNames;
use std::marker::{Brand, Model, PhantomData};
use word_lap::TableName;
use word_permit::RunName;

/// What lay on the desk when a round began, and what its loaders answer in the round. Who begins the round picks both: a lock tells nothing of what lay under it
/// before, and a slice, which does not know what the answers are, has one of a loader only from a desk that lay there.
pub trait RoundName {
    ghost use Rattle.std.specs.Prelude.{ℕ, Bool, Option};
    ghost use Rattle.word_run.specs.Desks.{DeskState};

    ghost began: { Option DeskState };

    ghost answered: { ℕ → Bool → Type 0 };
}

impl RoundName for Brand {
    ghost use Rattle.std.specs.Prelude.{None};

    ghost began = { None };

    ghost answered = { λ who over. ⊥ };
}

/// The desk of a run in a round: since the round began entries may have joined, and its homes are as many as then.
#[derive(Drop)]
pub struct Slicing<K: Naming, N: RunName, T: TableName, I: InboxNames, E: RoundName> {
    pub(crate) desk: Desk<K, N, T, I>,
    pub(crate) of: PhantomData<E>,
}

impl<K: Naming, N: RunName, T: TableName, I: InboxNames, E: RoundName> Model
    for Slicing<K, N, T, I, E> {
    ghost use Rattle.std.specs.Coded.{codes};
    ghost use Rattle.term_core.specs.contracts.atom.Mfa as mfa_contracts;
    ghost use Rattle.term_core.specs.contracts.term.TermList as args_contracts;
    ghost use Rattle.word_permit.specs.contracts.book.WordBook as book_contracts;
    ghost use Rattle.word_run.specs.Desks.{DeskState};
    ghost use Rattle.word_run.specs.Loaders.{IsUnderLock};

    ghost Value = { DeskState };

    ghost coded = { Prim.hlevel (codes, book_contracts.the_row.coded, mfa_contracts.the_row.coded, args_contracts.the_row.coded) };

    ghost view = { λ s. s.desk };

    ghost invariant = { λ s. IsUnderLock E.began E.answered s.desk };
}

impl<K: Naming, N: RunName, T: TableName, I: InboxNames, E: RoundName> Slicing<K, N, T, I, E> {
    ghost use Rattle.word_run.specs.Loaders.{IsUnderLock};

    /// What the type keeps is known of it.
    pub fn stands(&self)
        ensures { IsUnderLock E.began E.answered self.now }
    {
        let _homes = self.desk.posters.len();
    }
}
