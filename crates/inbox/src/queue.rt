//! The inbox itself, which both ends share.
ghost use Rattle.std.specs.Prelude.{◌≡◌, IfErr, OnOk, OnErr, MatchOption};
ghost use mathlib.Core.List.{IsPrefix};
ghost use Rattle.inbox.specs.Ends.{IsSettled, heard, posted, took};

use crate::ends::{Poster, Taker};
use crate::names::InboxNames;
use crate::rule::{Dealing, Fair, Posted, Receipt, Settling, Taken, Telling};
use crossbeam_queue::RuledSegQueue;
use std::marker::{Model, PhantomData};
use std::sync::Wait;

// A queue that is ended where it is dropped.
pub(crate) struct Line<T: Drop> {
    pub(crate) ruled: RuledSegQueue<T, Dealing<T>, Fair>,
}

impl<T: Drop> Drop for Line<T> {
    fn drop(self) {
        let Self { ruled } = self;
        ruled.destroy();
    }
}

/// What is posted in one thread and taken in another. Contracts see its number.
///
/// What was taken is the beginning of what was posted: each item once, in the order of the posts.
#[derive(Drop)]
pub struct Inbox<T: Drop, N: InboxNames> {
    pub(crate) number: u32,
    pub(crate) line: Line<T>,
    pub(crate) of: PhantomData<N>,
}

impl<T: Drop, N: InboxNames> Model for Inbox<T, N> {
    ghost use Rattle.std.specs.Prelude.{◌≡◌, ℕ, Some};

    ghost Value = { ℕ };

    ghost view = { λ i. i.number };

    ghost invariant = { λ i. N.queue i.number ≡ Some i.line.ruled };
}

impl<T: Drop, N: InboxNames> Inbox<T, N> {
    /// The number of the inbox.
    pub fn number(&self) -> u32
        ensures { result ≡ self.now }
    {
        self.number
    }

    /// Posts one item. Where memory is refused it comes back. It may wait for another thread in the same step.
    pub fn post<R: Wait>(&self, rt: &R, poster: &mut Poster<T, N>, item: T) -> Result<(), T>
        requires { poster.old.number ≡ self.now }
        ensures ok { OnOk result (poster.new ≡ posted poster.old item) }
        ensures err { OnErr result (poster.new ≡ poster.old) }
        ensures back { IfErr result (λ back. back ≡ item) }
    {
        self.line
            .ruled
            .push_as::<Posted, R>(rt, &mut poster.pass, item)
    }

    /// Takes the oldest item that is left. Where there is none, all that the taker was told of was taken.
    pub fn take<R: Wait>(&self, rt: &R, taker: &mut Taker<T, N>) -> Option<T>
        requires { taker.old.number ≡ self.now }
        ensures taken { MatchOption result (taker.new ≡ taker.old) (λ item. taker.new ≡ took taker.old item) }
        ensures empty { MatchOption result (IsPrefix taker.old.told taker.old.taken) (λ _. Unit {0}) }
    {
        self.line.ruled.pop_as::<Taken, R>(rt, &mut taker.pass)
    }

    /// Tells the taker of all that was posted so far. It may wait for another thread in the same step.
    pub fn tell<R: Wait>(&self, rt: &R, poster: &mut Poster<T, N>, taker: &mut Taker<T, N>)
        requires poster { poster.old.number ≡ self.now }
        requires taker { taker.old.number ≡ self.now }
        ensures poster { poster.new ≡ poster.old }
        ensures taker { taker.new ≡ heard taker.old poster.old.put }
        // What was taken was posted.
        ensures posted { IsPrefix taker.old.taken poster.old.put }
    {
        let news = self.line.ruled.another::<Telling>(&mut poster.pass);
        self.line.ruled.absorb::<Telling>(&mut taker.pass, news);
        let receipt = self.line.ruled.another::<Receipt>(&mut taker.pass);
        self.line.ruled.absorb::<Telling>(&mut poster.pass, receipt);
        self.line.ruled.len_as::<Receipt, R>(rt, &mut poster.pass);
    }

    /// Brings the ends together, and answers how many items are left.
    pub fn settle<R: Wait>(&self, rt: &R, poster: Poster<T, N>, taker: Taker<T, N>) -> usize
        requires poster { poster.number ≡ self.now }
        requires taker { taker.number ≡ self.now }
        ensures { IsSettled poster.put taker.taken result }
    {
        let Poster { pass: mut both, .. } = poster;
        let Taker { pass: other, .. } = taker;
        self.line.ruled.absorb::<Settling>(&mut both, other);
        self.line.ruled.len_as::<Settling, R>(rt, &mut both)
    }
}
