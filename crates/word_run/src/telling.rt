//! What the schedulers are told of between two rounds.

ghost use Rattle.std.specs.Prelude.{◌≡◌, length};
ghost use Rattle.word_run.specs.Loaders.{AreEnds, AreInboxes};
ghost use Rattle.word_run.specs.Rounds.{HaveTakers};
ghost use Rattle.word_run.specs.Told.{HaveHeard, heard_seat};

use crate::desk::Desk;
use crate::seat::Seat;
use code_law::Naming;
use inbox::{Inbox, InboxNames, Poster};
use std::sync::Wait;
use word_lap::{Newcomer, TableName};
use word_permit::RunName;

impl<K: Naming, N: RunName, T: TableName, I: InboxNames> Desk<K, N, T, I> {
    /// Tells each of these schedulers of all that was posted to it so far. Between two rounds no other thread is in a step of an inbox, so none is waited for.
    pub fn tell<R: Wait>(
        &mut self,
        rt: &R,
        inboxes: &[Inbox<Newcomer<T>, I>],
        seats: &mut [Seat<T, I>],
    )
        requires inboxes { AreInboxes inboxes.now }
        requires takers { HaveTakers seats.old }
        requires many { length inboxes.now ≡ length seats.old }
        requires homes { length self.old.posted ≡ length seats.old }
        ensures desk { self.new ≡ self.old }
        ensures seats { HaveHeard self.old.posted seats.old seats.new }
    {
        tell_all(rt, inboxes, &mut self.posters, seats);
    }
}

/// The same, with the ends that post apart.
fn tell_all<T: TableName, I: InboxNames, R: Wait>(
    rt: &R,
    inboxes: &[Inbox<Newcomer<T>, I>],
    posters: &mut [Poster<Newcomer<T>, I>],
    seats: &mut [Seat<T, I>],
)
    requires inboxes { AreInboxes inboxes.now }
    requires ends { AreEnds posters.old }
    requires takers { HaveTakers seats.old }
    requires many { length inboxes.now ≡ length seats.old }
    requires homes { length posters.old ≡ length seats.old }
    ensures posters { posters.new ≡ posters.old }
    ensures seats { HaveHeard posters.old seats.old seats.new }
{
    for home in 0..inboxes.len() {
        tell_seat(rt, &inboxes[home], &mut posters[home], &mut seats[home]);
    }
}

/// Tells a scheduler of all that was posted to its inbox so far.
fn tell_seat<T: TableName, I: InboxNames, R: Wait>(
    rt: &R,
    inbox: &Inbox<Newcomer<T>, I>,
    poster: &mut Poster<Newcomer<T>, I>,
    seat: &mut Seat<T, I>,
)
    requires poster { poster.old.number ≡ inbox.now }
    requires taker { seat.old.scheduler.taker.number ≡ inbox.now }
    ensures poster { poster.new ≡ poster.old }
    ensures seat { seat.new ≡ heard_seat seat.old poster.old.put }
{
    inbox.tell(rt, poster, &mut seat.scheduler.taker);
}
