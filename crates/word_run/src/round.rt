//! A round: a slice of each scheduler, in threads, over the desk as it lies when the round begins, and beside them a look of each observer.

ghost use Rattle.std.specs.Prelude.{◌≡◌, ◌<◌, ℕ, All, length, slice_index_or, Some};
ghost use Rattle.observers.specs.Observing.{Observes};
ghost use Rattle.word_permit.specs.Runs.{IsOverWords};
ghost use Rattle.word_run.specs.declared.seat.Seat.{Seat};
ghost use Rattle.word_run.specs.Desks.{AddsInSlices, HasHomes, IsSliceOf};
ghost use Rattle.word_run.specs.Loaders.{AreAnswers, AreInboxes, IsUnderLock};
ghost use Rattle.word_run.specs.Names.{HasTable};
ghost use Rattle.word_run.specs.Onlookers.{AreOnlookers, HadLook};
ghost use Rattle.word_run.specs.Places.{EachBecame};
ghost use Rattle.word_run.specs.Rounds.{CanGo, HadSlice, IsRun};

use crate::desk::Desk;
use crate::looking::look_all;
use crate::onlooker::Onlooker;
use crate::run::Run;
use crate::seat::Seat;
use crate::sight::Sight;
use crate::slicing::{RoundName, Slicing};
use code_law::{CodeLaw, Naming};
use inbox::{Inbox, InboxNames};
use run_log::MfaList;
use shared_words::Shared;
use std::alloc::Global;
use std::marker::{Brand, PhantomData};
use std::sync::{Mutex, Wait};
use std::thread;
use std::thread::{Threads, join};
use word_lap::{Newcomer, TableName};
use word_permit::RunName;
use write_permit::Gate;

/// A slice of each scheduler, and beside them a look of each observer that lacks snapshots, each in a thread of its own where one can be made. All have
/// ended when it returns. The journal that comes back is the one of before, and what was added in the round.
pub fn whole_round<K, N, T, I, R, G>(
    rt: &R,
    alloc: Global,
    gate: &G,
    functions: &MfaList,
    run: Run<K, N, T, I>,
) -> Run<K, N, T, I>
where
    K: Naming + Send + Sync,
    N: RunName + Send + Sync,
    T: TableName + Send + Sync,
    I: InboxNames + Send + Sync,
    R: Threads + Wait + Sync,
    G: Gate,
    requires words { IsOverWords run.shared.table.shared.table_id run.shared.table.shared.key N.run }
    requires table { HasTable N.run T.table }
    requires run { IsRun K.names run.desk.book.plain.script run.shared.table.shared.table_id run.shared.table.shared.key run.desk run.inboxes.items run.seats.items run.sight }
    requires onlookers { AreOnlookers K.names functions.now run.shared.table.shared.table_id run.desk.book.plain.script.observers run.onlookers.items }
    // Commands were made, each scheduler had its slice, and each observer its look.
    ensures adds { AddsInSlices run.desk result.desk }
    ensures seats { EachBecame (HadSlice K.names run.shared.table.shared.table_id run.shared.table.shared.key) run.seats.items result.seats.items }
    ensures onlookers { EachBecame (HadLook K.names functions.now run.shared.table.shared.table_id) run.onlookers.items result.onlookers.items }
    // All else is as before.
    ensures shared { result.shared ≡ run.shared }
    ensures inboxes { result.inboxes ≡ run.inboxes }
    ensures sight { result.sight ≡ run.sight }
{
    let Run {
        shared,
        desk,
        inboxes,
        seats,
        onlookers,
        sight,
    } = run;
    let (desk, onlookers, seats) = named_round::<K, N, T, I, Brand, R, G>(
        rt, alloc, &shared, desk, functions, &sight, &inboxes, gate, seats, onlookers,
    );
    Run {
        shared,
        desk,
        inboxes,
        seats,
        onlookers,
        sight,
    }
}

/// The same, where what lies on the desk has a name.
fn named_round<K, N, T, I, E, R, G>(
    rt: &R,
    alloc: Global,
    shared: &Shared<CodeLaw<K>>,
    desk: Desk<K, N, T, I>,
    functions: &MfaList,
    sight: &Sight,
    inboxes: &[Inbox<Newcomer<T>, I>],
    gate: &G,
    seats: Vec<Seat<T, I>>,
    onlookers: Vec<Onlooker>,
) -> (Desk<K, N, T, I>, Vec<Onlooker>, Vec<Seat<T, I>>)
where
    K: Naming + Send + Sync,
    N: RunName + Send + Sync,
    T: TableName + Send + Sync,
    I: InboxNames + Send + Sync,
    E: RoundName + Send + Sync,
    R: Threads + Wait + Sync,
    G: Gate,
    requires began { E.began ≡ Some desk }
    requires answers { AreAnswers E.began E.answered }
    requires homes { length inboxes.now ≡ length desk.posted }
    requires words { IsOverWords shared.now.table.shared.table_id shared.now.table.shared.key N.run }
    requires table { HasTable N.run T.table }
    requires inboxes { AreInboxes inboxes.now }
    requires exports { sight.now.exports ≡ K.names }
    requires members { shared.now.table.shared.key.members ≡ length inboxes.now }
    requires go { All (CanGo K.names shared.now.table.shared.table_id shared.now.table.shared.key (length inboxes.now)) seats.items }
    requires observe { All (λ onlooker. Observes K.names functions.now shared.now.table.shared.table_id onlooker.observer) onlookers.items }
    ensures adds { AddsInSlices desk result.0 }
    ensures onlookers { EachBecame (HadLook K.names functions.now shared.now.table.shared.table_id) onlookers.items result.1.items }
    ensures seats { EachBecame (HadSlice K.names shared.now.table.shared.table_id shared.now.table.shared.key) seats.items result.2.items }
{
    let desk = Mutex::new(Slicing::<K, N, T, I, E>::of_round(desk));
    let both = take_both(
        rt, alloc, shared, &desk, functions, sight, inboxes, gate, seats, onlookers,
    );
    (desk.into_inner().into_desk(), both.0, both.1)
}

impl<K: Naming, N: RunName, T: TableName, I: InboxNames, E: RoundName> Slicing<K, N, T, I, E> {
    /// What lies under the lock as a round begins.
    fn of_round(desk: Desk<K, N, T, I>) -> Slicing<K, N, T, I, E>
        requires { IsUnderLock E.began E.answered desk }
        ensures { result ≡ desk }
    {
        Slicing {
            desk,
            of: PhantomData,
        }
    }

    /// The desk as a round ends.
    fn into_desk(self) -> Desk<K, N, T, I>
        ensures { IsSliceOf E.began result }
    {
        self.desk
    }
}

/// A slice of each scheduler, and beside them a look of each observer, in threads. Where there is no observer no thread is made for them.
fn take_both<K, N, T, I, E, R, G>(
    rt: &R,
    alloc: Global,
    shared: &Shared<CodeLaw<K>>,
    desk: &Mutex<Slicing<K, N, T, I, E>>,
    functions: &MfaList,
    sight: &Sight,
    inboxes: &[Inbox<Newcomer<T>, I>],
    gate: &G,
    seats: Vec<Seat<T, I>>,
    onlookers: Vec<Onlooker>,
) -> (Vec<Onlooker>, Vec<Seat<T, I>>)
where
    K: Naming + Send + Sync,
    N: RunName + Send + Sync,
    T: TableName + Send + Sync,
    I: InboxNames + Send + Sync,
    E: RoundName + Send + Sync,
    R: Threads + Wait + Sync,
    G: Gate,
    requires homes { HasHomes E.began (length inboxes.now) }
    requires words { IsOverWords shared.now.table.shared.table_id shared.now.table.shared.key N.run }
    requires table { HasTable N.run T.table }
    requires inboxes { AreInboxes inboxes.now }
    requires exports { sight.now.exports ≡ K.names }
    requires members { shared.now.table.shared.key.members ≡ length inboxes.now }
    requires go { All (CanGo K.names shared.now.table.shared.table_id shared.now.table.shared.key (length inboxes.now)) seats.items }
    requires observe { All (λ onlooker. Observes K.names functions.now shared.now.table.shared.table_id onlooker.observer) onlookers.items }
    ensures onlookers { EachBecame (HadLook K.names functions.now shared.now.table.shared.table_id) onlookers.items result.0.items }
    ensures seats { EachBecame (HadSlice K.names shared.now.table.shared.table_id shared.now.table.shared.key) seats.items result.1.items }
{
    if onlookers.is_empty() {
        let seats = take_slices(rt, shared, desk, sight, inboxes, gate, seats);
        return (onlookers, seats);
    }
    let exports = &sight.exports;
    join(
        rt,
        move || -> Vec<Onlooker>
            requires exports { exports.now ≡ K.names }
            requires observe { All (λ onlooker. Observes K.names functions.now shared.now.table.shared.table_id onlooker.observer) onlookers.items }
        { look_all(rt, alloc, shared, functions, exports, onlookers) },
        move || -> Vec<Seat<T, I>>
            requires homes { HasHomes E.began (length inboxes.now) }
            requires words { IsOverWords shared.now.table.shared.table_id shared.now.table.shared.key N.run }
            requires table { HasTable N.run T.table }
            requires inboxes { AreInboxes inboxes.now }
            requires exports { sight.now.exports ≡ K.names }
            requires members { shared.now.table.shared.key.members ≡ length inboxes.now }
            requires go { All (CanGo K.names shared.now.table.shared.table_id shared.now.table.shared.key (length inboxes.now)) seats.items }
        { take_slices(rt, shared, desk, sight, inboxes, gate, seats) },
    )
}

/// A slice of each of these schedulers.
fn take_slices<K, N, T, I, E, R, G>(
    rt: &R,
    shared: &Shared<CodeLaw<K>>,
    desk: &Mutex<Slicing<K, N, T, I, E>>,
    sight: &Sight,
    inboxes: &[Inbox<Newcomer<T>, I>],
    gate: &G,
    seats: Vec<Seat<T, I>>,
) -> Vec<Seat<T, I>>
where
    K: Naming + Send + Sync,
    N: RunName + Send + Sync,
    T: TableName + Send + Sync,
    I: InboxNames + Send + Sync,
    E: RoundName + Send + Sync,
    R: Threads + Wait + Sync,
    G: Gate,
    requires homes { HasHomes E.began (length inboxes.now) }
    requires words { IsOverWords shared.now.table.shared.table_id shared.now.table.shared.key N.run }
    requires table { HasTable N.run T.table }
    requires inboxes { AreInboxes inboxes.now }
    requires exports { sight.now.exports ≡ K.names }
    requires members { shared.now.table.shared.key.members ≡ length inboxes.now }
    requires go { All (CanGo K.names shared.now.table.shared.table_id shared.now.table.shared.key (length inboxes.now)) seats.items }
    ensures { EachBecame (HadSlice K.names shared.now.table.shared.table_id shared.now.table.shared.key) seats.items result.items }
{
    let mut seats = seats;
    take_round(rt, shared, desk, sight, inboxes, gate, &mut seats);
    seats
}

/// A slice of each scheduler, in threads.
fn take_round<K, N, T, I, E, R, G>(
    rt: &R,
    shared: &Shared<CodeLaw<K>>,
    desk: &Mutex<Slicing<K, N, T, I, E>>,
    sight: &Sight,
    inboxes: &[Inbox<Newcomer<T>, I>],
    gate: &G,
    seats: &mut [Seat<T, I>],
)
where
    K: Naming + Send + Sync,
    N: RunName + Send + Sync,
    T: TableName + Send + Sync,
    I: InboxNames + Send + Sync,
    E: RoundName + Send + Sync,
    R: Threads + Wait + Sync,
    G: Gate,
    requires homes { HasHomes E.began (length inboxes.now) }
    requires words { IsOverWords shared.now.table.shared.table_id shared.now.table.shared.key N.run }
    requires table { HasTable N.run T.table }
    requires inboxes { AreInboxes inboxes.now }
    requires exports { sight.now.exports ≡ K.names }
    requires members { shared.now.table.shared.key.members ≡ length inboxes.now }
    requires go { All (CanGo K.names shared.now.table.shared.table_id shared.now.table.shared.key (length inboxes.now)) seats.old }
    ensures { (k : ℕ) (seat : Seat T I) → k < length seats.old → HadSlice K.names shared.now.table.shared.table_id shared.now.table.shared.key (slice_index_or seats.old k seat) (slice_index_or seats.new k seat) }
{
    if seats.is_empty() {
        return;
    }
    thread::for_each_mut(
        rt,
        seats,
        seats.len(),
        &|_: usize, seat: &mut Seat<T, I>|
            requires homes { HasHomes E.began (length inboxes.now) }
            requires words { IsOverWords shared.now.table.shared.table_id shared.now.table.shared.key N.run }
            requires table { HasTable N.run T.table }
            requires inboxes { AreInboxes inboxes.now }
            requires exports { sight.now.exports ≡ K.names }
            requires members { shared.now.table.shared.key.members ≡ length inboxes.now }
            requires go { CanGo K.names shared.now.table.shared.table_id shared.now.table.shared.key (length inboxes.now) seat.now }
        { take_slice(rt, shared, desk, sight, inboxes, gate, seat) },
    );
}

/// A slice of one scheduler.
fn take_slice<K: Naming, N: RunName, T: TableName, I: InboxNames, E: RoundName, R: Wait, G: Gate>(
    rt: &R,
    shared: &Shared<CodeLaw<K>>,
    desk: &Mutex<Slicing<K, N, T, I, E>>,
    sight: &Sight,
    inboxes: &[Inbox<Newcomer<T>, I>],
    gate: &G,
    seat: &mut Seat<T, I>,
)
    requires homes { HasHomes E.began (length inboxes.now) }
    requires words { IsOverWords shared.now.table.shared.table_id shared.now.table.shared.key N.run }
    requires table { HasTable N.run T.table }
    requires inboxes { AreInboxes inboxes.now }
    requires exports { sight.now.exports ≡ K.names }
    requires members { shared.now.table.shared.key.members ≡ length inboxes.now }
    requires go { CanGo K.names shared.now.table.shared.table_id shared.now.table.shared.key (length inboxes.now) seat.old }
    ensures { HadSlice K.names shared.now.table.shared.table_id shared.now.table.shared.key seat.old seat.new }
{
    seat.answer = seat.scheduler.slice(rt, shared, desk, sight, inboxes, gate);
}
