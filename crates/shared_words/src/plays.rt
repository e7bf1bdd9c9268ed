//! What each kind of step tells. These types are for the proofs alone.

ghost use Rattle.shared_words.specs.Kinds.{counter_loaded, root_loaded, confirmed, scanned, delay_scanned, raised, lead_taken, lead_dropped, waiting_stored, entering_stored, delay_raised, delay_lowered};
ghost use Rattle.shared_words.specs.Publishing.{word_stored, root_stored, word_loaded};
ghost use Rattle.shared_words.specs.Drops.{release_stored, root_dropped};
ghost use Rattle.shared_words.specs.Notes.{note_left, note_right, note_join};
ghost use Rattle.shared_words.specs.Making.{handed_on, handed_out, watcher_handed_out};
ghost use Rattle.shared_words.specs.Slots.{slot_stored, slot_loaded};
ghost use Rattle.shared_words.specs.Lingering.{lingering_loaded};
ghost use Rattle.shared_words.specs.Closing.{member_taken, members_seen, watcher_taken, watchers_seen, word_seen};

use crate::delays::Watched;
use crate::drops::Dropped;
use crate::law::Served;
use crate::lingering::Lingered;
use crate::notes::Spawned;
use crate::slots::Looking;
use crate::view::View;
use crate::writer::Next;
use atomic_table::{Join, Play, Split};
use std::marker::PhantomData;

/// A load of the counter.
pub struct LoadCounter;

impl Play<(), View> for LoadCounter {
    ghost then = { counter_loaded };
}

/// A load of the root.
pub struct LoadRoot<N> {
    marker: PhantomData<N>,
}

impl<N: Served> Play<(), View> for LoadRoot<N> {
    ghost then = { root_loaded N.served };
}

/// The store of a member's word after a report.
pub struct Confirm;

impl Play<(), View> for Confirm {
    ghost then = { confirmed };
}

/// A leader's load of the word of a member.
pub struct LoadConfirmed;

impl Play<(), View> for LoadConfirmed {
    ghost then = { scanned };
}

/// A leader's load of a delay count.
pub struct LoadDelay<K> {
    marker: PhantomData<K>,
}

impl<K: Watched> Play<(), View> for LoadDelay<K> {
    ghost then = { delay_scanned K.made };
}

/// A watcher raises a delay count.
pub struct AddDelay;

impl Play<(), View> for AddDelay {
    ghost then = { delay_raised };
}

/// A watcher lowers a delay count.
pub struct SubDelay;

impl Play<(), View> for SubDelay {
    ghost then = { delay_lowered };
}

/// The raise of the counter by its leader.
pub struct StoreCounter;

impl Play<(), View> for StoreCounter {
    ghost then = { raised };
}

/// An exchange of the leader's word where nobody leads.
pub struct TakeLead;

impl Play<(), View> for TakeLead {
    ghost then = { lead_taken };
}

/// The store of the leader's word by which nobody leads.
pub struct DropLead;

impl Play<(), View> for DropLead {
    ghost then = { lead_dropped };
}

/// The seat of the next member is taken from that of the writer.
pub struct HandOut;

impl Split<View> for HandOut {
    ghost left = { handed_on };

    ghost right = { handed_out };
}

/// The seat of the next watcher is taken from that of the writer.
pub struct HandOutWatcher;

impl Split<View> for HandOutWatcher {
    ghost left = { handed_on };

    ghost right = { watcher_handed_out };
}

/// The store by which a member begins to wait.
pub struct StoreWaiting;

impl Play<(), View> for StoreWaiting {
    ghost then = { waiting_stored };
}

/// The store by which a member ends its wait.
pub struct StoreEntering;

impl Play<(), View> for StoreEntering {
    ghost then = { entering_stored };
}

/// A store of the writer into a word of blocks.
pub struct StoreWord;

impl Play<(), View> for StoreWord {
    ghost then = { word_stored };
}

/// The store of the root by which the writer publishes what is next.
pub struct StoreRoot<M> {
    marker: PhantomData<M>,
}

impl<M: Next> Play<(), View> for StoreRoot<M> {
    ghost then = { root_stored M.next };
}

/// The store of 0 into a retire word by which the area that was picked is released.
pub struct StoreRelease<K> {
    marker: PhantomData<K>,
}

impl<K: Dropped> Play<(), View> for StoreRelease<K> {
    ghost then = { release_stored K.serial };
}

/// The store of the root by which the instance that was picked is dropped.
pub struct StoreRootDropping<M, K> {
    next: PhantomData<M>,
    dropped: PhantomData<K>,
}

impl<M: Next, K: Dropped> Play<(), View> for StoreRootDropping<M, K> {
    ghost then = { root_dropped M.next K.serial };
}

/// A load of a word of blocks.
pub struct LoadWord;

impl Play<(), View> for LoadWord {
    ghost then = { word_loaded };
}

/// The store of a word of the slot of a process.
pub struct StoreSlot;

impl Play<(), View> for StoreSlot {
    ghost then = { slot_stored };
}

/// A load of a word of a slot, as part of a look or outside every look.
pub struct LoadSlot<K> {
    marker: PhantomData<K>,
}

impl<K: Looking> Play<(), View> for LoadSlot<K> {
    ghost then = { slot_loaded K.look };
}

/// A note is split from the writer's seat.
pub struct SplitNote<K> {
    marker: PhantomData<K>,
}

impl<K: Spawned> Split<View> for SplitNote<K> {
    ghost left = { note_left K.process };

    ghost right = { note_right K.process };
}

/// A note is joined to a member's seat.
pub struct JoinNote;

impl Join<View> for JoinNote {
    ghost use Rattle.shared_words.specs.declared.view.View.TheVariants.{Spent};

    ghost both = { note_join };

    ghost spent = { Spent };
}

/// A member's seat is joined to the writer's.
pub struct TakeIn;

impl Join<View> for TakeIn {
    ghost use Rattle.shared_words.specs.declared.view.View.TheVariants.{Spent};

    ghost both = { member_taken };

    ghost spent = { Spent };
}

/// A watcher's seat is joined to the writer's.
pub struct TakeInWatcher;

impl Join<View> for TakeInWatcher {
    ghost use Rattle.shared_words.specs.declared.view.View.TheVariants.{Spent};

    ghost both = { watcher_taken };

    ghost spent = { Spent };
}

/// A load of the root, which tells what the watchers had learnt of that came in.
pub struct SeeWatchers;

impl Play<(), View> for SeeWatchers {
    ghost then = { watchers_seen };
}

/// The last load of the root, which tells what the writer knows of all members.
pub struct SeeMembers;

impl Play<(), View> for SeeMembers {
    ghost then = { members_seen };
}

/// A load of a word at the end of a table.
pub struct SeeWord;

impl Play<(), View> for SeeWord {
    ghost then = { word_seen };
}

/// A load of an anchor by which the writer keeps the answer that a process lingers.
pub struct LoadLingering<K> {
    marker: PhantomData<K>,
}

impl<K: Lingered> Play<(), View> for LoadLingering<K> {
    ghost then = { lingering_loaded K.serial K.turns };
}
