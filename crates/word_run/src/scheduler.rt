//! A scheduler, and a slice of its work over the shared words.

ghost use Rattle.std.specs.Prelude.{◌≡◌, ◌↔◌, ◌<◌, true, false, length, IfOk, OnOk, Some};
ghost use Rattle.word_permit.specs.Runs.{IsOverWords};
ghost use Rattle.word_run.specs.Desks.{HasHomes};
ghost use Rattle.word_run.specs.Loaders.{AreInboxes};
ghost use Rattle.word_run.specs.Names.{HasTable};
ghost use Rattle.word_run.specs.Rounds.{HasAnswers, IsIdle, NoneGoOn, RestsAt, StaysAnswered};
ghost use Rattle.word_run.specs.Schedulers.{Keeps};
ghost use Rattle.word_run.specs.SliceTurns.{HadItsLaps};
ghost use Rattle.word_run.specs.declared.scheduler.TheConstants.{SLICE_LAPS};

use crate::sight::Sight;
use crate::slicing::{RoundName, Slicing};
use code_law::{CodeLaw, Naming};
use inbox::{Inbox, InboxNames, Taker};
use shared_words::{Member, Shared};
use std::alloc::Global;
use std::sync::{Mutex, Wait};
use term_core::NoMemory;
use word_lap::{Newcomer, ProcessRun, TableName, begin_wait, end_wait, other_calls_keep_processes};
use word_permit::RunName;
use write_permit::Gate;

/// The laps of a slice.
pub const SLICE_LAPS: u32 = 16;

/// What a slice left to do.
#[derive(Clone, Copy, Debug, PartialEq, Eq)]
pub enum Slice {
    /// A process goes on, or a loader had a command left.
    Again,
    /// In the last lap none of its loaders had a next command and its inbox answered that it is empty, and no process was left.
    Idle,
}

/// The processes of one thread, with the token of its member.
#[derive(Drop)]
pub struct Scheduler<T: TableName, I: InboxNames> {
    pub(crate) alloc: Global,
    /// Its number, which is that of its member and of its inbox.
    pub(crate) number: u32,
    /// It is there between two calls; a turn takes it and gives it back.
    pub(crate) member: Option<Member>,
    /// Whether the member waits.
    pub(crate) waits: bool,
    /// The generation that the member holds.
    pub(crate) generation: u64,
    pub(crate) taker: Taker<Newcomer<T>, I>,
    /// Whether in its last lap none of its loaders had a next command.
    pub(crate) over: bool,
    /// Whether its inbox answered, when it was asked last, that it is empty. Each lap takes up to that answer.
    pub(crate) emptied: bool,
    /// The processes, each at the place of its number.
    pub(crate) processes: Vec<Option<ProcessRun>>,
}

/// Whether the process at a place goes on.
fn goes_on(place: &Option<ProcessRun>) -> bool
    ensures rests { result ≡ false → RestsAt place.now }
    ensures goes { result ≡ true → RestsAt place.now → ⊥ }
{
    match place {
        Some(run) => run.fin.is_none(),
        None => false,
    }
}

/// Whether some process goes on.
fn some_go_on(processes: &[Option<ProcessRun>]) -> bool
    ensures rest { result ≡ false → NoneGoOn processes.now }
    ensures some { result ≡ true → NoneGoOn processes.now → ⊥ }
{
    for place in processes {
        if goes_on(place) {
            return true;
        }
    }
    false
}

impl<T: TableName, I: InboxNames> Scheduler<T, I> {
    /// A scheduler before its first lap, whose member is awake and holds generation 0.
    pub fn new(
        alloc: Global,
        number: u32,
        member: Member,
        taker: Taker<Newcomer<T>, I>,
        processes: Vec<Option<ProcessRun>>,
    ) -> Scheduler<T, I>
        ensures number { result.number ≡ number }
        ensures member { result.member ≡ Some member }
        ensures waits { result.waits ≡ false }
        ensures generation { result.generation ≡ 0 }
        ensures taker { result.taker ≡ taker }
        ensures processes { result.processes ≡ processes }
    {
        Scheduler {
            alloc,
            number,
            member: Some(member),
            waits: false,
            generation: 0,
            taker,
            over: false,
            emptied: false,
            processes,
        }
    }

    /// Runs its loaders and processes for 16 laps over the shared words. In a lap it takes its inbox and learns the notes of what came, reports, makes one
    /// step of each of its loaders' commands, releases an area that nobody has any more, gives each process that goes on a turn under the generation that it
    /// holds then, and tries to lead.
    ///
    /// It takes memory and the lock; after `NoMemory` the run ends. No lock is taken in a turn.
    pub fn slice<K: Naming, N: RunName, E: RoundName, R: Wait, G: Gate>(
        &mut self,
        rt: &R,
        shared: &Shared<CodeLaw<K>>,
        desk: &Mutex<Slicing<K, N, T, I, E>>,
        sight: &Sight,
        inboxes: &[Inbox<Newcomer<T>, I>],
        gate: &G,
    ) -> Result<Slice, NoMemory>
        requires words { IsOverWords shared.now.table.shared.table_id shared.now.table.shared.key N.run }
        requires table { HasTable N.run T.table }
        requires homes { HasHomes E.began (length inboxes.now) }
        requires inboxes { AreInboxes inboxes.now }
        requires number { self.old.number < length inboxes.now }
        requires members { shared.now.table.shared.key.members ≡ length inboxes.now }
        requires exports { sight.now.exports ≡ K.names }
        requires kept { Keeps K.names shared.now.table.shared.table_id shared.now.table.shared.key self.old }
        ensures number { self.new.number ≡ self.old.number }
        ensures kept { OnOk result (Keeps K.names shared.now.table.shared.table_id shared.now.table.shared.key self.new) }
        // It was told of nothing meanwhile.
        ensures told { self.new.taker.told ≡ self.old.taker.told }
        // Each process that it had at its beginning had 16 turns, or fewer where it has ended; each that came meanwhile had at least one.
        ensures turns { OnOk result (HadItsLaps K.names SLICE_LAPS self.old self.new) }
        // What it was answered in its last lap, and that it is idle exactly where all three answers say so.
        ensures answers { OnOk result (HasAnswers E.answered (length inboxes.now) sight.now.loaders self.new) }
        ensures idle { IfOk result (λ slice. (slice ≡ Slice.Idle) ↔ IsIdle self.new) }
    {
        self.laps(rt, shared, desk, sight, inboxes, gate)?;
        self.go_to_wait(shared);
        Ok(self.left_to_do())
    }

    /// What is left to do behind a slice.
    fn left_to_do(&self) -> Slice
        ensures { (result ≡ Slice.Idle) ↔ IsIdle self.now }
    {
        if self.over && self.emptied && !some_go_on(self.processes.as_slice()) {
            Slice::Idle
        } else {
            Slice::Again
        }
    }

    /// The laps of a slice, where the member wakes first.
    fn laps<K: Naming, N: RunName, E: RoundName, R: Wait, G: Gate>(
        &mut self,
        rt: &R,
        shared: &Shared<CodeLaw<K>>,
        desk: &Mutex<Slicing<K, N, T, I, E>>,
        sight: &Sight,
        inboxes: &[Inbox<Newcomer<T>, I>],
        gate: &G,
    ) -> Result<(), NoMemory>
        requires words { IsOverWords shared.now.table.shared.table_id shared.now.table.shared.key N.run }
        requires table { HasTable N.run T.table }
        requires homes { HasHomes E.began (length inboxes.now) }
        requires inboxes { AreInboxes inboxes.now }
        requires number { self.old.number < length inboxes.now }
        requires members { shared.now.table.shared.key.members ≡ length inboxes.now }
        requires exports { sight.now.exports ≡ K.names }
        requires kept { Keeps K.names shared.now.table.shared.table_id shared.now.table.shared.key self.old }
        ensures number { self.new.number ≡ self.old.number }
        ensures told { self.new.taker.told ≡ self.old.taker.told }
        ensures kept { OnOk result (Keeps K.names shared.now.table.shared.table_id shared.now.table.shared.key self.new) }
        ensures turns { OnOk result (HadItsLaps K.names SLICE_LAPS self.old self.new) }
        ensures answers { OnOk result (HasAnswers E.answered (length inboxes.now) sight.now.loaders self.new) }
        ensures awake { OnOk result (self.new.waits ≡ false) }
    {
        self.wake_up(shared);
        for _ in 0..SLICE_LAPS {
            self.lap(rt, shared, desk, sight, inboxes, gate)?;
        }
        Ok(())
    }

    /// Ends the wait of the member, if it waits.
    fn wake_up<K: Naming>(&mut self, shared: &Shared<CodeLaw<K>>)
        requires kept { Keeps K.names shared.now.table.shared.table_id shared.now.table.shared.key self.old }
        ensures number { self.new.number ≡ self.old.number }
        ensures told { self.new.taker.told ≡ self.old.taker.told }
        ensures kept { Keeps K.names shared.now.table.shared.table_id shared.now.table.shared.key self.new }
        // No process had a turn.
        ensures turns { HadItsLaps K.names 0 self.old self.new }
        ensures awake { self.new.waits ≡ false }
    {
        if self.waits {
            other_calls_keep_processes();
            let Some(mut member) = self.member.take() else {
                unreachable!()
            };
            self.generation = end_wait(shared, &mut member);
            self.waits = false;
            self.member = Some(member);
        }
    }

    /// The member waits up to the next slice, and holds back no progress.
    fn go_to_wait<K: Naming>(&mut self, shared: &Shared<CodeLaw<K>>)
        requires kept { Keeps K.names shared.now.table.shared.table_id shared.now.table.shared.key self.old }
        requires awake { self.old.waits ≡ false }
        ensures number { self.new.number ≡ self.old.number }
        ensures kept { Keeps K.names shared.now.table.shared.table_id shared.now.table.shared.key self.new }
        // No process had a turn.
        ensures turns { HadItsLaps K.names 0 self.old self.new }
        ensures answers { StaysAnswered self.old self.new }
    {
        let Some(mut member) = self.member.take() else {
            unreachable!()
        };
        begin_wait(shared, &mut member);
        self.waits = true;
        self.member = Some(member);
    }
}
