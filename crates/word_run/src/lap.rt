//! A lap of a scheduler.

ghost use Rattle.std.specs.Prelude.{◌≡◌, ◌<◌, true, false, length, OnOk, Some};
ghost use Rattle.word_permit.specs.Runs.{IsOverWords};
ghost use Rattle.word_run.specs.Desks.{HasHomes};
ghost use Rattle.word_run.specs.Loaders.{AreInboxes};
ghost use Rattle.word_run.specs.Names.{HasTable};
ghost use Rattle.word_run.specs.Rounds.{HasAnswers, HasTakenTold, StaysAnswered};
ghost use Rattle.word_run.specs.Schedulers.{Keeps};
ghost use Rattle.word_run.specs.SliceTurns.{HadOneTurn, HadItsLaps, HasArrived};

use crate::loaders::step_loaders;
use crate::releasing::pump;
use crate::scheduler::Scheduler;
use crate::sight::Sight;
use crate::slicing::{RoundName, Slicing};
use code_law::{CodeLaw, Naming};
use inbox::{Inbox, InboxNames};
use shared_words::Shared;
use std::sync::{Mutex, Wait};
use term_core::NoMemory;
use word_lap::{
    Newcomer, TableName, catch_up, other_calls_keep_processes, take_in, take_turns, try_lead,
};
use word_permit::RunName;
use write_permit::{Gate, Place};

impl<T: TableName, I: InboxNames> Scheduler<T, I> {
    /// One lap.
    pub fn lap<K: Naming, N: RunName, E: RoundName, R: Wait, G: Gate>(
        &mut self,
        rt: &R,
        shared: &Shared<CodeLaw<K>>,
        desk: &Mutex<Slicing<K, N, T, I, E>>,
        sight: &Sight,
        inboxes: &[Inbox<Newcomer<T>, I>],
        gate: &G,
    ) -> Result<(), NoMemory>
        requires words { IsOverWords shared.now.table.shared.table_id shared.now.table.shared.key N.run }
        requires table { HasTable N.run T.table }
        requires homes { HasHomes E.began (length inboxes.now) }
        requires inboxes { AreInboxes inboxes.now }
        requires number { self.old.number < length inboxes.now }
        requires members { shared.now.table.shared.key.members ≡ length inboxes.now }
        requires exports { sight.now.exports ≡ K.names }
        requires kept { Keeps K.names shared.now.table.shared.table_id shared.now.table.shared.key self.old }
        requires awake { self.old.waits ≡ false }
        ensures number { self.new.number ≡ self.old.number }
        ensures kept { OnOk result (Keeps K.names shared.now.table.shared.table_id shared.now.table.shared.key self.new) }
        ensures told { self.new.taker.told ≡ self.old.taker.told }
        // Each process that it had, and each that came, had one turn, where it went on.
        ensures turns { OnOk result (HadItsLaps K.names 1 self.old self.new) }
        ensures answers { OnOk result (HasAnswers E.answered (length inboxes.now) sight.now.loaders self.new) }
        ensures awake { OnOk result (self.new.waits ≡ false) }
    {
        self.arrive(rt, shared, inboxes);
        gate.at(Place::Reported, self.number);
        self.over = step_loaders(
            self.alloc,
            rt,
            shared,
            desk,
            inboxes,
            gate,
            self.number,
            sight.loaders,
        )?;
        pump(rt, shared, desk, gate, self.number)?;
        self.turns_of_lap(shared, sight, gate)
    }

    /// Takes its inbox, and reports.
    fn arrive<K: Naming, R: Wait>(
        &mut self,
        rt: &R,
        shared: &Shared<CodeLaw<K>>,
        inboxes: &[Inbox<Newcomer<T>, I>],
    )
        requires table { T.table ≡ Some shared.now.table.shared.table_id }
        requires inboxes { AreInboxes inboxes.now }
        requires number { self.old.number < length inboxes.now }
        requires members { shared.now.table.shared.key.members ≡ length inboxes.now }
        requires kept { Keeps K.names shared.now.table.shared.table_id shared.now.table.shared.key self.old }
        requires awake { self.old.waits ≡ false }
        ensures number { self.new.number ≡ self.old.number }
        ensures kept { Keeps K.names shared.now.table.shared.table_id shared.now.table.shared.key self.new }
        ensures awake { self.new.waits ≡ false }
        // Processes came, and none had a turn.
        ensures arrived { HasArrived K.names self.old self.new }
        // The inbox answered that it is empty: by that all that the scheduler was told of is taken, and it was told of nothing meanwhile.
        ensures emptied { self.new.emptied ≡ true }
        ensures taken { self.new.emptied ≡ true → HasTakenTold self.new }
        ensures told { self.new.taker.told ≡ self.old.taker.told }
    {
        let Some(mut member) = self.member.take() else {
            unreachable!()
        };
        other_calls_keep_processes();
        let inbox = &inboxes[self.number as usize];
        self.emptied = take_in(
            self.alloc,
            rt,
            shared,
            inbox,
            &mut member,
            &mut self.taker,
            self.processes.as_mut_slice(),
        );
        self.generation = catch_up(rt, shared, &mut member, self.generation);
        self.member = Some(member);
    }

    /// The turns of a lap, and the attempt to lead behind them.
    fn turns_of_lap<K: Naming, G: Gate>(
        &mut self,
        shared: &Shared<CodeLaw<K>>,
        sight: &Sight,
        gate: &G,
    ) -> Result<(), NoMemory>
        requires exports { sight.now.exports ≡ K.names }
        requires kept { Keeps K.names shared.now.table.shared.table_id shared.now.table.shared.key self.old }
        requires awake { self.old.waits ≡ false }
        ensures number { self.new.number ≡ self.old.number }
        ensures told { self.new.taker.told ≡ self.old.taker.told }
        // Each process that goes on had one turn.
        ensures turns { OnOk result (HadOneTurn K.names self.old self.new) }
        ensures answers { OnOk result (StaysAnswered self.old self.new) }
        ensures kept { OnOk result (Keeps K.names shared.now.table.shared.table_id shared.now.table.shared.key self.new) }
        ensures awake { OnOk result (self.new.waits ≡ false) }
    {
        let Some(member) = self.member.take() else {
            unreachable!()
        };
        let (mut member, turned) = take_turns(
            self.alloc,
            shared,
            gate,
            self.number,
            member,
            &sight.exports,
            self.generation,
            &mut self.processes,
        );
        turned?;
        other_calls_keep_processes();
        try_lead(shared, &mut member);
        self.member = Some(member);
        Ok(())
    }
}
