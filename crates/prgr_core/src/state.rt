//! A state of the machine, its single events and its runs.

ghost use Rattle.std.specs.Prelude.{◌≡◌, ◌≤◌, ◌↔◌, IsErrOf, IfOk, IfErr, OnOk, OnErr, Some, None};
ghost use Rattle.prgr_core.specs.declared.fault.StepFault.TheVariants.{NotEnabled};
ghost use Rattle.prgr_core.specs.declared.fault.StepFault.TheVariants as steps;
ghost use Rattle.prgr_core.specs.Step.{LacksMemory, after, after_all, progress_opening, opening_members, opening_watchers, StopsBy, IsSound, with_pair};

use crate::event::PrgrEvent;
use crate::fault::{NoMemory, ReplayFault, StepFault};
use crate::lists::{EventList, MemberList, NeedMap, RetirementList, WatcherList};
use crate::member::{Member, OPENING_COUNTER};
use crate::progress::{Progress, apply, keep_need};
use crate::watcher::Watcher;
use std::alloc::Global;
use std::marker::Model;

/// A state of the machine that meets the progress invariant.
#[derive(Debug, Drop)]
pub struct PrgrState {
    progress: Progress,
}

impl Model for PrgrState {
    ghost use Rattle.prgr_core.specs.declared.progress.Progress.{Progress};
    ghost use Rattle.prgr_core.specs.Step.{IsSound};

    ghost Value = { Progress };

    ghost view = { λ s. s.progress };

    ghost invariant = { λ s. IsSound s.progress };
}

impl PrgrState {
    /// The state in which a list of events begins: each member awake, holding generation 0, and
    /// each watcher idle.
    pub fn new(alloc: Global, members: u32, watchers: u32) -> Result<PrgrState, NoMemory>
        requires one { 1 ≤ members }
        requires few { members ≤ 16 }
        requires watched { watchers ≤ 4 }
        ensures ok { IfOk result (λ state. state ≡ progress_opening members watchers) }
        ensures sound { IfOk result (λ state. IsSound state) }
    {
        let members = opening_members(alloc, members)?;
        let watchers = opening_watchers(alloc, watchers)?;
        Ok(PrgrState {
            progress: Progress {
                counter: OPENING_COUNTER,
                generation: 0,
                leader: None,
                members,
                delay_even: 0,
                delay_odd: 0,
                watchers,
                needs: NeedMap::new(alloc),
                retired: RetirementList::new(alloc),
            },
        })
    }

    /// The progress counter.
    pub fn counter(&self) -> u64
        ensures { result ≡ self.now.counter }
    {
        self.progress.counter
    }

    /// The generation that the root has.
    pub fn generation(&self) -> u64
        ensures { result ≡ self.now.generation }
    {
        self.progress.generation
    }

    /// The members, in the order of their numbers.
    pub fn members(&self) -> &[Member]
        ensures { result.now ≡ self.now.members }
    {
        self.progress.members.as_slice()
    }

    /// The watchers, in the order of their numbers.
    pub fn watchers(&self) -> &[Watcher]
        ensures { result.now ≡ self.now.watchers }
    {
        self.progress.watchers.as_slice()
    }

    /// Keeps that the present generation needs two more values of the counter, as a retirement does,
    /// also where one of this generation is awaited already. What is awaited stays.
    pub fn keep_need(&mut self) -> Result<(), NoMemory>
        ensures ok { OnOk result (self.new ≡ with_pair self.old) }
        ensures err { OnErr result (self.new ≡ self.old) }
    {
        keep_need(&mut self.progress)
    }
}

/// As many members as begin, numbered from 0.
fn opening_members(alloc: Global, count: u32) -> Result<MemberList, NoMemory>
    ensures { IfOk result (λ members. members ≡ opening_members count) }
{
    let mut members = MemberList::new(alloc);
    for number in 0..count {
        members.push(Member::new(number))?;
    }
    Ok(members)
}

/// As many watchers as begin, numbered from 0.
fn opening_watchers(alloc: Global, count: u32) -> Result<WatcherList, NoMemory>
    ensures { IfOk result (λ watchers. watchers ≡ opening_watchers count) }
{
    let mut watchers = WatcherList::new(alloc);
    for number in 0..count {
        watchers.push(Watcher::new(number))?;
    }
    Ok(watchers)
}

/// Makes one event. Where it is not enabled, nothing changes, and neither does it where memory is
/// refused.
pub fn step(state: &mut PrgrState, event: PrgrEvent) -> Result<(), StepFault>
    ensures ok { OnOk result (after state.old event ≡ Some state.new) }
    ensures not_enabled { IsErrOf result NotEnabled ↔ (after state.old event ≡ None) }
    ensures err { OnErr result (state.new ≡ state.old) }
    ensures sound { IsSound state.new }
    // Memory is refused at a retirement alone, and at the last generation that there is.
    ensures memory { IsErrOf result steps.NoMemory → LacksMemory state.old event }
{
    apply(&mut state.progress, event)
}

/// Makes the events in turn, up to the first that is not enabled or finds no memory.
pub fn replay(state: &mut PrgrState, events: &EventList) -> Result<(), ReplayFault>
    ensures ok { OnOk result (after_all state.old events.now ≡ Some state.new) }
    ensures fault { IfErr result (λ fault. StopsBy state.old events.now fault state.new) }
{
    for (place, event) in events.as_slice().iter().enumerate() {
        let index = place as u64 + 1;
        match step(state, *event) {
            Ok(()) => {}
            Err(StepFault::NotEnabled) => return Err(ReplayFault::NotEnabled { index }),
            Err(StepFault::NoMemory) => return Err(ReplayFault::NoMemory { index }),
        }
    }
    Ok(())
}
