//! The events that load a word, and those of notes.

ghost use Rattle.std.specs.Prelude.{◌≡◌, IsErrOf, OnOk, OnErr, Some, None};
ghost use Rattle.prgr_core.specs.declared.fault.StepFault.TheVariants.{NotEnabled};
ghost use Rattle.area_core.specs.declared.event.AreaEvent.TheVariants as events;
ghost use Rattle.area_core.specs.Step.{after, confirms, has_seat, progress_if, with_progress};
ghost use Rattle.prgr_core.specs.Step.{after as progress_after};

use super::progress::advance;
use crate::event::SeatName;
use crate::map::{ANCHORS, PROCESSES};
use crate::table::Table;
use prgr_core::{Loaded, PrgrEvent, StepFault};

/// A seat loads the counter.
pub fn load_counter(table: &mut Table, seat: SeatName) -> Result<(), StepFault>
    ensures ok { OnOk result (after table.old (events.LoadCounter seat) ≡ Some table.new) }
    ensures not_enabled { IsErrOf result NotEnabled → after table.old (events.LoadCounter seat) ≡ None }
    ensures err { OnErr result (table.new ≡ table.old) }
{
    match seat {
        SeatName::Writer => match table.progress.keep_need() {
            Ok(()) => Ok(()),
            Err(_) => Err(StepFault::NoMemory),
        },
        SeatName::Member(member) => advance(table, PrgrEvent::LoadCounter { member }),
        SeatName::Watcher(watcher) => advance(table, PrgrEvent::WatchLoad { watcher }),
    }
}

/// A seat loads the root. Where that is no event of the progress machine, nothing changes.
pub fn load_root(table: &mut Table, seat: SeatName) -> Result<(), StepFault>
    ensures ok { OnOk result (after table.old (events.LoadRoot seat) ≡ Some table.new) }
    ensures not_enabled { IsErrOf result NotEnabled → after table.old (events.LoadRoot seat) ≡ None }
    ensures err { OnErr result (table.new ≡ table.old) }
{
    if !has_seat(table, seat) {
        return Err(StepFault::NotEnabled);
    }
    match seat {
        SeatName::Writer => Ok(()),
        SeatName::Member(member) => reach_root(table, PrgrEvent::LoadRoot { member }),
        SeatName::Watcher(watcher) => reach_root(table, PrgrEvent::WatchRoot { watcher }),
    }
}

/// The event of a seat that loads the root, where there is one.
fn reach_root(table: &mut Table, event: PrgrEvent) -> Result<(), StepFault>
    ensures ok { OnOk result (table.new ≡ with_progress table.old (progress_if table.old.progress (progress_after table.old.progress event))) }
    ensures not_enabled { IsErrOf result NotEnabled → ⊥ }
    ensures err { OnErr result (table.new ≡ table.old) }
{
    match advance(table, event) {
        Ok(()) => Ok(()),
        Err(StepFault::NotEnabled) => Ok(()),
        Err(StepFault::NoMemory) => Err(StepFault::NoMemory),
    }
}

/// Whether there is such a seat.
fn has_seat(table: &Table, seat: SeatName) -> bool
    ensures { result ≡ has_seat table.now.progress seat }
{
    match seat {
        SeatName::Writer => true,
        SeatName::Member(member) => (member as usize) < table.progress.members().len(),
        SeatName::Watcher(watcher) => (watcher as usize) < table.progress.watchers().len(),
    }
}

/// A member confirms a value, which must be that after the counter it has loaded.
pub fn confirm(table: &mut Table, number: u32, value: u64) -> Result<(), StepFault>
    ensures ok { OnOk result (after table.old (events.Confirm number value) ≡ Some table.new) }
    ensures not_enabled { IsErrOf result NotEnabled → after table.old (events.Confirm number value) ≡ None }
    ensures err { OnErr result (table.new ≡ table.old) }
{
    match table.progress.members().get(number as usize).copied() {
        None => Err(StepFault::NotEnabled),
        Some(member) => {
            if !confirms(value, member.loaded) {
                return Err(StepFault::NotEnabled);
            }
            advance(table, PrgrEvent::Report { member: number })
        }
    }
}

/// Whether this value is that after the counter that was loaded before the root.
fn confirms(value: u64, loaded: Loaded) -> bool
    ensures { result ≡ confirms value loaded }
{
    match loaded {
        Loaded::Nothing => false,
        Loaded::Counter(_) => false,
        Loaded::CounterAndRoot(counter) => value != 0 && value - 1 == counter,
    }
}

/// The leader loads the delay count of the next value of the counter.
pub fn load_delay(table: &mut Table, member: u32, which: u32) -> Result<(), StepFault>
    ensures ok { OnOk result (after table.old (events.LoadDelay member which) ≡ Some table.new) }
    ensures not_enabled { IsErrOf result NotEnabled → after table.old (events.LoadDelay member which) ≡ None }
    ensures err { OnErr result (table.new ≡ table.old) }
{
    if u64::from(which) != (table.progress.counter() % 2 + 1) % 2 {
        return Err(StepFault::NotEnabled);
    }
    advance(table, PrgrEvent::ScanDelay { member })
}

/// A seat loads a word that it may read.
pub fn load_word(table: &mut Table, seat: SeatName, word: u32) -> Result<(), StepFault>
    ensures ok { OnOk result (after table.old (events.LoadWord seat word) ≡ Some table.new) }
    ensures not_enabled { IsErrOf result NotEnabled → after table.old (events.LoadWord seat word) ≡ None }
    ensures err { OnErr result (table.new ≡ table.old) }
{
    if table.may_read(seat, word) {
        Ok(())
    } else {
        Err(StepFault::NotEnabled)
    }
}

/// The writer makes a note for a process.
pub fn split_note(table: &mut Table, process: u32) -> Result<(), StepFault>
    ensures ok { OnOk result (after table.old (events.SplitNote process) ≡ Some table.new) }
    ensures not_enabled { IsErrOf result NotEnabled → after table.old (events.SplitNote process) ≡ None }
    ensures err { OnErr result (table.new ≡ table.old) }
{
    let _ = &table;
    if process < PROCESSES {
        Ok(())
    } else {
        Err(StepFault::NotEnabled)
    }
}

/// A member takes a note.
pub fn join_note(table: &mut Table, member: u32) -> Result<(), StepFault>
    ensures ok { OnOk result (after table.old (events.JoinNote member) ≡ Some table.new) }
    ensures not_enabled { IsErrOf result NotEnabled → after table.old (events.JoinNote member) ≡ None }
    ensures err { OnErr result (table.new ≡ table.old) }
{
    if has_seat(table, SeatName::Member(member)) {
        Ok(())
    } else {
        Err(StepFault::NotEnabled)
    }
}

/// The writer loads a word of a slot.
pub fn load_slot(table: &mut Table, process: u32, place: u32) -> Result<(), StepFault>
    ensures ok { OnOk result (after table.old (events.LoadSlot process place) ≡ Some table.new) }
    ensures not_enabled { IsErrOf result NotEnabled → after table.old (events.LoadSlot process place) ≡ None }
    ensures err { OnErr result (table.new ≡ table.old) }
{
    let _ = &table;
    if process < PROCESSES && place <= ANCHORS {
        Ok(())
    } else {
        Err(StepFault::NotEnabled)
    }
}
