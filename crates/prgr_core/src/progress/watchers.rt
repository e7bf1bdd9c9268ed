//! The events by which a watcher claims, reads and leaves.

ghost use Rattle.std.specs.Prelude.{◌≡◌, ◌↔◌, IsErrOf, OnOk, OnErr, Some, None};
ghost use Rattle.prgr_core.specs.declared.fault.StepFault.TheVariants.{NotEnabled, NoMemory};
ghost use Rattle.prgr_core.specs.declared.event.PrgrEvent.TheVariants as events;
ghost use Rattle.prgr_core.specs.Step.{after, IsSound};

use crate::fault::StepFault;
use crate::progress::Progress;
use crate::watcher::Delay;

/// A watcher loads the counter. Where it has raised the count of the same counter, or both counts,
/// it may read from now on; where the counter has gone on, it must raise the other count too.
pub fn watch_load(progress: &mut Progress, number: u32) -> Result<(), StepFault>
    ensures ok { OnOk result (after progress.old (events.WatchLoad number) ≡ Some progress.new) }
    ensures not_enabled { IsErrOf result NotEnabled ↔ (after progress.old (events.WatchLoad number) ≡ None) }
    ensures err { OnErr result (progress.new ≡ progress.old) }
    ensures memory { IsErrOf result NoMemory → ⊥ }
{
    match progress.watchers.get(number) {
        None => Err(StepFault::NotEnabled),
        Some(watcher) => {
            if !watcher.phase.may_look() {
                return Err(StepFault::NotEnabled);
            }
            let counter = progress.counter;
            progress.watchers.set(number, watcher.with_counter(counter));
            Ok(())
        }
    }
}

/// A watcher raises the delay count of the counter that it has loaded, or the one that it does not
/// hold yet.
pub fn watch_add(progress: &mut Progress, number: u32, which: u32) -> Result<(), StepFault>
    requires { IsSound progress.old }
    ensures ok { OnOk result (after progress.old (events.WatchAdd number which) ≡ Some progress.new) }
    ensures not_enabled { IsErrOf result NotEnabled ↔ (after progress.old (events.WatchAdd number which) ≡ None) }
    ensures err { OnErr result (progress.new ≡ progress.old) }
    ensures memory { IsErrOf result NoMemory → ⊥ }
{
    match progress.watchers.get(number) {
        None => Err(StepFault::NotEnabled),
        Some(watcher) => match Delay::numbered(which) {
            None => Err(StepFault::NotEnabled),
            Some(delay) => {
                if !watcher.phase.may_add(delay) {
                    return Err(StepFault::NotEnabled);
                }
                let raised = progress.delay_count(delay) + 1;
                progress.watchers.set(number, watcher.with_added(delay));
                progress.set_delay_count(delay, raised);
                Ok(())
            }
        },
    }
}

/// A watcher with a claim loads the root, and holds its generation from now on.
pub fn watch_root(progress: &mut Progress, number: u32) -> Result<(), StepFault>
    ensures ok { OnOk result (after progress.old (events.WatchRoot number) ≡ Some progress.new) }
    ensures not_enabled { IsErrOf result NotEnabled ↔ (after progress.old (events.WatchRoot number) ≡ None) }
    ensures err { OnErr result (progress.new ≡ progress.old) }
    ensures memory { IsErrOf result NoMemory → ⊥ }
{
    match progress.watchers.get(number) {
        None => Err(StepFault::NotEnabled),
        Some(watcher) => {
            if !watcher.phase.is_claimed() {
                return Err(StepFault::NotEnabled);
            }
            let generation = progress.generation;
            progress.watchers.set(number, watcher.with_root(generation));
            Ok(())
        }
    }
}

/// A watcher lowers a delay count that it holds. It reads no more.
pub fn watch_sub(progress: &mut Progress, number: u32, which: u32) -> Result<(), StepFault>
    requires { IsSound progress.old }
    ensures ok { OnOk result (after progress.old (events.WatchSub number which) ≡ Some progress.new) }
    ensures not_enabled { IsErrOf result NotEnabled ↔ (after progress.old (events.WatchSub number which) ≡ None) }
    ensures err { OnErr result (progress.new ≡ progress.old) }
    ensures memory { IsErrOf result NoMemory → ⊥ }
{
    match progress.watchers.get(number) {
        None => Err(StepFault::NotEnabled),
        Some(watcher) => match Delay::numbered(which) {
            None => Err(StepFault::NotEnabled),
            Some(delay) => {
                if !watcher.phase.may_leave() || !watcher.holds(delay) {
                    return Err(StepFault::NotEnabled);
                }
                let lowered = progress.delay_count(delay) - 1;
                progress.watchers.set(number, watcher.with_dropped(delay));
                progress.set_delay_count(delay, lowered);
                Ok(())
            }
        },
    }
}
