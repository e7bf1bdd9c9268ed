//! The events by which a member reports, waits and ends its wait.

ghost use Rattle.std.specs.Prelude.{◌≡◌, ◌↔◌, IsErrOf, OnOk, OnErr, Some, None};
ghost use Rattle.prgr_core.specs.declared.fault.StepFault.TheVariants.{NotEnabled, NoMemory};
ghost use Rattle.prgr_core.specs.declared.event.PrgrEvent.TheVariants as events;
ghost use Rattle.prgr_core.specs.Step.{after, IsSound};

use crate::fault::StepFault;
use crate::member::{ENTERING, Loaded, WAITING};
use crate::progress::Progress;

/// A member that does not wait loads the counter.
pub fn load_counter(progress: &mut Progress, number: u32) -> Result<(), StepFault>
    ensures ok { OnOk result (after progress.old (events.LoadCounter number) ≡ Some progress.new) }
    ensures not_enabled { IsErrOf result NotEnabled ↔ (after progress.old (events.LoadCounter number) ≡ None) }
    ensures err { OnErr result (progress.new ≡ progress.old) }
    ensures memory { IsErrOf result NoMemory → ⊥ }
{
    match progress.members.get(number) {
        None => Err(StepFault::NotEnabled),
        Some(member) => {
            if member.word == WAITING {
                return Err(StepFault::NotEnabled);
            }
            let counter = progress.counter;
            progress.members.set(number, member.with_counter(counter));
            Ok(())
        }
    }
}

/// A member that has loaded the counter loads the root.
pub fn load_root(progress: &mut Progress, number: u32) -> Result<(), StepFault>
    ensures ok { OnOk result (after progress.old (events.LoadRoot number) ≡ Some progress.new) }
    ensures not_enabled { IsErrOf result NotEnabled ↔ (after progress.old (events.LoadRoot number) ≡ None) }
    ensures err { OnErr result (progress.new ≡ progress.old) }
    ensures memory { IsErrOf result NoMemory → ⊥ }
{
    match progress.members.get(number) {
        None => Err(StepFault::NotEnabled),
        Some(member) => {
            if !member.has_loaded() {
                return Err(StepFault::NotEnabled);
            }
            let generation = progress.generation;
            progress.members.set(number, member.with_root(generation));
            Ok(())
        }
    }
}

/// A member that has loaded the counter and then the root confirms the value after that counter.
pub fn report(progress: &mut Progress, number: u32) -> Result<(), StepFault>
    requires { IsSound progress.old }
    ensures ok { OnOk result (after progress.old (events.Report number) ≡ Some progress.new) }
    ensures not_enabled { IsErrOf result NotEnabled ↔ (after progress.old (events.Report number) ≡ None) }
    ensures err { OnErr result (progress.new ≡ progress.old) }
    ensures memory { IsErrOf result NoMemory → ⊥ }
{
    match progress.members.get(number) {
        None => Err(StepFault::NotEnabled),
        Some(member) => match member.loaded {
            Loaded::Nothing => Err(StepFault::NotEnabled),
            Loaded::Counter(_) => Err(StepFault::NotEnabled),
            Loaded::CounterAndRoot(counter) => {
                progress.members.set(number, member.with_word(counter + 1));
                Ok(())
            }
        },
    }
}

/// A member that does not lead begins to wait.
pub fn wait(progress: &mut Progress, number: u32) -> Result<(), StepFault>
    ensures ok { OnOk result (after progress.old (events.Wait number) ≡ Some progress.new) }
    ensures not_enabled { IsErrOf result NotEnabled ↔ (after progress.old (events.Wait number) ≡ None) }
    ensures err { OnErr result (progress.new ≡ progress.old) }
    ensures memory { IsErrOf result NoMemory → ⊥ }
{
    match progress.members.get(number) {
        None => Err(StepFault::NotEnabled),
        Some(member) => {
            if !member.is_awake() || member.leads() {
                return Err(StepFault::NotEnabled);
            }
            progress.members.set(number, member.with_word(WAITING));
            Ok(())
        }
    }
}

/// A member ends its wait. It holds nothing until it has loaded counter and root.
pub fn enter(progress: &mut Progress, number: u32) -> Result<(), StepFault>
    ensures ok { OnOk result (after progress.old (events.Enter number) ≡ Some progress.new) }
    ensures not_enabled { IsErrOf result NotEnabled ↔ (after progress.old (events.Enter number) ≡ None) }
    ensures err { OnErr result (progress.new ≡ progress.old) }
    ensures memory { IsErrOf result NoMemory → ⊥ }
{
    match progress.members.get(number) {
        None => Err(StepFault::NotEnabled),
        Some(member) => {
            if member.word != WAITING {
                return Err(StepFault::NotEnabled);
            }
            progress.members.set(number, member.with_word(ENTERING));
            Ok(())
        }
    }
}
