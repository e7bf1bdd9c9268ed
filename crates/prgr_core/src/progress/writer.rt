//! The events by which generations are published, retired and released.

ghost use Rattle.std.specs.Prelude.{◌≡◌, ◌↔◌, IsErrOf, OnOk, OnErr, Some, None};
ghost use Rattle.prgr_core.specs.declared.fault.StepFault.TheVariants.{NotEnabled, NoMemory};
ghost use Rattle.prgr_core.specs.declared.event.PrgrEvent.TheVariants as events;
ghost use Rattle.prgr_core.specs.Step.{after, with_pair, LacksMemory, IsSound};

use crate::fault::{self, StepFault};
use crate::member::Retirement;
use crate::progress::Progress;

/// The root takes the next generation. At the last number of a `u64` it is refused as want of
/// memory; no run of the machine gets there.
pub fn publish(progress: &mut Progress) -> Result<(), StepFault>
    ensures ok { OnOk result (after progress.old events.Publish ≡ Some progress.new) }
    ensures not_enabled { IsErrOf result NotEnabled ↔ (after progress.old events.Publish ≡ None) }
    ensures err { OnErr result (progress.new ≡ progress.old) }
    ensures memory { IsErrOf result NoMemory → LacksMemory progress.old events.Publish }
{
    if progress.generation == u64::MAX {
        return Err(StepFault::NoMemory);
    }
    progress.generation += 1;
    Ok(())
}

/// What the present generation no longer needs is retired: it needs two more values of the
/// counter.
pub fn retire(progress: &mut Progress) -> Result<(), StepFault>
    requires { IsSound progress.old }
    ensures ok { OnOk result (after progress.old events.Retire ≡ Some progress.new) }
    ensures not_enabled { IsErrOf result NotEnabled ↔ (after progress.old events.Retire ≡ None) }
    ensures err { OnErr result (progress.new ≡ progress.old) }
{
    let generation = progress.generation;
    if generation == 0 || progress.needs.get(generation).is_some() {
        return Err(StepFault::NotEnabled);
    }
    let need = progress.counter + 2;
    progress.retired.push(Retirement { generation, need })?;
    let kept = progress.needs.insert(generation, need);
    if kept.is_err() {
        progress.retired.remove_last();
        return Err(StepFault::NoMemory);
    }
    Ok(())
}

/// A retirement whose need the counter has reached is released.
pub fn release(progress: &mut Progress, generation: u64) -> Result<(), StepFault>
    ensures ok { OnOk result (after progress.old (events.Release generation) ≡ Some progress.new) }
    ensures not_enabled { IsErrOf result NotEnabled ↔ (after progress.old (events.Release generation) ≡ None) }
    ensures err { OnErr result (progress.new ≡ progress.old) }
    ensures memory { IsErrOf result NoMemory → ⊥ }
{
    match progress.needs.get(generation) {
        None => Err(StepFault::NotEnabled),
        Some(need) => {
            if progress.counter < need {
                return Err(StepFault::NotEnabled);
            }
            progress.needs.remove(generation);
            Ok(())
        }
    }
}

/// Keeps that the present generation needs two more values of the counter. What is awaited stays.
pub fn keep_need(progress: &mut Progress) -> Result<(), fault::NoMemory>
    requires { IsSound progress.old }
    ensures ok { OnOk result (progress.new ≡ with_pair progress.old) }
    ensures err { OnErr result (progress.new ≡ progress.old) }
{
    let retirement = Retirement {
        generation: progress.generation,
        need: progress.counter + 2,
    };
    progress.retired.push(retirement)
}
