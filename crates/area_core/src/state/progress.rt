//! Events of the progress machine, which leave the words as they are.

ghost use Rattle.std.specs.Prelude.{◌≡◌, IsErrOf, OnOk, OnErr, Some, None};
ghost use Rattle.prgr_core.specs.declared.event.PrgrEvent.TheVariants as events;
ghost use Rattle.prgr_core.specs.declared.fault.StepFault.TheVariants.{NotEnabled};
ghost use Rattle.area_core.specs.Step.{after_progress};

use crate::table::Table;
use prgr_core::{PrgrEvent, StepFault, step};

/// Makes an event of the progress machine.
pub fn advance(table: &mut Table, event: PrgrEvent) -> Result<(), StepFault>
    ensures ok { OnOk result (after_progress table.old event ≡ Some table.new) }
    ensures not_enabled { IsErrOf result NotEnabled → after_progress table.old event ≡ None }
    ensures err { OnErr result (table.new ≡ table.old) }
{
    step(&mut table.progress, event)
}

/// The leading member looks at what another confirmed.
pub fn scan(table: &mut Table, member: u32, other: u32) -> Result<(), StepFault>
    ensures ok { OnOk result (after_progress table.old (events.Scan member other) ≡ Some table.new) }
    ensures not_enabled { IsErrOf result NotEnabled → after_progress table.old (events.Scan member other) ≡ None }
    ensures err { OnErr result (table.new ≡ table.old) }
{
    advance(table, PrgrEvent::Scan { member, other })
}

/// The leading member raises the counter.
pub fn raise_counter(table: &mut Table, member: u32) -> Result<(), StepFault>
    ensures ok { OnOk result (after_progress table.old (events.Advance member) ≡ Some table.new) }
    ensures not_enabled { IsErrOf result NotEnabled → after_progress table.old (events.Advance member) ≡ None }
    ensures err { OnErr result (table.new ≡ table.old) }
{
    advance(table, PrgrEvent::Advance { member })
}

/// A member takes the lead.
pub fn take_lead(table: &mut Table, member: u32) -> Result<(), StepFault>
    ensures ok { OnOk result (after_progress table.old (events.Lead member) ≡ Some table.new) }
    ensures not_enabled { IsErrOf result NotEnabled → after_progress table.old (events.Lead member) ≡ None }
    ensures err { OnErr result (table.new ≡ table.old) }
{
    advance(table, PrgrEvent::Lead { member })
}

/// A member gives the lead up.
pub fn drop_lead(table: &mut Table, member: u32) -> Result<(), StepFault>
    ensures ok { OnOk result (after_progress table.old (events.GiveUp member) ≡ Some table.new) }
    ensures not_enabled { IsErrOf result NotEnabled → after_progress table.old (events.GiveUp member) ≡ None }
    ensures err { OnErr result (table.new ≡ table.old) }
{
    advance(table, PrgrEvent::GiveUp { member })
}

/// A member confirms nothing from now on.
pub fn fall_asleep(table: &mut Table, member: u32) -> Result<(), StepFault>
    ensures ok { OnOk result (after_progress table.old (events.Wait member) ≡ Some table.new) }
    ensures not_enabled { IsErrOf result NotEnabled → after_progress table.old (events.Wait member) ≡ None }
    ensures err { OnErr result (table.new ≡ table.old) }
{
    advance(table, PrgrEvent::Wait { member })
}

/// A member that confirms nothing begins to confirm again.
pub fn begin_to_wake(table: &mut Table, member: u32) -> Result<(), StepFault>
    ensures ok { OnOk result (after_progress table.old (events.Enter member) ≡ Some table.new) }
    ensures not_enabled { IsErrOf result NotEnabled → after_progress table.old (events.Enter member) ≡ None }
    ensures err { OnErr result (table.new ≡ table.old) }
{
    advance(table, PrgrEvent::Enter { member })
}

/// A watcher adds to a delay count.
pub fn add_delay(table: &mut Table, watcher: u32, which: u32) -> Result<(), StepFault>
    ensures ok { OnOk result (after_progress table.old (events.WatchAdd watcher which) ≡ Some table.new) }
    ensures not_enabled { IsErrOf result NotEnabled → after_progress table.old (events.WatchAdd watcher which) ≡ None }
    ensures err { OnErr result (table.new ≡ table.old) }
{
    advance(table, PrgrEvent::WatchAdd { watcher, which })
}

/// A watcher takes from a delay count.
pub fn sub_delay(table: &mut Table, watcher: u32, which: u32) -> Result<(), StepFault>
    ensures ok { OnOk result (after_progress table.old (events.WatchSub watcher which) ≡ Some table.new) }
    ensures not_enabled { IsErrOf result NotEnabled → after_progress table.old (events.WatchSub watcher which) ≡ None }
    ensures err { OnErr result (table.new ≡ table.old) }
{
    advance(table, PrgrEvent::WatchSub { watcher, which })
}
