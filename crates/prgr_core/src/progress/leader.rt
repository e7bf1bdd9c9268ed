//! The events by which a member leads, and raises the counter.

ghost use Rattle.std.specs.Prelude.{◌≡◌, ◌↔◌, IsErrOf, OnOk, OnErr, Some, None, ◌<◌, length};
ghost use Rattle.prgr_core.specs.declared.fault.StepFault.TheVariants.{NotEnabled, NoMemory};
ghost use Rattle.prgr_core.specs.declared.event.PrgrEvent.TheVariants as events;
ghost use Rattle.prgr_core.specs.Step.{after, scan_of_other, IsSound};

use crate::fault::StepFault;
use crate::member::{Member, Role, Scans, WAITING};
use crate::progress::Progress;
use crate::watcher::Delay;

/// The leader looks at the word of a member, if there is one.
fn scan_other(
    progress: &mut Progress,
    number: u32,
    member: Member,
    scans: Scans,
    other: u32,
) -> Result<(), StepFault>
    requires sound { IsSound progress.old }
    requires there { number < length progress.old.members }
    ensures ok { OnOk result (scan_of_other progress.old number member scans other ≡ Some progress.new) }
    ensures not_enabled { IsErrOf result NotEnabled ↔ (scan_of_other progress.old number member scans other ≡ None) }
    ensures err { OnErr result (progress.new ≡ progress.old) }
    ensures memory { IsErrOf result NoMemory → ⊥ }
{
    match progress.members.get(other) {
        None => Err(StepFault::NotEnabled),
        Some(found) => {
            let scans = scans.with(progress.counter, other, found.word);
            progress
                .members
                .set(number, member.with_role(Role::Leads(scans)));
            Ok(())
        }
    }
}

/// A member takes the lead, where nobody leads and its word is a value.
pub fn lead(progress: &mut Progress, number: u32) -> Result<(), StepFault>
    ensures ok { OnOk result (after progress.old (events.Lead number) ≡ Some progress.new) }
    ensures not_enabled { IsErrOf result NotEnabled ↔ (after progress.old (events.Lead number) ≡ None) }
    ensures err { OnErr result (progress.new ≡ progress.old) }
    ensures memory { IsErrOf result NoMemory → ⊥ }
{
    match progress.members.get(number) {
        None => Err(StepFault::NotEnabled),
        Some(member) => {
            if progress.leader.is_some() || !member.is_awake() {
                return Err(StepFault::NotEnabled);
            }
            progress
                .members
                .set(number, member.with_role(Role::Leads(Scans::new(None))));
            progress.leader = Some(number);
            Ok(())
        }
    }
}

/// The leader looks at a member's word, and scans it where it waits or has confirmed the value
/// after the counter.
pub fn scan(progress: &mut Progress, number: u32, other: u32) -> Result<(), StepFault>
    requires { IsSound progress.old }
    ensures ok { OnOk result (after progress.old (events.Scan number other) ≡ Some progress.new) }
    ensures not_enabled { IsErrOf result NotEnabled ↔ (after progress.old (events.Scan number other) ≡ None) }
    ensures err { OnErr result (progress.new ≡ progress.old) }
    ensures memory { IsErrOf result NoMemory → ⊥ }
{
    match progress.members.get(number) {
        None => Err(StepFault::NotEnabled),
        Some(leader) => match leader.role {
            Role::Follows => Err(StepFault::NotEnabled),
            Role::Leads(scans) => {
                if leader.word == WAITING {
                    return Err(StepFault::NotEnabled);
                }
                scan_other(progress, number, leader, scans, other)
            }
        },
    }
}

/// The leader looks at the delay count of the value after the counter.
pub fn scan_delay(progress: &mut Progress, number: u32) -> Result<(), StepFault>
    requires { IsSound progress.old }
    ensures ok { OnOk result (after progress.old (events.ScanDelay number) ≡ Some progress.new) }
    ensures not_enabled { IsErrOf result NotEnabled ↔ (after progress.old (events.ScanDelay number) ≡ None) }
    ensures err { OnErr result (progress.new ≡ progress.old) }
    ensures memory { IsErrOf result NoMemory → ⊥ }
{
    match progress.members.get(number) {
        None => Err(StepFault::NotEnabled),
        Some(member) => match member.role {
            Role::Follows => Err(StepFault::NotEnabled),
            Role::Leads(scans) => {
                let next = Delay::of(progress.counter + 1);
                let count = progress.delay_count(next);
                let scans = scans.with_delay(count);
                progress
                    .members
                    .set(number, member.with_role(Role::Leads(scans)));
                Ok(())
            }
        },
    }
}

/// The leader that has scanned every member, and the delay where there are watchers, raises the
/// counter by one.
pub fn advance(progress: &mut Progress, number: u32) -> Result<(), StepFault>
    ensures ok { OnOk result (after progress.old (events.Advance number) ≡ Some progress.new) }
    ensures not_enabled { IsErrOf result NotEnabled ↔ (after progress.old (events.Advance number) ≡ None) }
    ensures err { OnErr result (progress.new ≡ progress.old) }
    ensures memory { IsErrOf result NoMemory → ⊥ }
{
    match progress.members.get(number) {
        None => Err(StepFault::NotEnabled),
        Some(member) => match member.role {
            Role::Follows => Err(StepFault::NotEnabled),
            Role::Leads(scans) => {
                if !progress.may_advance(&scans) {
                    return Err(StepFault::NotEnabled);
                }
                let counter = progress.counter + 1;
                let scans = Scans::new(Some(counter));
                progress
                    .members
                    .set(number, member.with_role(Role::Leads(scans)));
                progress.counter = counter;
                Ok(())
            }
        },
    }
}

/// The leader gives up the lead.
pub fn give_up(progress: &mut Progress, number: u32) -> Result<(), StepFault>
    ensures ok { OnOk result (after progress.old (events.GiveUp number) ≡ Some progress.new) }
    ensures not_enabled { IsErrOf result NotEnabled ↔ (after progress.old (events.GiveUp number) ≡ None) }
    ensures err { OnErr result (progress.new ≡ progress.old) }
    ensures memory { IsErrOf result NoMemory → ⊥ }
{
    match progress.members.get(number) {
        None => Err(StepFault::NotEnabled),
        Some(member) => match member.role {
            Role::Follows => Err(StepFault::NotEnabled),
            Role::Leads(scans) => {
                progress
                    .members
                    .set(number, member.with_role(Role::Follows));
                progress.leader = None;
                Ok(())
            }
        },
    }
}
