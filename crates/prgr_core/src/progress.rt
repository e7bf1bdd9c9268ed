//! The state of the machine in lists, and the event that is made in it.

mod leader;
mod members;
mod watchers;
mod writer;

ghost use Rattle.std.specs.Prelude.{◌≡◌, ◌↔◌, IsErrOf, OnOk, OnErr, Some, None};
ghost use Rattle.prgr_core.specs.declared.fault.StepFault.TheVariants.{NotEnabled, NoMemory};
ghost use Rattle.prgr_core.specs.Step.{after, delay_count, with_delay_count, may_advance, LacksMemory, IsSound};

use crate::event::PrgrEvent;
use crate::fault::StepFault;
use crate::lists::{MemberList, NeedMap, RetirementList, WatcherList};
use crate::member::{LAST_VALUE, Scans};
use crate::watcher::Delay;
use leader::{advance, give_up, lead, scan, scan_delay};
use members::{enter, load_counter, load_root, report, wait};
use watchers::{watch_add, watch_load, watch_root, watch_sub};
pub use writer::keep_need;
use writer::{publish, release, retire};

/// What a state of the machine is made of.
#[derive(Debug, Drop)]
pub struct Progress {
    /// The progress counter. It begins at 1.
    pub counter: u64,
    /// The generation that the root has. It begins at 0.
    pub generation: u64,
    /// The number of the member that leads.
    pub leader: Option<u32>,
    pub members: MemberList,
    /// The delay count of even values of the counter.
    pub delay_even: u64,
    /// The delay count of odd values of the counter.
    pub delay_odd: u64,
    pub watchers: WatcherList,
    /// The retirements that are not released.
    pub needs: NeedMap,
    /// The retirements that were ever made.
    pub retired: RetirementList,
}

impl Progress {
    /// The count of this delay counter.
    pub fn delay_count(&self, delay: Delay) -> u64
        ensures { result ≡ delay_count self.now delay }
    {
        match delay {
            Delay::Even => self.delay_even,
            Delay::Odd => self.delay_odd,
        }
    }

    /// Makes this the count of this delay counter.
    pub fn set_delay_count(&mut self, delay: Delay, count: u64)
        ensures { self.new ≡ with_delay_count self.old delay count }
    {
        match delay {
            Delay::Even => self.delay_even = count,
            Delay::Odd => self.delay_odd = count,
        }
    }

    /// Whether a leader with these scans may raise the counter.
    pub fn may_advance(&self, scans: &Scans) -> bool
        ensures { result ≡ may_advance self.now scans.now }
    {
        scans.has_all(self.members.as_slice())
            && (scans.delay || self.watchers.len() == 0)
            && self.counter < LAST_VALUE
    }
}

/// Makes one event. Where it is not enabled, nothing changes.
pub fn apply(progress: &mut Progress, event: PrgrEvent) -> Result<(), StepFault>
    requires { IsSound progress.old }
    ensures ok { OnOk result (after progress.old event ≡ Some progress.new) }
    ensures not_enabled { IsErrOf result NotEnabled ↔ (after progress.old event ≡ None) }
    ensures err { OnErr result (progress.new ≡ progress.old) }
    ensures memory { IsErrOf result NoMemory → LacksMemory progress.old event }
{
    match event {
        PrgrEvent::LoadCounter { member } => load_counter(progress, member),
        PrgrEvent::LoadRoot { member } => load_root(progress, member),
        PrgrEvent::Report { member } => report(progress, member),
        PrgrEvent::Lead { member } => lead(progress, member),
        PrgrEvent::Scan { member, other } => scan(progress, member, other),
        PrgrEvent::ScanDelay { member } => scan_delay(progress, member),
        PrgrEvent::Advance { member } => advance(progress, member),
        PrgrEvent::GiveUp { member } => give_up(progress, member),
        PrgrEvent::Wait { member } => wait(progress, member),
        PrgrEvent::Enter { member } => enter(progress, member),
        PrgrEvent::Publish => publish(progress),
        PrgrEvent::Retire => retire(progress),
        PrgrEvent::Release { generation } => release(progress, generation),
        PrgrEvent::WatchLoad { watcher } => watch_load(progress, watcher),
        PrgrEvent::WatchAdd { watcher, which } => watch_add(progress, watcher, which),
        PrgrEvent::WatchRoot { watcher } => watch_root(progress, watcher),
        PrgrEvent::WatchSub { watcher, which } => watch_sub(progress, watcher, which),
    }
}
