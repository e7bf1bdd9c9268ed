//! The schedulers of a run taken apart at its end.

ghost use Rattle.std.specs.Prelude.{IfOk, OnOk};
ghost use Rattle.word_run.specs.Finished.{AddsParts, AreParted};

use crate::scheduler::Scheduler;
use crate::seat::Seat;
use inbox::{InboxNames, Taker};
use shared_words::Member;
use std::alloc::Global;
use term_core::NoMemory;
use word_lap::{Newcomer, ProcessRun, TableName};

/// What the schedulers of a run give back, each by number.
#[derive(Drop)]
pub struct Parted<T: TableName, I: InboxNames> {
    pub members: Vec<Member>,
    pub takers: Vec<Taker<Newcomer<T>, I>>,
    pub processes: Vec<Vec<Option<ProcessRun>>>,
}

/// The schedulers taken apart.
pub fn take_apart<T: TableName, I: InboxNames>(
    alloc: Global,
    seats: Vec<Seat<T, I>>,
) -> Result<Parted<T, I>, NoMemory>
    ensures { IfOk result (λ parted. AreParted seats.items parted.members.items parted.takers.items parted.processes.items) }
{
    let mut parted = Parted {
        members: Vec::new(alloc),
        takers: Vec::new(alloc),
        processes: Vec::new(alloc),
    };
    for seat in seats {
        part(seat, &mut parted)?;
    }
    Ok(parted)
}

/// A scheduler taken apart.
fn part<T: TableName, I: InboxNames>(
    seat: Seat<T, I>,
    parted: &mut Parted<T, I>,
) -> Result<(), NoMemory>
    ensures { OnOk result (AddsParts seat parted.old.members.items parted.new.members.items parted.old.takers.items parted.new.takers.items parted.old.processes.items parted.new.processes.items) }
{
    let Seat { scheduler, .. } = seat;
    let Scheduler {
        member,
        taker,
        processes,
        ..
    } = scheduler;
    let Some(member) = member else {
        return Err(NoMemory);
    };
    parted.members.push(member)?;
    parted.takers.push(taker)?;
    parted.processes.push(processes)?;
    Ok(())
}
