//! A scheduler in a run.

ghost use Rattle.std.specs.Prelude.{◌≡◌, ℕ, true, slice_get, IfOk, IsOk, Ok, OnOk, Some};
ghost use Rattle.word_run.specs.declared.seat.Seat.{Seat};
ghost use Rattle.word_run.specs.Rounds.{AreIdle};

use crate::scheduler::{Scheduler, Slice};
use inbox::InboxNames;
use term_core::NoMemory;
use word_lap::TableName;

/// A scheduler in a run, with the answer of its last slice.
#[derive(Drop)]
pub struct Seat<T: TableName, I: InboxNames> {
    pub(crate) scheduler: Scheduler<T, I>,
    pub(crate) answer: Result<Slice, NoMemory>,
}

/// Whether each scheduler had nothing left to do in its last slice. Where one met want of memory this is told.
pub fn are_idle<T: TableName, I: InboxNames>(seats: &[Seat<T, I>]) -> Result<bool, NoMemory>
    ensures ok { OnOk result ((k : ℕ) (seat : Seat T I) → slice_get seats.now k ≡ Some seat → IsOk seat.answer) }
    ensures idle { IfOk result (λ idle. idle ≡ true → AreIdle seats.now) }
{
    let mut idle = true;
    for seat in seats {
        idle &= is_idle(&seat.answer)?;
    }
    Ok(idle)
}

/// Whether nothing is left to do after a slice with this answer.
fn is_idle(answer: &Result<Slice, NoMemory>) -> Result<bool, NoMemory>
    ensures ok { OnOk result (IsOk answer.now) }
    ensures idle { IfOk result (λ idle. idle ≡ true → answer.now ≡ Ok Slice.Idle) }
{
    match answer {
        Ok(Slice::Again) => Ok(false),
        Ok(Slice::Idle) => Ok(true),
        Err(NoMemory) => Err(NoMemory),
    }
}
