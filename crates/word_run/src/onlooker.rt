//! An observer in a run.

ghost use Rattle.std.specs.Prelude.{◌≡◌, ℕ, slice_get, IsOk, OnOk, Some};
ghost use Rattle.word_run.specs.declared.onlooker.Onlooker.{Onlooker};

use observers::Observer;
use term_core::NoMemory;

/// An observer in a run, with the answer of its last look.
#[derive(Drop)]
pub struct Onlooker {
    pub(crate) observer: Observer,
    pub(crate) answer: Result<(), NoMemory>,
}

/// Whether an observer met want of memory in its last look.
pub fn have_looked(onlookers: &[Onlooker]) -> Result<(), NoMemory>
    ensures { OnOk result ((k : ℕ) (onlooker : Onlooker) → slice_get onlookers.now k ≡ Some onlooker → IsOk onlooker.answer) }
{
    for onlooker in onlookers {
        has_looked(&onlooker.answer)?;
    }
    Ok(())
}

/// Whether a look with this answer met want of memory.
fn has_looked(answer: &Result<(), NoMemory>) -> Result<(), NoMemory>
    ensures { OnOk result (IsOk answer.now) }
{
    match answer {
        Ok(()) => Ok(()),
        Err(NoMemory) => Err(NoMemory),
    }
}
