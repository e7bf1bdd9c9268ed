ghost use Rattle.std.specs.Prelude.{◌≡◌, ◌↔◌, ◌+◌, ◌≤◌, IsTrue, drop, length, take};
ghost use Rattle.span_check.specs.Watches.{AreFrom, all_run, due_count};

use crate::frames::stand_in;
use machine_core::{Frame, Process};

/// A soft purge told that the process stands in an instance after one of its turns.
#[derive(Clone, Copy, Debug, PartialEq, Eq)]
pub struct Watch {
    /// Counted from 1.
    pub turn: u32,
    /// The serial of the instance.
    pub serial: u64,
}

/// Whether no watch looks at an earlier turn than this one.
pub fn are_from(watches: &[Watch], turns: u32) -> bool
    ensures { IsTrue result ↔ AreFrom turns watches.now }
{
    watches.iter().all(|watch| turns <= watch.turn)
}

/// Judges the watches that look at the process as it is now, from one of them on: whether each sees what it tells.
pub fn look(process: &Process, watches: &[Watch], told: &mut usize) -> bool
    requires { told.old ≤ length watches.now }
    ensures seen { result ≡ all_run process.now.frames (take (due_count process.now.turns (drop told.old watches.now)) (drop told.old watches.now)) }
    ensures told { told.new ≡ told.old + due_count process.now.turns (drop told.old watches.now) }
    ensures within { told.new ≤ length watches.now }
{
    let rest = &watches[*told..];
    let due = due_count(rest, process.turns);
    *told += due;
    all_see(&rest[..due], process.frames.as_slice())
}

/// How many watches from the front on look at no later turn than this one.
fn due_count(watches: &[Watch], turns: u32) -> usize
    ensures value { result ≡ due_count turns watches.now }
    ensures within { result ≤ length watches.now }
{
    watches
        .iter()
        .take_while(|watch| watch.turn <= turns)
        .count()
}

/// Whether one of the frames is of the instance of each watch.
fn all_see(watches: &[Watch], frames: &[Frame]) -> bool
    ensures { result ≡ all_run frames.now watches.now }
{
    watches.iter().all(|watch| stand_in(frames, watch.serial))
}
