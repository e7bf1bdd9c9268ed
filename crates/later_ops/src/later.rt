ghost use Rattle.std.specs.Prelude.{◌≡◌, ◌↔◌, ◌++◌, ◌∷◌, [], length, nat_le, IfOk, IfErr, OnOk, OnErr, IsErr, None};
ghost use Rattle.std.specs.List.{position};
ghost use Rattle.later_ops.specs.Later.{first_due, without_due, NoneIsDue};

use std::alloc::Global;
use std::marker::Model;
use term_core::NoMemory;

/// Operations that are held until a counter has reached the value that each was pushed with.
///
/// Contracts see the pairs of value and operation in the order of their pushes, and the room.
#[derive(Drop)]
pub struct Later<T> {
    held: Vec<(u64, T)>,
    room: usize,
}

impl<T> Model for Later<T> {
    ghost use Rattle.std.specs.Prelude.{◌≤◌, length};
    ghost use Rattle.std.specs.Coded.{coded_list};
    ghost use Rattle.std.specs.Vec.{vec_capacity};
    ghost use base.Stored.{coded×, coded_ℕ};
    ghost use Rattle.later_ops.specs.Later.{Waiting};

    ghost Value = { Waiting T };

    ghost coded = { coded× (coded_list (coded× coded_ℕ T.code)) coded_ℕ };

    ghost view = { λ l. (l.held.items, l.room) };

    ghost invariant = { λ l. (length l.held.items ≤ l.room) × (l.room ≤ vec_capacity l.held) };
}

impl<T> Later<T> {
    /// Holds none, and takes the room for so many.
    pub fn new(alloc: Global, room: usize) -> Result<Later<T>, NoMemory>
        ensures { IfOk result (λ later. later ≡ ([], room)) }
    {
        let held = Vec::with_capacity(alloc, room)?;
        Ok(Later { held, room })
    }

    /// Holds the operation until the counter has reached `need`. Where as many are held as there is
    /// room for, it comes back. It takes no memory.
    pub fn push(&mut self, need: u64, op: T) -> Result<(), T>
        ensures ok { OnOk result (self.new ≡ (self.old.0 ++ (need, op) ∷ [], self.old.1)) }
        ensures full { IsErr result ↔ (length self.old.0 ≡ self.old.1) }
        ensures err { IfErr result (λ back. back ≡ op) }
        ensures kept { OnErr result (self.new ≡ self.old) }
    {
        if self.held.len() >= self.room {
            return Err(op);
        }
        self.held.push_reserved((need, op));
        Ok(())
    }

    /// Takes out the first pushed operation whose value is at most `current`. It looks through what
    /// is held once.
    pub fn due(&mut self, current: u64) -> Option<T>
        ensures first { result ≡ first_due current self.old.0 }
        ensures rest { self.new ≡ (without_due current self.old.0, self.old.1) }
        ensures none { (result ≡ None) ↔ NoneIsDue current self.old.0 }
    {
        let place = first_place(self.held.as_slice(), current)?;
        let (_, op) = self.held.remove(place);
        Some(op)
    }
}

/// The place of the first operation that is due.
fn first_place<T>(held: &[(u64, T)], current: u64) -> Option<usize>
    ensures { result ≡ position (λ waiting. nat_le waiting.0 current) held.now }
{
    held.iter().position(|waiting| waiting.0 <= current)
}
