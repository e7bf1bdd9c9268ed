ghost use Rattle.std.specs.Prelude.{◌<◌, ◌≤◌, ℕ, List, length, take, IfOk, OnErr};
ghost use Rattle.std.specs.declared.option.Option.{Option};
ghost use Rattle.std.specs.Io.KnownBytes.{Appends, Keeps};
ghost use Rattle.outside.specs.Outside.{HasCause};

use crate::fault::Failed;

/// What the program writes to.
pub trait Sink {
    /// The bytes that were written to it, where they are told. What is told stays told.
    ghost got: { Self → Option (List ℕ) };

    /// How often it has failed. The count stands still at the end of a `u64`.
    ghost faults: { Self → ℕ };

    /// Takes bytes from the front of `piece`, at least one, and answers their count. At a fault
    /// nothing is taken.
    fn write(&mut self, piece: &[u8]) -> Result<usize, Failed>
        requires { 0 < length piece.now }
        ensures some { IfOk result (λ count. 0 < count) }
        ensures within { IfOk result (λ count. count ≤ length piece.now) }
        ensures appended { IfOk result
            (λ count. Appends (got self.old) (got self.new) (take count piece.now)) }
        ensures kept { OnErr result (Keeps (got self.old) (got self.new)) }
        ensures cause { HasCause (faults self.old) (faults self.new) result };
}
