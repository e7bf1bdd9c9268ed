ghost use Rattle.std.specs.Prelude.{◌≡◌, ◌<◌, ◌≤◌, ◌↔◌, [], ℕ, List, length, take, IfOk, IfSome, OnErr};
ghost use Rattle.std.specs.declared.option.Option.{Option};
ghost use Rattle.std.specs.Io.KnownBytes.{Consumes, Keeps};
ghost use Rattle.outside.specs.Outside.{HasCause};

use crate::fault::Failed;

/// What the program reads from.
pub trait Source {
    /// The bytes that are not yet read, where they are told. What is told stays told.
    ghost left: { Self → Option (List ℕ) };

    /// How often it has failed. The count stands still at the end of a `u64`.
    ghost faults: { Self → ℕ };

    /// Takes bytes from the front of what is left and puts them at the front of `into`. It answers
    /// their count, and zero at the end. At a fault nothing is taken.
    fn read(&mut self, into: &mut [u8]) -> Result<usize, Failed>
        requires { 0 < length into.old }
        ensures within { IfOk result (λ count. count ≤ length into.new) }
        ensures taken { IfOk result
            (λ count. Consumes (left self.old) (left self.new) (take count into.new)) }
        ensures end { IfOk result
            (λ count. IfSome (left self.old) (λ bytes. (count ≡ 0) ↔ (bytes ≡ []))) }
        ensures kept { OnErr result (Keeps (left self.old) (left self.new)) }
        ensures cause { HasCause (faults self.old) (faults self.new) result };
}
