use std::alloc::AllocFailed;

/// Why the name of a function got no number.
#[derive(Clone, Copy, Debug, PartialEq, Eq)]
pub enum AddFault {
    /// The name is new, and as many names are held as can be.
    Full,
    /// Memory was refused. It comes for a new name alone.
    NoMemory,
}

impl<T: Drop> From<AllocFailed<T>> for AddFault {
    ghost use Rattle.std.specs.Prelude.{◌≡◌};
    ghost use Rattle.export_table.specs.declared.fault.AddFault.TheVariants as faults;

    ghost from_gives = { λ _ e. e ≡ faults.NoMemory };

    fn from(_refused: AllocFailed<T>) -> AddFault {
        AddFault::NoMemory
    }
}
