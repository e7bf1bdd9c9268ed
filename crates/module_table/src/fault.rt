use std::alloc::AllocFailed;

/// Why an instance did not become the current one of its module.
#[derive(Clone, Copy, Debug, PartialEq, Eq)]
pub enum PromoteFault {
    /// The module has this old instance, which is to be purged first.
    NotPurged { old: u64 },
    /// Memory was refused. It comes only where there is no room for a module more.
    NoMemory,
}

impl<T: Drop> From<AllocFailed<T>> for PromoteFault {
    ghost use Rattle.std.specs.Prelude.{◌≡◌};
    ghost use Rattle.module_table.specs.declared.fault.PromoteFault.TheVariants as faults;

    ghost from_gives = { λ _ e. e ≡ faults.NoMemory };

    fn from(_refused: AllocFailed<T>) -> PromoteFault {
        PromoteFault::NoMemory
    }
}

/// What dropping the current instance of a module came to.
#[derive(Clone, Copy, Debug, PartialEq, Eq)]
pub enum DropAnswer {
    /// The current instance is old now, and none is current.
    Dropped,
    /// The module has this old instance, which is to be purged first.
    NotPurged { old: u64 },
    /// The module has no instance.
    NotLoaded,
}
