use std::alloc::AllocError;
use term_core::NoMemory;

/// Why a command was not made. The server is then as before.
#[derive(Clone, Copy, Debug, PartialEq, Eq)]
pub enum ApplyFault {
    /// The command table has no case for the command here, as for a load of a text that is not given,
    /// or for the doom of a module that has no old code.
    NotEnabled,
    /// Memory was refused. No clause says when.
    NoMemory,
}

impl From<NoMemory> for ApplyFault {
    ghost use Rattle.std.specs.Prelude.{◌≡◌};
    ghost use Rattle.server_core.specs.declared.fault.ApplyFault.TheVariants as faults;

    ghost from_gives = { λ _ e. e ≡ faults.NoMemory };

    fn from(_refused: NoMemory) -> ApplyFault {
        ApplyFault::NoMemory
    }
}

impl From<AllocError> for ApplyFault {
    ghost use Rattle.std.specs.Prelude.{◌≡◌};
    ghost use Rattle.server_core.specs.declared.fault.ApplyFault.TheVariants as faults;

    ghost from_gives = { λ _ e. e ≡ faults.NoMemory };

    fn from(_refused: AllocError) -> ApplyFault {
        ApplyFault::NoMemory
    }
}
