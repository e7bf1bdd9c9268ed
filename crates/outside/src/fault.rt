ghost use Rattle.std.specs.Prelude.{◌≡◌};
ghost use Rattle.outside.specs.declared.fault.ReadFault.TheVariants.{Failed as read_failed, NoMemory as no_memory};

use term_core::NoMemory;

/// A source or a sink failed in this call, and counted it.
#[derive(Clone, Copy, Debug, Drop, PartialEq, Eq)]
pub struct Failed;

/// Why an input was not read whole.
#[derive(Clone, Copy, Debug, Drop, PartialEq, Eq)]
pub enum ReadFault {
    /// The source failed.
    Failed,
    /// A growth was refused. No clause says when.
    NoMemory,
}

impl From<Failed> for ReadFault {
    ghost from_gives = { λ _ fault. fault ≡ read_failed };

    fn from(_: Failed) -> Self {
        ReadFault::Failed
    }
}

impl From<NoMemory> for ReadFault {
    ghost from_gives = { λ _ fault. fault ≡ no_memory };

    fn from(_: NoMemory) -> Self {
        ReadFault::NoMemory
    }
}
