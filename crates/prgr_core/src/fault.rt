//! Why a call was refused.

ghost use Rattle.std.specs.Prelude.{◌≡◌};
ghost use Rattle.prgr_core.specs.declared.fault.StepFault.TheVariants as steps;
ghost use Rattle.prgr_core.specs.declared.fault.EventFault.TheVariants as texts;

use std::alloc::{AllocError, AllocFailed};

/// A growth was refused. No clause says when.
#[derive(Clone, Copy, Debug, PartialEq, Eq)]
pub struct NoMemory;

impl From<AllocError> for NoMemory {
    ghost from_gives = { λ _ e. e ≡ record {} };

    fn from(_error: AllocError) -> NoMemory {
        NoMemory
    }
}

impl<T: Drop> From<AllocFailed<T>> for NoMemory {
    ghost from_gives = { λ _ e. e ≡ record {} };

    fn from(_error: AllocFailed<T>) -> NoMemory {
        NoMemory
    }
}

/// Why an event was not made.
#[derive(Clone, Copy, Debug, PartialEq, Eq)]
pub enum StepFault {
    /// The machine has no such event in this state.
    NotEnabled,
    /// A growth was refused. No clause says when.
    NoMemory,
}

impl From<NoMemory> for StepFault {
    ghost from_gives = { λ _ e. e ≡ steps.NoMemory };

    fn from(_fault: NoMemory) -> StepFault {
        StepFault::NoMemory
    }
}

/// Why a list of events was not made to its end. Events are counted from 1.
#[derive(Clone, Copy, Debug, PartialEq, Eq)]
pub enum ReplayFault {
    /// The first event that is not enabled.
    NotEnabled { index: u64 },
    /// The event at which a growth was refused. No clause says when.
    NoMemory { index: u64 },
}

/// Why a text is no event list.
#[derive(Clone, Copy, Debug, PartialEq, Eq)]
pub enum EventFault {
    /// The first line of another form, counted from 1.
    Syntax { line: u32 },
    /// A growth was refused. No clause says when.
    NoMemory,
}

impl From<NoMemory> for EventFault {
    ghost from_gives = { λ _ e. e ≡ texts.NoMemory };

    fn from(_fault: NoMemory) -> EventFault {
        EventFault::NoMemory
    }
}
