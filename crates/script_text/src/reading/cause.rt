//! What is wrong with a line, wherever it stands.

use crate::fault::{ScriptFault, Which};
use mod_text::LineFault;
use std::alloc::{AllocError, AllocFailed};
use term_core::{NameFault, NoMemory};

/// Why a line was not read.
#[derive(Clone, Copy, Debug, PartialEq, Eq)]
pub enum LineCause {
    /// It is of no form that may stand there.
    Syntax,
    /// It passes this limit.
    Limit(Which),
    /// It gives something again.
    Duplicate,
    /// Memory was refused.
    NoMemory,
}

impl LineCause {
    ghost use Rattle.std.specs.Prelude.{◌≡◌};
    ghost use Rattle.script_text.specs.Causes.{fault_at};

    /// The fault of the line of this number.
    pub fn at(self, line: u32) -> ScriptFault
        ensures { result ≡ fault_at line self }
    {
        match self {
            LineCause::Syntax => ScriptFault::Syntax { line },
            LineCause::Limit(which) => ScriptFault::Limit { line, which },
            LineCause::Duplicate => ScriptFault::Duplicate { line },
            LineCause::NoMemory => ScriptFault::NoMemory,
        }
    }
}

impl From<NoMemory> for LineCause {
    ghost use Rattle.std.specs.Prelude.{◌≡◌};
    ghost use Rattle.script_text.specs.declared.reading.cause.LineCause.TheVariants as causes;

    ghost from_gives = { λ _ e. e ≡ causes.NoMemory };

    fn from(_refused: NoMemory) -> LineCause {
        LineCause::NoMemory
    }
}

impl From<AllocError> for LineCause {
    ghost use Rattle.std.specs.Prelude.{◌≡◌};
    ghost use Rattle.script_text.specs.declared.reading.cause.LineCause.TheVariants as causes;

    ghost from_gives = { λ _ e. e ≡ causes.NoMemory };

    fn from(_refused: AllocError) -> LineCause {
        LineCause::NoMemory
    }
}

impl<T: Drop> From<AllocFailed<T>> for LineCause {
    ghost use Rattle.std.specs.Prelude.{◌≡◌};
    ghost use Rattle.script_text.specs.declared.reading.cause.LineCause.TheVariants as causes;

    ghost from_gives = { λ _ e. e ≡ causes.NoMemory };

    fn from(_refused: AllocFailed<T>) -> LineCause {
        LineCause::NoMemory
    }
}

impl From<NameFault> for LineCause {
    ghost use Rattle.std.specs.Prelude.{◌≡◌};
    ghost use Rattle.script_text.specs.Causes.{cause_of_name};

    ghost from_gives = { λ fault e. e ≡ cause_of_name fault };

    fn from(fault: NameFault) -> LineCause {
        match fault {
            NameFault::Full => LineCause::Limit(Which::Names),
            NameFault::NoMemory => LineCause::NoMemory,
        }
    }
}

impl From<LineFault> for LineCause {
    ghost use Rattle.std.specs.Prelude.{◌≡◌};
    ghost use Rattle.script_text.specs.Causes.{cause_of_code};

    ghost from_gives = { λ fault e. e ≡ cause_of_code fault };

    fn from(fault: LineFault) -> LineCause {
        match fault {
            LineFault::Syntax | LineFault::Register => LineCause::Syntax,
            LineFault::Int => LineCause::Limit(Which::Integer),
            LineFault::Term => LineCause::Limit(Which::Term),
            LineFault::Names => LineCause::Limit(Which::Names),
            LineFault::TooManyFunctions => LineCause::Limit(Which::Functions),
            LineFault::TooLong => LineCause::Limit(Which::Module),
            LineFault::Duplicate => LineCause::Duplicate,
            LineFault::NoMemory => LineCause::NoMemory,
        }
    }
}
