use std::alloc::{AllocError, AllocFailed};
use term_core::NoMemory;

/// Why a line of a module's text was refused, in the order in which the causes are tried.
#[derive(Clone, Copy, Debug, PartialEq, Eq)]
pub enum LineFault {
    /// It is the text of no line that may stand there.
    Syntax,
    /// A register over 15, or a call whose arguments pass register 15.
    Register,
    /// An integer of more than 60 bits.
    Int,
    /// A term of more than 64 words.
    Term,
    /// More new atoms than the table of names has room for.
    Names,
    /// The header of a seventeenth function.
    TooManyFunctions,
    /// The end of a module whose image has more than 1,024 words.
    TooLong,
    /// A function, or a label of the same function, that was given before.
    Duplicate,
    /// Memory was refused. No clause says when.
    NoMemory,
}

impl From<AllocError> for LineFault {
    ghost use Rattle.std.specs.Prelude.{◌≡◌};
    ghost use Rattle.mod_text.specs.declared.fault.LineFault.TheVariants as faults;

    ghost from_gives = { λ _ e. e ≡ faults.NoMemory };

    fn from(_refused: AllocError) -> LineFault {
        LineFault::NoMemory
    }
}

impl From<NoMemory> for LineFault {
    ghost use Rattle.std.specs.Prelude.{◌≡◌};
    ghost use Rattle.mod_text.specs.declared.fault.LineFault.TheVariants as faults;

    ghost from_gives = { λ _ e. e ≡ faults.NoMemory };

    fn from(_refused: NoMemory) -> LineFault {
        LineFault::NoMemory
    }
}

impl<T: Drop> From<AllocFailed<T>> for LineFault {
    ghost use Rattle.std.specs.Prelude.{◌≡◌};
    ghost use Rattle.mod_text.specs.declared.fault.LineFault.TheVariants as faults;

    ghost from_gives = { λ _ e. e ≡ faults.NoMemory };

    fn from(_refused: AllocFailed<T>) -> LineFault {
        LineFault::NoMemory
    }
}

/// Why a text was not read as a module. A line is the number of the faulty one.
#[derive(Clone, Copy, Debug, PartialEq, Eq)]
pub enum ModFault {
    /// The text of no line that may stand there, or the text stops before `end`.
    Syntax { line: u32 },
    /// A label or a local function that the function or the module lacks; judged where there is no other fault.
    Label { line: u32 },
    /// The header of a seventeenth function.
    TooManyFunctions { line: u32 },
    /// The end of a module whose image has more than 1,024 words.
    TooLong { line: u32 },
    /// A function, or a label of the same function, that was given before.
    Duplicate { line: u32 },
    /// A register over 15, or a call whose arguments pass register 15.
    Register { line: u32 },
    /// An integer of more than 60 bits.
    Int { line: u32 },
    /// A term of more than 64 words.
    Term { line: u32 },
    /// More new atoms than the table of names has room for.
    Names { line: u32 },
    /// Memory was refused. No clause says when.
    NoMemory,
}

/// The first faulty line of a text.
#[derive(Clone, Copy, Debug, PartialEq, Eq)]
pub struct LineStop {
    /// Counted from 0, the line of the title.
    pub number: usize,
    pub fault: LineFault,
}

/// Why the lines of a text gave no module.
#[derive(Clone, Copy, Debug, PartialEq, Eq)]
pub enum FinishFault {
    /// The line of this number, from 0, goes to a label that its function lacks, or calls a local function that the module lacks.
    Missing { number: usize },
    /// Memory was refused. No clause says when.
    NoMemory,
}

impl From<NoMemory> for FinishFault {
    ghost use Rattle.std.specs.Prelude.{◌≡◌};
    ghost use Rattle.mod_text.specs.declared.fault.FinishFault.TheVariants as faults;

    ghost from_gives = { λ _ e. e ≡ faults.NoMemory };

    fn from(_refused: NoMemory) -> FinishFault {
        FinishFault::NoMemory
    }
}

impl<T: Drop> From<AllocFailed<T>> for FinishFault {
    ghost use Rattle.std.specs.Prelude.{◌≡◌};
    ghost use Rattle.mod_text.specs.declared.fault.FinishFault.TheVariants as faults;

    ghost from_gives = { λ _ e. e ≡ faults.NoMemory };

    fn from(_refused: AllocFailed<T>) -> FinishFault {
        FinishFault::NoMemory
    }
}
