use crate::names::NameFault;
use crate::no_memory::NoMemory;

/// Why a text was not read as a term.
#[derive(Clone, Copy, Debug, PartialEq, Eq)]
pub enum TermFault {
    /// It is the text of no term, with numbers of any size. No term's text begins with the bytes up to `at`, counted from 0; it is the text's length where the text only stops too early.
    Syntax { at: usize },
    /// It has a number out of range. The leftmost such number begins at `at`.
    IntRange { at: usize },
    /// It is the text of a term whose image has more than 64 words.
    TooLong,
    /// It has more new atoms than the table of names has room for.
    Names,
    /// Memory was refused. No clause says when.
    NoMemory,
}

impl From<NameFault> for TermFault {
    ghost use Rattle.std.specs.Prelude.{◌≡◌};
    ghost use Rattle.term_core.specs.Reading.{term_fault_of};

    ghost from_gives = { λ fault e. e ≡ term_fault_of fault };

    fn from(fault: NameFault) -> TermFault {
        match fault {
            NameFault::Full => TermFault::Names,
            NameFault::NoMemory => TermFault::NoMemory,
        }
    }
}

impl From<NoMemory> for TermFault {
    ghost use Rattle.std.specs.Prelude.{◌≡◌};
    ghost use Rattle.term_core.specs.declared.term_fault.TermFault.TheVariants as faults;

    ghost from_gives = { λ _ e. e ≡ faults.NoMemory };

    fn from(_refused: NoMemory) -> TermFault {
        TermFault::NoMemory
    }
}
