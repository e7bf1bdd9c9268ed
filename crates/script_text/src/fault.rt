//! Why a text is no script's, and why a script is not printed.

use term_core::NoMemory;

/// A limit of a script.
#[derive(Clone, Copy, Debug, PartialEq, Eq)]
pub enum Which {
    /// An integer of more than 60 bits.
    Integer,
    /// A term of more than 64 words.
    Term,
    /// More than 4,096 names, with the three given ones.
    Names,
    /// More than 16 functions in a module.
    Functions,
    /// A module whose image has more than 1,024 words.
    Module,
    /// More than 1,024 different functions in exports, external calls and spawns.
    Exports,
    /// More than 64 spawns.
    Processes,
    /// More than 8 loader blocks.
    Loaders,
    /// More than 4 observers.
    Observers,
}

/// The one fault of a text that is no script's. Lines are counted from 1.
#[derive(Clone, Copy, Debug, PartialEq, Eq)]
pub enum ScriptFault {
    /// The text has more than 1,048,576 bytes.
    FileTooLong,
    /// The line has more than 4,096 bytes.
    LineTooLong { line: u32 },
    /// The line is of no form that may stand there, or it is the last and does not end the script.
    Syntax { line: u32 },
    /// The line loads a text that is not given, or names a label or a function of its module that is not there.
    UnknownName { line: u32 },
    /// The line gives a module and version, a function or a label again.
    Duplicate { line: u32 },
    /// The line passes this limit.
    Limit { line: u32, which: Which },
    /// Memory was refused. No clause says when.
    NoMemory,
}

impl From<NoMemory> for ScriptFault {
    ghost use Rattle.std.specs.Prelude.{◌≡◌};
    ghost use Rattle.script_text.specs.declared.fault.ScriptFault.TheVariants as faults;

    ghost from_gives = { λ _ e. e ≡ faults.NoMemory };

    fn from(_refused: NoMemory) -> ScriptFault {
        ScriptFault::NoMemory
    }
}

/// Why a script was not printed.
#[derive(Clone, Copy, Debug, PartialEq, Eq)]
pub enum PrintFault {
    /// The canonical text has more than 1,048,576 bytes, or a line of more than 4,096.
    TooLong,
    /// Memory was refused. No clause says when.
    NoMemory,
}

impl From<NoMemory> for PrintFault {
    ghost use Rattle.std.specs.Prelude.{◌≡◌};
    ghost use Rattle.script_text.specs.declared.fault.PrintFault.TheVariants as faults;

    ghost from_gives = { λ _ e. e ≡ faults.NoMemory };

    fn from(_refused: NoMemory) -> PrintFault {
        PrintFault::NoMemory
    }
}
