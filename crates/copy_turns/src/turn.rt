//! The two turns, and what a copier is answered.

ghost use Rattle.std.specs.Prelude.{◌≡◌};
ghost use Rattle.copy_turns.specs.Turns.{turn_place};

/// How many turns there are, each with a word of its own.
pub const TURNS: u32 = 2;

/// The numbers of processes are below it.
pub const PROCESS_LIMIT: u32 = 64;

/// A turn to copy.
#[derive(Clone, Copy, Debug, PartialEq, Eq)]
pub enum Turn {
    First,
    Second,
}

impl Turn {
    /// The place of its word.
    pub(crate) fn word(self) -> usize
        ensures { result ≡ turn_place self }
    {
        match self {
            Turn::First => 0,
            Turn::Second => 1,
        }
    }
}

/// A turn that is held for a process.
#[derive(Clone, Copy, Debug, PartialEq, Eq)]
pub struct Holding {
    pub turn: Turn,
    pub process: u32,
}

/// Whether a copier has a turn.
#[derive(Clone, Copy, Debug, PartialEq, Eq)]
pub enum Taken {
    /// It holds one.
    Held,
    /// It holds none: when it tried the first turn, that was held for this process, and so was the second
    /// when it tried that.
    Busy { first: u32, second: u32 },
}
