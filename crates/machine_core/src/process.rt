ghost use Rattle.std.specs.Prelude.{◌≡◌, length, IfOk};
ghost use Rattle.machine_core.specs.Process.{Words, process_of, new_process};

use crate::frames::FrameList;
use crate::registers::ValueList;
use std::alloc::Global;
use term_core::{AreaRef, CodeRef, Items, Mfa, NoMemory, Term, TermList};

/// The turns that a process has at most; its next turn ends it as `system_limit`.
pub const MOST_TURNS: u32 = u32::MAX;

/// The frames that a process has at most; the call past them ends it as `system_limit`.
pub const MOST_FRAMES: usize = 64;

/// The instructions that a turn runs at most.
pub const TURN_INSTRUCTIONS: u32 = 200;

/// Where a literal stands: an area, and the place in its words at which the image of the term begins.
#[derive(Clone, Copy, Debug, PartialEq, Eq)]
pub struct LitRef {
    pub area: AreaRef,
    pub at: u32,
}

/// What a register holds.
#[derive(Clone, Debug, Drop, PartialEq, Eq)]
pub enum Value {
    /// A term of the process's own.
    Owned(Term),
    /// A tuple or a list that stands in an area and is read there, without a copy.
    Literal(LitRef),
}

/// A call that has not returned.
#[derive(Debug, Drop)]
pub struct Frame {
    pub code: CodeRef,
    /// The place of the next instruction in the instance's image, counted in words.
    pub place: u32,
    /// The register of the caller that gets the value.
    pub back: u32,
    pub registers: ValueList,
}

/// Areas in a row, as those that a turn holds.
pub type AreaList = Items<AreaRef>;

/// A process of the call machine. Before its first turn and after its end it has no frames.
#[derive(Debug, Drop)]
pub struct Process {
    /// The number of its spawn.
    pub number: u32,
    pub target: Mfa,
    pub args: TermList,
    /// How many turns it has had.
    pub turns: u32,
    pub frames: FrameList,
}

/// What a process shows of its run.
#[derive(Debug, Drop, PartialEq, Eq)]
pub enum Line {
    Print(Term),
    /// A traced function was entered with these arguments.
    Trace { to: Mfa, args: TermList },
}

/// The lines of a process, in order.
pub type LineList = Items<Line>;

/// How a process ended.
#[derive(Clone, Copy, Debug, PartialEq, Eq)]
pub enum End {
    /// Its first function returned.
    Normal,
    /// No current code exports this function.
    Undef(Mfa),
    /// An order asked of what is no integer, an element that there is not, or a key that holds nothing.
    Badarg,
    /// A sum or a difference of what is no integer.
    Badarith,
    /// A number, the frames, the held areas or the count of turns would pass their limit.
    SystemLimit,
    /// One of its frames stood in code that is purged: the topmost such frame, by the serial of its instance.
    Killed(u64),
}

/// How a turn ended.
#[derive(Clone, Copy, Debug, PartialEq, Eq)]
pub enum TurnEnd {
    /// The process goes on in a later turn.
    Again,
    Ended(End),
}

impl Process {
    /// A process that has had no turn.
    pub fn new(alloc: Global, number: u32, target: Mfa, args: TermList) -> Result<Process, NoMemory>
        requires { length args ≡ target.arity }
        ensures { (words : Words) → IfOk result (λ process. process_of words process ≡ new_process number target args) }
    {
        Ok(Process {
            number,
            target,
            args,
            turns: 0,
            frames: FrameList::new(alloc),
        })
    }
}
