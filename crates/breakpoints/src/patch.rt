//! How far the switch of a breakpoint is.

ghost use Rattle.std.specs.Prelude.{◌≡◌};
ghost use Rattle.breakpoints.specs.declared.patch.Phase.TheVariants as phases;

use term_core::CodeRef;

/// How far the switch of a breakpoint is. A value is one of the progress counter that is waited for
/// before the next phase.
#[derive(Clone, Copy, Debug, PartialEq, Eq, Drop)]
pub enum Phase {
    /// Nothing is stored yet.
    Begun,
    /// The decision is staged.
    Staged { need: u64 },
    /// The entry word leads calls to the decisions. A breakpoint that is cleared has no such phase,
    /// as its entry word does so already.
    Entered { need: u64 },
    /// The root with the decision is stored.
    Published { need: u64 },
    /// The entry word leads calls past the decisions. A breakpoint that is set has no such phase.
    Restored { need: u64 },
    /// Both breakpoint indices say the same again.
    Finished,
}

/// The switch of a breakpoint of a function, on or off.
#[derive(Clone, Copy, Debug, PartialEq, Eq, Drop)]
pub struct Patch {
    pub at: CodeRef,
    pub on: bool,
    pub phase: Phase,
}

/// What comes of a step of a patch.
#[derive(Clone, Copy, Debug, PartialEq, Eq, Drop)]
pub enum PatchStep {
    /// The next phase has come.
    Moved,
    /// It has come by the store of the root: the generation of this number traces the function, or
    /// does no more.
    Published(u64),
    /// The last phase is over.
    Finished,
}

impl Patch {
    /// A breakpoint of the function is to be set, or to be cleared; nothing is stored yet.
    ///
    /// Source: Erlang/OTP erts internal documentation, Tracing.
    pub fn begin(at: CodeRef, on: bool) -> Patch
        ensures { result ≡ record { at = at; on = on; phase = phases.Begun } }
    {
        Patch {
            at,
            on,
            phase: Phase::Begun,
        }
    }
}
