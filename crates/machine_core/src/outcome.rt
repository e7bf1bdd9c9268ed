use crate::process::End;

/// What an instruction comes to.
#[derive(Clone, Copy, Debug, PartialEq, Eq)]
pub enum Outcome {
    /// The next instruction follows.
    GoesOn,
    /// The turn ends, and the process goes on in a later one.
    Yields,
    Ends(End),
}
