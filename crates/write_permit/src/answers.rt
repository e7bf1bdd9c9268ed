/// Whether a loader has the permission now.
#[derive(Clone, Copy, Debug, PartialEq, Eq)]
pub enum Seize {
    /// It has it now, and nobody had it before.
    Seized,
    /// This loader had it before, which may be the one that asked.
    Held { by: u32 },
}
