/// How far a loader is.
#[derive(Clone, Copy, Debug, PartialEq, Eq)]
pub struct LoaderRun {
    /// How many of its commands are done.
    pub done: usize,
    /// The number of the process of its next spawn.
    pub next_process: usize,
}
