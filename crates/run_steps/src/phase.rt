use machine_core::End;

/// Whether a process was spawned, and whether it goes on.
#[derive(Clone, Copy, Debug, PartialEq, Eq)]
pub enum Phase {
    /// Its spawn is still to come.
    Waiting,
    /// It was spawned and goes on.
    Going,
    Ended(End),
}
