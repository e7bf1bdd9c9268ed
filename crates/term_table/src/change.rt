//! What is changed under a key.

ghost use Rattle.std.specs.Prelude.{◌≡◌};
ghost use Rattle.term_table.specs.Keys.{key_of};

use term_core::AtomId;

/// A change under one key.
#[derive(Clone, Copy, Debug, PartialEq, Eq, Drop)]
pub enum Change {
    /// The key holds what this word of a term table stands for: an integer, an atom, or an area.
    Put { key: AtomId, value: u64 },
    /// The key holds nothing.
    Erase { key: AtomId },
}

impl Change {
    /// The key.
    pub(crate) fn key(self) -> AtomId
        ensures { result.0 ≡ key_of self }
    {
        match self {
            Change::Put { key, .. } => key,
            Change::Erase { key } => key,
        }
    }
}
