//! Which run a permit is of.

use std::marker::Brand;

/// The words over which a run goes, and its script. Who makes the words picks it.
pub trait RunName {
    ghost use Rattle.std.specs.Prelude.{Option};
    ghost use Rattle.word_permit.specs.Runs.{Run};

    ghost run: { Option Run };
}

impl RunName for Brand {
    ghost use Rattle.std.specs.Prelude.{None};

    ghost run = { None };
}
