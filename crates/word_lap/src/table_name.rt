//! Which words the notes of a run's processes are of.

use std::marker::Brand;

/// The table of words of a run. Who makes it picks this, so that whoever takes a process out of an inbox knows of which words its note is.
pub trait TableName {
    ghost use Rattle.std.specs.Prelude.{Option};
    ghost use Rattle.atomic_table.specs.Seated.{TableId};

    ghost table: { Option TableId };
}

impl TableName for Brand {
    ghost use Rattle.std.specs.Prelude.{None};

    ghost table = { None };
}
