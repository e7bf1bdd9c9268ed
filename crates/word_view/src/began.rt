//! What a view was when it was made.

use std::marker::Brand;

/// What a view was when it was made. Who makes it picks this, so that it is known of the member that the view
/// gives back what the turn changed in it.
pub trait Began {
    ghost use Rattle.std.specs.Prelude.{Option};
    ghost use Rattle.word_view.specs.Views.{Viewed};

    ghost began: { Option Viewed };
}

impl Began for Brand {
    ghost use Rattle.std.specs.Prelude.{None};

    ghost began = { None };
}
