//! The rule of an inbox, and what each kind of step tells.

use crossbeam_queue::protocol::{Join, Lesson, Outcome, Protocol, Split};
use std::collections::LinkedList;

/// What an end knows. No value of it is made: it is for clauses alone.
pub struct Dealing<T> {
    /// Whether it may post.
    pub posts: bool,
    /// Whether it may take.
    pub takes: bool,
    /// What it posted.
    pub put: LinkedList<T>,
    /// What it took.
    pub taken: LinkedList<T>,
    /// Of what it was told that it was posted.
    pub told: LinkedList<T>,
}

/// Each item is taken once, in the order of the posts.
pub struct Fair;

impl<T> Protocol<T, Dealing<T>> for Fair {
    ghost use Rattle.std.specs.Prelude.{true, []};
    ghost use Rattle.inbox.specs.Dealings.{IsFair, dealing};

    ghost holds = { IsFair };

    ghost first = { dealing true true [] [] [] };
}

/// The end that may post keeps that right, and the other one takes.
pub struct Parted;

impl<T> Split<Dealing<T>> for Parted {
    ghost use Rattle.std.specs.Prelude.{true, false, []};
    ghost use Rattle.inbox.specs.Dealings.{dealing};

    ghost left = { λ d. dealing true false [] [] [] };

    ghost right = { λ d. dealing false true [] [] [] };
}

/// What was posted so far is told.
pub struct Telling;

impl<T> Split<Dealing<T>> for Telling {
    ghost use Rattle.std.specs.Prelude.{false, []};
    ghost use Rattle.inbox.specs.Dealings.{dealing};

    ghost left = { λ d. d };

    ghost right = { λ d. dealing false false [] [] d.put };
}

impl<T> Join<Dealing<T>> for Telling {
    ghost use Rattle.inbox.specs.Dealings.{dealing, spent};

    ghost both = { λ d e. dealing d.posts d.takes d.put d.taken e.told };

    ghost spent = { spent };
}

/// What was taken so far is told, and was posted.
pub struct Receipt;

impl<T> Split<Dealing<T>> for Receipt {
    ghost use Rattle.std.specs.Prelude.{false, []};
    ghost use Rattle.inbox.specs.Dealings.{dealing};

    ghost left = { λ d. d };

    ghost right = { λ d. dealing false false [] [] d.taken };
}

impl<T> Lesson<T, Dealing<T>> for Receipt {
    ghost use mathlib.Core.List.{IsPrefix};

    ghost fact = { λ d _. IsPrefix d.told d.put };
}

/// Both ends come together.
pub struct Settling;

impl<T> Join<Dealing<T>> for Settling {
    ghost use Rattle.std.specs.Prelude.{true};
    ghost use Rattle.inbox.specs.Dealings.{dealing, spent};

    ghost both = { λ d e. dealing true true d.put e.taken e.told };

    ghost spent = { spent };
}

impl<T> Lesson<T, Dealing<T>> for Settling {
    ghost use Rattle.std.specs.Prelude.{◌≡◌, ◌++◌};

    ghost fact = { λ d items. d.put ≡ d.taken ++ items };
}

/// An item is posted.
pub struct Posted;

impl<T> Outcome<T, Dealing<T>> for Posted {
    ghost use Rattle.std.specs.Prelude.{◌≡◌, ◌++◌, ◌∷◌, []};
    ghost use Rattle.inbox.specs.Dealings.{dealing};

    ghost then = { λ d item e. e ≡ dealing d.posts d.takes (d.put ++ item ∷ []) d.taken d.told };
}

/// An item is taken, or there is none: then all that was told was taken.
pub struct Taken;

impl<T> Outcome<T, Dealing<T>> for Taken {
    ghost use Rattle.std.specs.Prelude.{◌≡◌, ◌++◌, ◌∷◌, []};
    ghost use Rattle.inbox.specs.Dealings.{dealing};

    ghost then = { λ d item e. e ≡ dealing d.posts d.takes d.put (d.taken ++ item ∷ []) d.told };
}

impl<T> Lesson<T, Dealing<T>> for Taken {
    ghost use Rattle.std.specs.Prelude.{◌++◌};
    ghost use mathlib.Core.List.{IsPrefix};

    ghost fact = { λ d items. IsPrefix d.told (d.taken ++ items) };
}
