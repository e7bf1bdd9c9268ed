//! The rule of the table, and what it takes of the crates above.

use crate::opening::Opening;
use crate::view::View;
use atomic_table::TableRule;
use std::marker::PhantomData;

/// What the crate that knows the code server says of each generation that is published, and of where its
/// areas stand.
pub trait Served {
    ghost use Rattle.area_core.specs.declared.table.Published.{Published};

    ghost served: { Published → Type 0 };
}

/// The rule, for the generations that are served.
pub struct Law<N> {
    marker: PhantomData<N>,
}

impl<N: Served> TableRule<(), View, Opening> for Law<N> {
    ghost use Rattle.shared_words.specs.Rule.{RunningRule};
    ghost use Rattle.shared_words.specs.Opening.{opening_view};

    ghost holds = { λ opening state. RunningRule N.served opening state };

    ghost first = { λ opening. opening_view opening.members opening.watchers };
}
