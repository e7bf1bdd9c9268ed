//! The rule of the words, and what each kind of step tells. These types are for the proofs alone.

ghost use Rattle.bp_counts.specs.Tallies.{tally_left, tally_given, tallies_joined, tally_spent};
ghost use Rattle.bp_counts.specs.Steps.{AddsHit, TellsLeast, TellsTotal};

use crate::sizes::Sizes;
use crate::tally::Tally;
use atomic_table::{Join, Play, Shared, Split, TableRule};

/// The words as threads see them.
pub type Words = Shared<(), Tally, Sizes, Summed>;

/// Each word is the sum of what the seats have hit.
pub struct Summed;

impl TableRule<(), Tally, Sizes> for Summed {
    ghost use Rattle.bp_counts.specs.Rule.{AreSummed};
    ghost use Rattle.bp_counts.specs.Tallies.{opening_tally};

    ghost holds = { AreSummed };

    ghost first = { λ sizes. opening_tally sizes.counters };
}

/// A name is hit.
pub struct Hit;

impl Play<(), Tally> for Hit {
    ghost then = { AddsHit };
}

/// A word is loaded while others hit.
pub struct Read;

impl Play<(), Tally> for Read {
    ghost then = { TellsLeast };
}

/// A word is loaded by the seat that has all hits.
pub struct Total;

impl Play<(), Tally> for Total {
    ghost then = { TellsTotal };
}

/// The seat of a counter is taken from the first one.
pub struct HandOut;

impl Split<Tally> for HandOut {
    ghost left = { tally_left };

    ghost right = { tally_given };
}

/// The seat of a counter comes in to another one.
pub struct TakeIn;

impl Join<Tally> for TakeIn {
    ghost both = { tallies_joined };

    ghost spent = { tally_spent };
}
