//! The rule of the words, and what each kind of step tells. These types are for the proofs alone.

ghost use Rattle.copy_turns.specs.Holdings.{copiers_left, copier_given, holdings_joined, holdings_spent};
ghost use Rattle.copy_turns.specs.Steps.{TriesTurn, GivesTurn, TellsHolder};

use crate::holdings::Holdings;
use atomic_table::{Join, Play, Shared, Split, TableRule};

/// The words as threads see them. What they are told is for how many copiers they were made.
pub type Words = Shared<(), Holdings, u32, OneHolder>;

/// Each word tells who holds its turn, and one seat at most does.
pub struct OneHolder;

impl TableRule<(), Holdings, u32> for OneHolder {
    ghost use Rattle.copy_turns.specs.Rule.{AreTurns};
    ghost use Rattle.copy_turns.specs.Holdings.{idle_copiers};

    ghost holds = { AreTurns };

    ghost first = { idle_copiers };
}

/// A turn is tried.
pub struct Try;

impl Play<(), Holdings> for Try {
    ghost then = { TriesTurn };
}

/// A turn is given back.
pub struct Give;

impl Play<(), Holdings> for Give {
    ghost then = { GivesTurn };
}

/// A word is loaded by the seat that stands for all copiers.
pub struct Last;

impl Play<(), Holdings> for Last {
    ghost then = { TellsHolder };
}

/// The seat of a copier is taken from the first one.
pub struct HandOut;

impl Split<Holdings> for HandOut {
    ghost left = { copiers_left };

    ghost right = { copier_given };
}

/// The seat of a copier comes in to another one.
pub struct TakeIn;

impl Join<Holdings> for TakeIn {
    ghost both = { holdings_joined };

    ghost spent = { holdings_spent };
}
