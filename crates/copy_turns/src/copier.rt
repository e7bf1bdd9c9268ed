//! The token with which a thread takes turns.

use crate::holdings::Holdings;
use crate::turn::Holding;
use atomic_table::Seat;
use std::marker::Model;
use term_core::Items;

/// Takes turns for one thread. Contracts see the table of its turns, the turn that it holds, and the words
/// that it found when it tried turns, the newest first. Those are not stored: it takes no memory.
#[derive(Drop)]
pub struct Copier {
    pub(crate) seat: Seat<(), Holdings>,
    pub(crate) held: Option<Holding>,
}

/// Copiers in a row.
pub type CopierList = Items<Copier>;

impl Model for Copier {
    ghost use Rattle.std.specs.Prelude.{◌≡◌, []};
    ghost use Rattle.copy_turns.specs.Holdings.{holdings_of};
    ghost use Rattle.copy_turns.specs.Copiers.{CopierState, copier_state_code};

    ghost Value = { CopierState };

    ghost coded = { copier_state_code };

    ghost view = { λ c. record { table = c.seat.table_id; held = c.held; found = c.seat.me.0.found } };

    ghost invariant = { λ c. (c.seat.me.0 ≡ holdings_of c.held c.seat.me.0.found) × (c.seat.me.1 ≡ []) };
}
