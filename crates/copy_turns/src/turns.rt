//! The turns that all threads share.

ghost use Rattle.std.specs.Prelude.{◌≡◌, ◌<◌, ◌≤◌, IsSome, None};
ghost use Rattle.copy_turns.specs.declared.turn.TheConstants.{PROCESS_LIMIT};
ghost use Rattle.copy_turns.specs.Copiers.{HoldsOne, IfBusy, OnHeld, found_both, turn_tried};

use crate::copier::Copier;
use crate::holdings::Holdings;
use crate::rule::{Give, OneHolder, Try};
use crate::turn::{Holding, Taken, Turn};
use atomic_table::Table;
use std::alloc::Global;
use std::marker::Model;

/// Two turns to copy. At no moment are more than two held (`at_most_two_turns_are_held`). Contracts see the
/// table of their words, and how many copiers they were made with.
#[derive(Drop)]
pub struct CopyTurns {
    pub(crate) table: Table<(), Holdings, u32, OneHolder, Global>,
    pub(crate) copiers: u32,
}

impl Model for CopyTurns {
    ghost use Rattle.std.specs.Prelude.{◌≡◌, ◌≤◌};
    ghost use Rattle.copy_turns.specs.declared.turn.TheConstants.{TURNS};
    ghost use Rattle.copy_turns.specs.Copiers.{TurnTable, turn_table_code};

    ghost Value = { TurnTable };

    ghost coded = { turn_table_code };

    ghost view = { λ t. record { table = t.table.shared.table_id; copiers = t.copiers } };

    ghost invariant = { λ t. (t.table.shared.key ≡ t.copiers) × (t.table.shared.table_id.words ≡ TURNS) × (1 ≤ t.copiers) };
}

impl CopyTurns {
    /// Takes a turn for a process: the first one, or where that is held the second one. It waits for none.
    pub fn take(&self, copier: &mut Copier, process: u32) -> Taken
        requires table { copier.old.table ≡ self.now.table }
        requires idle { copier.old.held ≡ None }
        requires process { process < PROCESS_LIMIT }
        // The turn was free when it was tried in this call.
        ensures held { OnHeld result (HoldsOne process copier.old copier.new) }
        // Both were tried in this call, and found held for these processes.
        ensures busy { IfBusy result (λ first second. copier.new ≡ found_both first second copier.old) }
        ensures processes { IfBusy result (λ first second. (first < PROCESS_LIMIT) × (second < PROCESS_LIMIT)) }
    {
        let first = self.try_turn(copier, Turn::First, process);
        if first == 0 {
            return Taken::Held;
        }
        let second = self.try_turn(copier, Turn::Second, process);
        if second == 0 {
            return Taken::Held;
        }
        Taken::Busy {
            first: (first - 1) as u32,
            second: (second - 1) as u32,
        }
    }

    /// Takes this turn where nobody holds it. It answers the word that it found: 0, or the number of the
    /// process for which the turn is held plus 1.
    fn try_turn(&self, copier: &mut Copier, turn: Turn, process: u32) -> u64
        requires table { copier.old.table ≡ self.now.table }
        requires idle { copier.old.held ≡ None }
        requires process { process < PROCESS_LIMIT }
        ensures word { result ≤ PROCESS_LIMIT }
        ensures copier { copier.new ≡ turn_tried turn process result copier.old }
    {
        let place = turn.word();
        let own = process as u64 + 1;
        let found = self
            .table
            .shared
            .compare_exchange::<Try>(&mut copier.seat, place, 0, own);
        if found != 0 {
            return found;
        }
        copier.held = Some(Holding { turn, process });
        0
    }

    /// Gives back the turn that the copier holds.
    pub fn give(&self, copier: &mut Copier)
        requires table { copier.old.table ≡ self.now.table }
        requires held { IsSome copier.old.held }
        ensures { copier.new ≡ record copier.old { held = None } }
    {
        let Some(held) = copier.held else {
            unreachable!()
        };
        let place = held.turn.word();
        self.table.shared.store::<Give>(&mut copier.seat, place, 0);
        copier.held = None;
    }
}
