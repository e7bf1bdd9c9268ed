//! The end of turns: no thread takes or gives any more, and all copiers come in.

ghost use Rattle.std.specs.Prelude.{◌≡◌, ◌<◌, ◌+◌, ◌↔◌, length, IfOk, All, slice_index};
ghost use Rattle.copy_turns.specs.declared.turn.TheConstants.{TURNS};
ghost use Rattle.copy_turns.specs.declared.turn.Turn.{Turn};
ghost use Rattle.copy_turns.specs.Turns.{turn_word, turn_place};
ghost use Rattle.copy_turns.specs.Holdings.{copiers_in, first_holder, turn_held_in};
ghost use Rattle.copy_turns.specs.Seats.{IsTurnSeat, IsSameTurnSeat};
ghost use Rattle.copy_turns.specs.Copiers.{AreAllCopiers, NobodyHolds, turn_held_by, turn_holder, last_words};

use crate::copier::{Copier, CopierList};
use crate::holdings::Holdings;
use crate::rule::{Last, TakeIn, Words};
use crate::turn::Turn;
use crate::turns::CopyTurns;
use atomic_table::Seat;
use std::alloc::Global;
use term_core::{NoMemory, WordList};

impl CopyTurns {
    /// Ends turns, and answers their words as they stand then. It takes memory for them.
    pub fn close(self, alloc: Global, mut copiers: CopierList) -> Result<WordList, NoMemory>
        requires { AreAllCopiers self copiers }
        ensures words { IfOk result (λ words. words ≡ last_words copiers) }
        ensures free { IfOk result (λ words. (turn : Turn) → (slice_index words (turn_place turn) ≡ 0) ↔ NobodyHolds turn copiers) }
    {
        let CopyTurns { table, copiers: _ } = self;
        let Some(last) = copiers.pop() else {
            unreachable!()
        };
        let Copier {
            seat: mut all,
            held: _,
        } = last;
        take_in_all(&table.shared, &mut all, copiers);
        let first = last_word(&table.shared, &mut all, Turn::First);
        let second = last_word(&table.shared, &mut all, Turn::Second);
        let words = WordList::from_slice(alloc, &[first, second])?;
        Ok(words)
    }
}

/// The seat of a copier comes in. Where both hold one turn, it would be the copier's.
fn take_in(table: &Words, all: &mut Seat<(), Holdings>, copier: Copier)
    requires token { IsTurnSeat table.now.table_id all.old }
    requires words { 0 < table.now.table_id.words }
    requires copier { copier.table ≡ table.now.table_id }
    ensures token { IsSameTurnSeat all.old all.new }
    ensures held { (turn : Turn) → turn_held_in turn all.new.me.0 ≡ first_holder (turn_held_by turn copier) (turn_held_in turn all.old.me.0) }
    ensures copiers { copiers_in all.new.me.0 ≡ copiers_in all.old.me.0 + 1 }
{
    let Copier { seat, held: _ } = copier;
    table.join_seat::<TakeIn>(all, seat);
}

/// The seats of all these copiers come in.
fn take_in_all(table: &Words, all: &mut Seat<(), Holdings>, mut copiers: CopierList)
    requires token { IsTurnSeat table.now.table_id all.old }
    requires words { 0 < table.now.table_id.words }
    requires copiers { All (λ copier. copier.table ≡ table.now.table_id) copiers }
    ensures token { IsSameTurnSeat all.old all.new }
    ensures held { (turn : Turn) → turn_held_in turn all.new.me.0 ≡ turn_holder turn copiers (turn_held_in turn all.old.me.0) }
    ensures copiers { copiers_in all.new.me.0 ≡ copiers_in all.old.me.0 + length copiers }
{
    'copiers: while let Some(copier) = copiers.pop() {
        take_in(table, all, copier);
    }
}

/// The word of a turn, by the seat that stands for all copiers.
fn last_word(table: &Words, all: &mut Seat<(), Holdings>, turn: Turn) -> u64
    requires token { IsTurnSeat table.now.table_id all.old }
    requires words { table.now.table_id.words ≡ TURNS }
    requires whole { copiers_in all.old.me.0 ≡ table.now.key }
    ensures token { IsSameTurnSeat all.old all.new }
    ensures view { all.new.me.0 ≡ all.old.me.0 }
    ensures word { result ≡ turn_word (turn_held_in turn all.old.me.0) }
{
    let place = turn.word();
    table.load::<Last>(all, place)
}
