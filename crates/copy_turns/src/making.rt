//! How turns are made.

ghost use Rattle.std.specs.Prelude.{◌≡◌, ◌≤◌, ◌<◌, [], length, IfOk, OnOk, All, None};
ghost use Rattle.copy_turns.specs.Holdings.{copiers_left, idle_copiers};
ghost use Rattle.copy_turns.specs.Seats.{IsTurnSeat, IsSameTurnSeat};
ghost use Rattle.copy_turns.specs.Copiers.{AreAllCopiers, AreNew, new_copier};

use crate::copier::{Copier, CopierList};
use crate::holdings::Holdings;
use crate::rule::{HandOut, Words};
use crate::turn::TURNS;
use crate::turns::CopyTurns;
use atomic_table::{Seat, Table};
use std::alloc::{AllocError, Global};
use term_core::NoMemory;

/// How many copiers there may be.
pub const MOST_COPIERS: u32 = 16;

impl CopyTurns {
    /// Turns that nobody holds, and so many copiers.
    pub fn new(alloc: Global, copiers: u32) -> Result<(CopyTurns, CopierList), NoMemory>
        requires { (1 ≤ copiers) × (copiers ≤ MOST_COPIERS) }
        ensures many { IfOk result (λ made. made.0.copiers ≡ copiers) }
        ensures copiers { IfOk result (λ made. AreAllCopiers made.0 made.1) }
        ensures idle { IfOk result (λ made. AreNew made.1) }
    {
        let words = Vec::from_elem(alloc, 0u64, TURNS as usize)?;
        let (table, mut seat) = Table::of_words(alloc, words.as_slice(), &copiers)?;
        let tokens = hand_out_all(alloc, &table.shared, &mut seat, copiers)?;
        Ok((CopyTurns { table, copiers }, CopierList::from_vec(tokens)))
    }
}

/// One copier, which is one of those that the first seat stands for.
fn hand_out(table: &Words, seat: &mut Seat<(), Holdings>) -> Copier
    requires token { IsTurnSeat table.now.table_id seat.old }
    requires words { 0 < table.now.table_id.words }
    requires idle { 0 < seat.old.me.0.idle }
    ensures token { IsSameTurnSeat seat.old seat.new }
    ensures view { seat.new.me.0 ≡ copiers_left seat.old.me.0 }
    ensures copier { result ≡ new_copier table.now.table_id }
{
    let seat = table.split_seat::<HandOut>(seat);
    Copier { seat, held: None }
}

/// All copiers.
fn hand_out_all(
    alloc: Global,
    table: &Words,
    seat: &mut Seat<(), Holdings>,
    copiers: u32,
) -> Result<Vec<Copier>, AllocError>
    requires token { IsTurnSeat table.now.table_id seat.old }
    requires words { 0 < table.now.table_id.words }
    requires view { seat.old.me.0 ≡ idle_copiers copiers }
    ensures many { IfOk result (λ tokens. length tokens.items ≡ copiers) }
    ensures new { IfOk result (λ tokens. All (λ copier. copier ≡ new_copier table.now.table_id) tokens.items) }
{
    let mut tokens = Vec::with_capacity(alloc, copiers as usize)?;
    for _number in 0..copiers {
        tokens.push_reserved(hand_out(table, seat));
    }
    Ok(tokens)
}
