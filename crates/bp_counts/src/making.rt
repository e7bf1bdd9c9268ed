//! How counts are made.

ghost use Rattle.std.specs.Prelude.{◌≡◌, ◌≤◌, ◌<◌, ◌-◌, ◌*◌, [], length, IfOk, OnOk, All};
ghost use Rattle.bp_counts.specs.declared.counter.TheConstants.{MOST_HITS};
ghost use Rattle.bp_counts.specs.declared.sizes.TheConstants.{MOST_COUNTERS, MOST_COUNTED_NAMES};
ghost use Rattle.bp_counts.specs.Tallies.{tally_left, opening_tally};
ghost use Rattle.bp_counts.specs.Seats.{IsTallySeat, IsSameTallySeat};
ghost use Rattle.bp_counts.specs.Counters.{AreAllCounters, AreUnused, unused};

use crate::counter::{Counter, CounterList};
use crate::counts::Counts;
use crate::rule::{HandOut, Words};
use crate::sizes::Sizes;
use crate::tally::Tally;
use atomic_table::{Seat, Table};
use std::alloc::{AllocError, Global};
use term_core::NoMemory;

impl Counts {
    /// Counts of so many names, none of which was hit, and so many counters.
    pub fn new(alloc: Global, names: u32, counters: u32) -> Result<(Counts, CounterList), NoMemory>
        requires names { names ≤ MOST_COUNTED_NAMES }
        requires counters { (1 ≤ counters) × (counters ≤ MOST_COUNTERS) }
        ensures names { IfOk result (λ made. made.0.names ≡ names) }
        ensures many { IfOk result (λ made. made.0.counters ≡ counters) }
        ensures counters { IfOk result (λ made. AreAllCounters made.0 made.1) }
        ensures unused { IfOk result (λ made. AreUnused made.1) }
    {
        let words = Vec::from_elem(alloc, 0u64, names as usize + 1)?;
        let sizes = Sizes { names, counters };
        let (table, mut seat) = Table::of_words(alloc, words.as_slice(), &sizes)?;
        let tokens = hand_out_all(alloc, &table.shared, &mut seat, counters)?;
        Ok((Counts { table, names }, CounterList::from_vec(tokens)))
    }
}

/// One counter, whose hits are taken from those that the first seat has left.
fn hand_out(table: &Words, seat: &mut Seat<(), Tally>) -> Counter
    requires token { IsTallySeat table.now.table_id seat.old }
    requires words { 0 < table.now.table_id.words }
    requires left { MOST_HITS ≤ seat.old.me.0.left }
    ensures token { IsSameTallySeat seat.old seat.new }
    ensures view { seat.new.me.0 ≡ tally_left seat.old.me.0 }
    ensures counter { result ≡ unused table.now.table_id }
{
    let seat = table.split_seat::<HandOut>(seat);
    Counter { seat }
}

/// All counters.
fn hand_out_all(
    alloc: Global,
    table: &Words,
    seat: &mut Seat<(), Tally>,
    counters: u32,
) -> Result<Vec<Counter>, AllocError>
    requires token { IsTallySeat table.now.table_id seat.old }
    requires words { 0 < table.now.table_id.words }
    requires view { seat.old.me.0 ≡ opening_tally counters }
    ensures many { IfOk result (λ tokens. length tokens.items ≡ counters) }
    ensures unused { IfOk result (λ tokens. All (λ counter. counter ≡ unused table.now.table_id) tokens.items) }
{
    let mut tokens = Vec::with_capacity(alloc, counters as usize)?;
    for _number in 0..counters {
        tokens.push_reserved(hand_out(table, seat));
    }
    Ok(tokens)
}
