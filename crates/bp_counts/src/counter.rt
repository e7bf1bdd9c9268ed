//! The token with which a thread counts.

use crate::tally::Tally;
use atomic_table::Seat;
use std::marker::Model;
use term_core::Items;

/// How often a counter may hit, so that no word can come to the end of a `u64`.
pub const MOST_HITS: u64 = 1 << 48;

/// Counts for one thread at a time. Contracts see the table of its counts and the names that it hit, by
/// their numbers, the newest first. Its hits are not stored: it takes no memory.
#[derive(Drop)]
pub struct Counter {
    pub(crate) seat: Seat<(), Tally>,
}

/// Counters in a row.
pub type CounterList = Items<Counter>;

impl Model for Counter {
    ghost use Rattle.std.specs.Prelude.{◌≡◌, []};
    ghost use Rattle.bp_counts.specs.declared.counter.TheConstants.{MOST_HITS};
    ghost use Rattle.bp_counts.specs.Tallies.{share};
    ghost use Rattle.bp_counts.specs.Counters.{CounterHits, counter_hits_code};

    ghost Value = { CounterHits };

    ghost coded = { counter_hits_code };

    ghost view = { λ c. record { table = c.seat.table_id; hits = c.seat.me.0.hits } };

    ghost invariant = { λ c. (share c.seat.me.0 ≡ MOST_HITS) × (c.seat.me.1 ≡ []) };
}
