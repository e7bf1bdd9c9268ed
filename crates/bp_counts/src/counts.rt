//! The counts that all threads share.

ghost use Rattle.std.specs.Prelude.{◌≡◌, ◌<◌, ◌≤◌, ◌*◌, ◌∷◌, length};
ghost use Rattle.bp_counts.specs.declared.counter.TheConstants.{MOST_HITS};
ghost use Rattle.bp_counts.specs.declared.sizes.TheConstants.{MOST_COUNTERS};
ghost use Rattle.bp_counts.specs.Tallies.{hits_of};

use crate::counter::Counter;
use crate::rule::{Hit, Read, Summed};
use crate::sizes::Sizes;
use crate::tally::Tally;
use atomic_table::Table;
use std::alloc::Global;
use std::marker::Model;

/// How often each of some names was hit, by all counters together. Contracts see the table of its words,
/// how many names there are, and how many counters it was made with.
#[derive(Drop)]
pub struct Counts {
    pub(crate) table: Table<(), Tally, Sizes, Summed, Global>,
    pub(crate) names: u32,
}

impl Model for Counts {
    ghost use Rattle.std.specs.Prelude.{◌≡◌, ◌+◌, ◌≤◌};
    ghost use Rattle.bp_counts.specs.Counters.{CountTable, count_table_code};

    ghost Value = { CountTable };

    ghost coded = { count_table_code };

    ghost view = { λ c. record { table = c.table.shared.table_id; names = c.names; counters = c.table.shared.key.counters } };

    ghost invariant = { λ c. (c.table.shared.key.names ≡ c.names) × (c.table.shared.table_id.words ≡ c.names + 1) × (1 ≤ c.table.shared.key.counters) };
}

impl Counts {
    /// Hits a name once, by its number. Others may hit at the same time, and no hit is lost.
    pub fn hit(&self, counter: &mut Counter, which: u32)
        requires table { counter.old.table ≡ self.now.table }
        requires which { which < self.now.names }
        requires few { length counter.old.hits < MOST_HITS }
        ensures { counter.new ≡ record counter.old { hits = which ∷ counter.old.hits } }
    {
        let word = which as usize + 1;
        self.table
            .shared
            .fetch_add::<Hit>(&mut counter.seat, word, 1);
    }

    /// How often a name was hit at some moment of this call: at least as often as this counter hit it,
    /// and no more often than all counters can.
    pub fn read(&self, counter: &mut Counter, which: u32) -> u64
        requires table { counter.old.table ≡ self.now.table }
        requires which { which < self.now.names }
        ensures least { hits_of which counter.old.hits ≤ result }
        ensures most { result ≤ MOST_COUNTERS * MOST_HITS }
        ensures same { counter.new ≡ counter.old }
    {
        let word = which as usize + 1;
        self.table.shared.load::<Read>(&mut counter.seat, word)
    }
}
