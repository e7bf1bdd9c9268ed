//! The end of counts: no thread hits any more, and all counters come in.

ghost use Rattle.std.specs.Prelude.{◌≡◌, ◌<◌, ◌+◌, ◌*◌, ◌++◌, ℕ, length, sum_by, IfOk, Some, All, slice_get};
ghost use Rattle.bp_counts.specs.declared.counter.TheConstants.{MOST_HITS};
ghost use Rattle.bp_counts.specs.Tallies.{share, hits_of};
ghost use Rattle.bp_counts.specs.Seats.{IsTallySeat, IsSameTallySeat};
ghost use Rattle.bp_counts.specs.Counters.{AreAllCounters, AreTotals, hits_in};

use crate::counter::{Counter, CounterList};
use crate::counts::Counts;
use crate::rule::{TakeIn, Total, Words};
use crate::tally::Tally;
use atomic_table::Seat;
use std::alloc::{AllocError, Global};
use term_core::{CountList, NoMemory};

impl Counts {
    /// Ends counts, and answers how often each name was hit, by all its counters together. It takes memory
    /// for the numbers.
    pub fn close(self, alloc: Global, mut counters: CounterList) -> Result<CountList, NoMemory>
        requires { AreAllCounters self counters }
        ensures many { IfOk result (λ counts. length counts ≡ self.names) }
        ensures sums { IfOk result (λ counts. (which : ℕ) → which < self.names → slice_get counts which ≡ Some (sum_by (hits_in which) counters)) }
    {
        let Counts { table, names } = self;
        let Some(first) = counters.pop() else {
            unreachable!()
        };
        let Counter { seat: mut all } = first;
        take_in_all(&table.shared, &mut all, counters);
        let totals = totals(alloc, &table.shared, &mut all, names)?;
        Ok(CountList::from_vec(totals))
    }
}

/// The seat of a counter comes in.
fn take_in(table: &Words, all: &mut Seat<(), Tally>, counter: Counter)
    requires token { IsTallySeat table.now.table_id all.old }
    requires words { 0 < table.now.table_id.words }
    requires counter { counter.table ≡ table.now.table_id }
    ensures token { IsSameTallySeat all.old all.new }
    ensures hits { all.new.me.0.hits ≡ all.old.me.0.hits ++ counter.hits }
    ensures share { share all.new.me.0 ≡ share all.old.me.0 + MOST_HITS }
{
    let Counter { seat } = counter;
    table.join_seat::<TakeIn>(all, seat);
}

/// The seats of all these counters come in.
fn take_in_all(table: &Words, all: &mut Seat<(), Tally>, mut counters: CounterList)
    requires token { IsTallySeat table.now.table_id all.old }
    requires words { 0 < table.now.table_id.words }
    requires counters { All (λ counter. counter.table ≡ table.now.table_id) counters }
    ensures token { IsSameTallySeat all.old all.new }
    ensures hits { (which : ℕ) → hits_of which all.new.me.0.hits ≡ hits_of which all.old.me.0.hits + sum_by (hits_in which) counters }
    ensures share { share all.new.me.0 ≡ share all.old.me.0 + length counters * MOST_HITS }
{
    'counters: while let Some(counter) = counters.pop() {
        take_in(table, all, counter);
    }
}

/// How often each name was hit, by the seat that has all hits.
fn totals(
    alloc: Global,
    table: &Words,
    all: &mut Seat<(), Tally>,
    names: u32,
) -> Result<Vec<u64>, AllocError>
    requires token { IsTallySeat table.now.table_id all.old }
    requires words { table.now.table_id.words ≡ names + 1 }
    requires names { table.now.key.names ≡ names }
    requires whole { share all.old.me.0 ≡ table.now.key.counters * MOST_HITS }
    ensures { IfOk result (λ totals. AreTotals all.old.me.0.hits names totals.items) }
{
    let mut totals = Vec::with_capacity(alloc, names as usize)?;
    for which in 0..names {
        let word = which as usize + 1;
        totals.push_reserved(table.load::<Total>(all, word));
    }
    Ok(totals)
}
