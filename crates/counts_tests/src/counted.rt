//! Counts that two threads raise. The expected values are those of plain counting.

ghost use Rattle.std.specs.Prelude.{◌≡◌, ◌<◌, ◌+◌, ◌≤◌, [], length, IfSome, All};
ghost use Rattle.bp_counts.specs.Counters.{AreAllCounters, AreUnused};

use bp_counts::{Counter, CounterList, Counts};
use std::alloc::Global;
use std::test::Fail;
use std::thread::{Threads, join};
use term_core::{CountList, NoMemory};

/// How often each thread hits.
const EACH: u32 = 1_000;

/// The last of some unused counters.
fn last_counter(counts: &Counts, counters: &mut CounterList) -> Option<Counter>
    requires theirs { All (λ counter. counter.table ≡ counts.now.table) counters.old }
    requires unused { AreUnused counters.old }
    ensures theirs { All (λ counter. counter.table ≡ counts.now.table) counters.new }
    ensures unused { AreUnused counters.new }
    ensures table { IfSome result (λ counter. counter.table ≡ counts.now.table) }
    ensures hits { IfSome result (λ counter. counter.hits ≡ []) }
{
    counters.pop()
}

/// The two counters of counts.
fn both_counters(counts: &Counts, mut counters: CounterList) -> Option<(Counter, Counter)>
    requires counters { AreAllCounters counts.now counters }
    requires unused { AreUnused counters }
    ensures first { IfSome result (λ both. both.0.table ≡ counts.now.table) }
    ensures first_unused { IfSome result (λ both. both.0.hits ≡ []) }
    ensures second { IfSome result (λ both. both.1.table ≡ counts.now.table) }
    ensures second_unused { IfSome result (λ both. both.1.hits ≡ []) }
{
    let second = last_counter(counts, &mut counters)?;
    let first = last_counter(counts, &mut counters)?;
    Some((first, second))
}

/// Hits the first name often.
fn hit_often(counts: &Counts, mut counter: Counter) -> Counter
    requires table { counter.table ≡ counts.now.table }
    requires names { 0 < counts.now.names }
    requires few { length counter.hits ≤ EACH }
    ensures { result.table ≡ counts.now.table }
{
    for _number in 0..EACH {
        counts.hit(&mut counter, 0);
    }
    counter
}

/// Two threads hit, each with a counter of its own.
fn hit_beside<R: Threads + Sync>(
    rt: &R,
    counts: &Counts,
    first: Counter,
    second: Counter,
) -> (Counter, Counter)
    requires first { first.table ≡ counts.now.table }
    requires first_unused { first.hits ≡ [] }
    requires second { second.table ≡ counts.now.table }
    requires second_unused { second.hits ≡ [] }
    requires names { 0 < counts.now.names }
    ensures first { result.0.table ≡ counts.now.table }
    ensures second { result.1.table ≡ counts.now.table }
{
    join(
        rt,
        move || hit_often(counts, first),
        move || hit_often(counts, second),
    )
}

/// Ends counts that have two counters.
fn close_both(
    alloc: Global,
    counts: Counts,
    first: Counter,
    second: Counter,
) -> Result<CountList, NoMemory>
    requires many { counts.counters ≡ 2 }
    requires first { first.table ≡ counts.table }
    requires second { second.table ≡ counts.table }
{
    let mut counters = CounterList::new(alloc);
    counters.push(first)?;
    counters.push(second)?;
    counts.close(alloc, counters)
}

/// No hit of the two is lost, and none is told of the other name.
#[test]
fn two_threads_count_all_hits(rt: HostRuntime) -> Result<(), Fail> {
    let (counts, counters) = Counts::new(rt.alloc(), 2, 2)?;
    let Some((mut first, second)) = both_counters(&counts, counters) else {
        assert!(rt; false, "there are two counters");
        return Ok(());
    };
    assert_eq!(rt; counts.read(&mut first, 0), 0);
    let (mut first, second) = hit_beside(&rt, &counts, first, second);
    assert_eq!(rt; counts.read(&mut first, 0), 2_000);
    assert_eq!(rt; counts.read(&mut first, 1), 0);
    let told = close_both(rt.alloc(), counts, first, second)?;
    assert_eq!(rt; told.as_slice(), [2_000u64, 0].as_slice());
    Ok(())
}
