//! Thread progress beneath four threads that run at once: three members report, take the lead and
//! raise the counter, and the writer publishes the empty generation again and again. The expected
//! values are those of the rules: the counter is 1 at first, a root word is 32 times the number of
//! its generation where all blocks are the first ones, and no generation that a report answers is
//! before the one of the report before it.

ghost use Rattle.std.specs.Prelude.{◌≡◌, ℕ, ◌<◌, [], All, length, slice_index_or};
ghost use Rattle.shared_words.specs.declared.seats.Member as tokens;
ghost use Rattle.shared_words.specs.Making.{AreMembersBegun, IsHanding};
ghost use Rattle.shared_words.specs.Closing.{AreAllMembers};
ghost use Rattle.progress_words.specs.Tokens.{view_of, written_by, IsMemberOf, IsWriterOf};
ghost use Rattle.progress_words.specs.Leads.{IsLeader};
ghost use Rattle.new_tables.specs.Running.{IsEmpty, IsReady, HasReported};

use super::publishing::{Any, publish};
use progress_words::*;
use shared_words::{COUNTER, Closed, Member, Parts, ROOT, Shared, Writer, close};
use std::alloc::Global;
use std::sync::atomic::{AtomicU64, Ordering};
use std::test::Fail;
use std::thread::{Threads, for_each_mut, join};
use term_core::NoMemory;

/// How many members the table has, each with a thread.
const MEMBERS: u32 = 3;

/// How often each of them reports.
const REPORTS: u32 = 10_000;

/// How often the root is stored.
const ROOTS: u32 = 1_000;

/// What the members' threads count.
#[derive(Drop)]
struct Tally {
    /// How often a report answered a generation before the one of the report before it.
    falls: AtomicU64,
    /// How often the counter was raised.
    raises: AtomicU64,
}

/// Tries to raise the counter once, and gives up the lead.
#[tactic(auto, using(new_tables::proofs::Leading::given_ready))]
fn raise_once(shared: &Shared<Any>, member: &mut Member) -> bool
    requires token { IsMemberOf shared.now.table.shared.table_id member.old }
    requires leads { IsLeader (view_of member.old) }
    requires slots { (view_of member.old).slots ≡ [] }
    ensures { HasReported shared.now.table.shared.table_id member.old member.new }
{
    let answer = advance(shared, member);
    give_up(shared, member);
    matches!(answer, Advance::Advanced(_))
}

/// Tries to raise the counter where nobody else leads.
#[tactic(auto, using(new_tables::proofs::Leading::led_ready, new_tables::proofs::Leading::held_ready, new_tables::proofs::Leading::still_none))]
fn raise(shared: &Shared<Any>, member: &mut Member) -> bool
    requires ready { IsReady shared.now.table.shared.table_id member.old }
    ensures { HasReported shared.now.table.shared.table_id member.old member.new }
{
    match lead(shared, member) {
        Lead::Led => raise_once(shared, member),
        Lead::Held { .. } => false,
    }
}

/// Reports, and then tries to raise the counter.
#[tactic(auto, using(new_tables::proofs::Leading::reported_ready, new_tables::proofs::Leading::led_ready))]
fn report_once(shared: &Shared<Any>, member: &mut Member, tally: &Tally) -> u64
    requires ready { IsReady shared.now.table.shared.table_id member.old }
    ensures { HasReported shared.now.table.shared.table_id member.old member.new }
{
    let generation = report(shared, member);
    if raise(shared, member) {
        tally.raises.fetch_add(1, Ordering::SeqCst);
    }
    generation
}

/// Reports again and again, and counts the falls from a generation to an earlier one.
#[tactic(auto, using(new_tables::proofs::Leading::reported_none, new_tables::proofs::Leading::reported_more))]
fn report_often(shared: &Shared<Any>, member: &mut Member, tally: &Tally)
    requires ready { IsReady shared.now.table.shared.table_id member.old }
    ensures { HasReported shared.now.table.shared.table_id member.old member.new }
{
    let mut last = 0;
    for _ in 0..REPORTS {
        let generation = report_once(shared, member, tally);
        if generation < last {
            tally.falls.fetch_add(1, Ordering::SeqCst);
        }
        last = generation;
    }
}

/// Each member reports in a thread of its own.
fn report_each<R: Threads + Sync>(
    rt: &R,
    shared: &Shared<Any>,
    members: &mut [Member],
    tally: &Tally,
)
    requires ready { All (λ token. IsReady shared.now.table.shared.table_id token) members.old }
    ensures { (k : ℕ) (token : tokens.Member) → k < length members.old → HasReported shared.now.table.shared.table_id (slice_index_or members.old k token) (slice_index_or members.new k token) }
{
    for_each_mut(
        rt,
        members,
        MEMBERS as usize,
        &|_, member| { report_often(shared, member, tally) },
    );
}

/// All members report, each in a thread of its own.
fn report_all<R: Threads + Sync>(
    rt: &R,
    shared: &Shared<Any>,
    mut members: Vec<Member>,
    tally: &Tally,
) -> Vec<Member>
    requires members { AreMembersBegun shared.now.table.shared.table_id shared.now.table.shared.key.members members.items }
    ensures { AreAllMembers shared.now.table.shared.table_id shared.now.table.shared.key.members result.items }
{
    report_each(rt, shared, members.as_mut_slice(), tally);
    members
}

/// Publishes the empty generation again and again.
fn publish_often(shared: &Shared<Any>, mut writer: Writer) -> Writer
    requires token { IsWriterOf shared.now.table.shared.table_id shared.now.table.shared.key writer }
    requires empty { IsEmpty (written_by writer) }
    requires first { writer.generation ≡ 0 }
    ensures { IsWriterOf shared.now.table.shared.table_id shared.now.table.shared.key result }
{
    for _ in 0..ROOTS {
        publish(shared, &mut writer);
    }
    writer
}

/// The writer publishes in one thread, and the members report in theirs.
fn run_beside<R: Threads + Sync>(
    rt: &R,
    shared: &Shared<Any>,
    parts: Parts,
    tally: &Tally,
) -> (Writer, Vec<Member>)
    requires token { IsWriterOf shared.now.table.shared.table_id shared.now.table.shared.key parts.writer }
    requires empty { IsEmpty (written_by parts.writer) }
    requires first { parts.writer.generation ≡ 0 }
    requires members { AreMembersBegun shared.now.table.shared.table_id shared.now.table.shared.key.members parts.members.items }
    ensures writer { IsWriterOf shared.now.table.shared.table_id shared.now.table.shared.key result.0 }
    ensures members { AreAllMembers shared.now.table.shared.table_id shared.now.table.shared.key.members result.1.items }
{
    let Parts {
        writer,
        members,
        watchers: _,
    } = parts;
    join(
        rt,
        move || publish_often(shared, writer),
        move || -> Vec<Member>
            requires { AreMembersBegun shared.now.table.shared.table_id shared.now.table.shared.key.members members.items }
            ensures { AreAllMembers shared.entry.now.table.shared.table_id shared.entry.now.table.shared.key.members result.items }
        { report_all(rt, shared, members, tally) },
    )
}

/// Runs all threads to their ends, and closes the table.
#[tactic(auto, using(new_tables::proofs::Emptied::handing_empty, new_tables::proofs::Emptied::handing_first, new_tables::proofs::Leading::begun_as, shared_words::proofs::WatchersTaken::none_are_watchers))]
fn run_to_end<R: Threads + Sync>(
    rt: &R,
    alloc: Global,
    shared: Shared<Any>,
    parts: Parts,
    tally: &Tally,
) -> Result<Closed, NoMemory>
    requires opening { shared.table.shared.key.members ≡ MEMBERS }
    requires token { IsWriterOf shared.table.shared.table_id shared.table.shared.key parts.writer }
    requires writer { IsHanding shared.table.shared.table_id shared.table.shared.key MEMBERS parts.writer.seat }
    requires members { AreMembersBegun shared.table.shared.table_id MEMBERS parts.members.items }
{
    let (writer, members) = run_beside(rt, &shared, parts, tally);
    close(
        alloc,
        shared,
        Parts {
            writer,
            members,
            watchers: Vec::new(alloc),
        },
    )
}

#[test]
fn grace_on_threads(rt: HostRuntime) -> Result<(), Fail> {
    let (shared, parts) = Shared::<Any>::new(rt.alloc(), MEMBERS, 0)?;
    let tally = Tally {
        falls: AtomicU64::new(0),
        raises: AtomicU64::new(0),
    };
    let closed = run_to_end(&rt, rt.alloc(), shared, parts, &tally)?;
    let falls = tally.falls.load(Ordering::SeqCst);
    let raises = tally.raises.load(Ordering::SeqCst);
    assert_eq!(rt; falls, 0, "no generation falls");
    assert!(rt;
        raises > 0,
        "whoever leads first finds that all words are 2"
    );
    assert_eq!(rt; closed.published(), 1_000, "the root was stored so often");
    let words = closed.words();
    assert_eq!(rt;
        words.get(ROOT as usize).copied(),
        Some(32_000),
        "the root of generation 1,000"
    );
    assert_eq!(rt;
        words.get(COUNTER as usize).copied(),
        Some(raises.wrapping_add(1)),
        "each raise is by one"
    );
    Ok(())
}
