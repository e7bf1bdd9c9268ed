//! Two members hold and drop three areas at random, each in a thread of its own, while the writer publishes
//! the generation in which all are retired, waits, looks through all slots and releases one after another.
//! The expected values are those of the rules: once a look was clear, no look finds the area; a process
//! makes 20,001 turns, and names nothing after the last one.

ghost use Rattle.std.specs.Prelude.{◌≡◌, true, [], IfOk, IfSome};
ghost use Rattle.shared_words.specs.Making.{AreMembersBegun, IsHanding, IsMemberBegun};
ghost use Rattle.progress_words.specs.Tokens.{written_by, IsMemberOf, IsWriterOf};
ghost use Rattle.literal_areas.specs.Blocks.{opening_areas};
ghost use Rattle.literal_areas.specs.Owned.{AreOf};
ghost use Rattle.area_tests.specs.Several.{three_published, AreRetiring, AreClear, NamesNone};
ghost use Rattle.area_tests.specs.Three.{AreThree, ArePrepared};
ghost use Rattle.area_tests.specs.Work.{IsPlaying};

use crate::players::{TURNS, play};
use crate::several::{AREAS, retire_all, take_all};
use crate::starting::begin_work;
use crate::tables::Any;
use crate::three::{Three, join_three, take_three};
use crate::writing::{Written, write_all};
use literal_areas::Pools;
use shared_words::{Member, Parts, Shared, Writer, close};
use std::alloc::Global;
use std::test::Fail;
use std::thread::{Threads, join};
use term_core::{NoMemory, WordList};

/// How many members the table has: two that play, and one that leads.
const MEMBERS: u32 = 3;

/// What a run tells.
#[derive(Drop)]
struct Told {
    /// How many areas were released, each after a look that was clear.
    released: u32,
    /// How many looks found an area after its release.
    late: u32,
    /// The words of the table at its end.
    words: WordList,
}

/// Both members begin; answers whether they hold the generation that uses the areas.
#[tactic(auto, using(new_tables::proofs::Begun::of_begun, new_tables::proofs::Begun::view_begun, new_tables::proofs::Begun::copied_begun, crate::proofs::Noted::first_note, crate::proofs::Noted::second_note, crate::proofs::Noted::two_retiring, crate::proofs::Noted::retiring_noted, crate::proofs::Noted::prepared))]
fn begin_both(
    shared: &Shared<Any>,
    writer: &mut Writer,
    first: &mut Member,
    second: &mut Member,
    pools: &Pools,
) -> bool
    requires token { IsWriterOf shared.now.table.shared.table_id shared.now.table.shared.key writer.old }
    requires three { shared.now.table.shared.key.members ≡ 3 }
    requires unnoted { (written_by writer.old).notes ≡ [] }
    requires retiring { AreRetiring 3 pools.now (written_by writer.old) }
    requires first { IsMemberBegun shared.now.table.shared.table_id 0 first.old }
    requires second { IsMemberBegun shared.now.table.shared.table_id 1 second.old }
    ensures { result ≡ true → ArePrepared shared.now.table.shared.table_id shared.now.table.shared.key pools.now writer.new first.new second.new }
{
    let _ = pools;
    if begin_work(shared, writer, first, 0) {
        begin_work(shared, writer, second, 1)
    } else {
        false
    }
}

/// Takes the areas, publishes and retires them; then both members begin.
#[tactic(auto, using(new_tables::proofs::Blank::handing_blank))]
fn prepare(
    shared: &Shared<Any>,
    writer: &mut Writer,
    first: &mut Member,
    second: &mut Member,
    pools: &mut Pools,
) -> bool
    // a new table of three members, and new pools
    requires token { IsWriterOf shared.now.table.shared.table_id shared.now.table.shared.key writer.old }
    requires handing { IsHanding shared.now.table.shared.table_id shared.now.table.shared.key 3 writer.old.seat }
    requires three { shared.now.table.shared.key.members ≡ 3 }
    requires first { IsMemberBegun shared.now.table.shared.table_id 0 first.old }
    requires second { IsMemberBegun shared.now.table.shared.table_id 1 second.old }
    requires pools { pools.old ≡ opening_areas }
    requires owned { AreOf pools.old (written_by writer.old) }
    // the areas are retired from the next generation on, and both play
    ensures { result ≡ true → ArePrepared shared.now.table.shared.table_id shared.now.table.shared.key pools.new writer.new first.new second.new }
{
    if take_all(pools) {
        retire_all(shared, writer, pools);
        begin_both(shared, writer, first, second, pools)
    } else {
        false
    }
}

/// Both members play, each in a thread of its own.
fn play_both<R: Threads + Sync>(
    rt: &R,
    shared: &Shared<Any>,
    first: Member,
    second: Member,
) -> (Member, Member)
    requires first { IsPlaying shared.now.table.shared.table_id shared.now.table.shared.key 0 three_published first }
    requires second { IsPlaying shared.now.table.shared.table_id shared.now.table.shared.key 1 three_published second }
    ensures first { IsMemberOf shared.now.table.shared.table_id result.0 }
    ensures first_number { result.0.number ≡ first.number }
    ensures second { IsMemberOf shared.now.table.shared.table_id result.1 }
    ensures second_number { result.1.number ≡ second.number }
{
    join(
        rt,
        move || play(shared, first, 0),
        move || play(shared, second, 1),
    )
}

/// The writer and both members do their parts, each in a thread of its own.
#[tactic(auto, using(crate::proofs::Members::three_ended))]
fn run_beside<R: Threads + Sync>(
    rt: &R,
    shared: &Shared<Any>,
    writer: Writer,
    three: Three,
    pools: Pools,
) -> (Written, (Member, Member))
    requires prepared { ArePrepared shared.now.table.shared.table_id shared.now.table.shared.key pools writer three.first three.second }
    requires leader { IsMemberBegun shared.now.table.shared.table_id 2 three.leader }
    ensures writer { IsWriterOf shared.now.table.shared.table_id shared.now.table.shared.key result.0.writer }
    ensures three { AreThree shared.now.table.shared.table_id result.1.0 result.1.1 result.0.leader }
    ensures clear { AreClear result.0.released (written_by result.0.writer) }
{
    let Three {
        first,
        second,
        leader,
    } = three;
    join(
        rt,
        move || write_all(shared, writer, leader, pools),
        move || -> (Member, Member)
            requires first { IsPlaying shared.now.table.shared.table_id shared.now.table.shared.key 0 three_published first }
            requires second { IsPlaying shared.now.table.shared.table_id shared.now.table.shared.key 1 three_published second }
        { play_both(rt, shared, first, second) },
    )
}

/// Ends the table. No anchor names an area that was released.
#[tactic(auto, using(crate::proofs::Silent::silent_end, shared_words::proofs::WatchersTaken::none_are_watchers))]
fn end_all(
    alloc: Global,
    shared: Shared<Any>,
    written: Written,
    first: Member,
    second: Member,
) -> Result<Told, NoMemory>
    requires opening { shared.table.shared.key.members ≡ 3 }
    requires writer { IsWriterOf shared.table.shared.table_id shared.table.shared.key written.writer }
    requires three { AreThree shared.table.shared.table_id first second written.leader }
    requires clear { AreClear written.released (written_by written.writer) }
    ensures { IfOk result (λ told. NamesNone told.words told.released) }
{
    let Written {
        writer,
        leader,
        released,
        late,
    } = written;
    let three = Three {
        first,
        second,
        leader,
    };
    let members = join_three(&shared, alloc, three)?;
    let closed = close(
        alloc,
        shared,
        Parts {
            writer,
            members,
            watchers: Vec::new(alloc),
        },
    )?;
    let words = closed.words();
    Ok(Told {
        released,
        late,
        words,
    })
}

/// Runs all threads to their ends. Nothing is told where the two that play do not come to hold the
/// generation that uses the areas.
fn run_parts<R: Threads + Sync>(
    rt: &R,
    alloc: Global,
    shared: Shared<Any>,
    parts: Parts,
    mut pools: Pools,
) -> Result<Option<Told>, NoMemory>
    requires opening { shared.table.shared.key.members ≡ 3 }
    requires token { IsWriterOf shared.table.shared.table_id shared.table.shared.key parts.writer }
    requires handing { IsHanding shared.table.shared.table_id shared.table.shared.key 3 parts.writer.seat }
    requires members { AreMembersBegun shared.table.shared.table_id 3 parts.members.items }
    requires pools { pools ≡ opening_areas }
    requires owned { AreOf pools (written_by parts.writer) }
    ensures { IfOk result (λ told. IfSome told (λ t. NamesNone t.words t.released)) }
{
    let Parts {
        mut writer,
        members,
        watchers: _,
    } = parts;
    let Some(mut three) = take_three(&shared, members) else {
        return Ok(None);
    };
    if !prepare(
        &shared,
        &mut writer,
        &mut three.first,
        &mut three.second,
        &mut pools,
    ) {
        return Ok(None);
    }
    let (written, (first, second)) = run_beside(rt, &shared, writer, three, pools);
    let told = end_all(alloc, shared, written, first, second)?;
    Ok(Some(told))
}

/// Makes a table of three members, and pools, and runs all threads.
#[tactic(auto, using(crate::proofs::Begun::begun_owned))]
fn run_all<R: Threads + Sync>(rt: &R, alloc: Global) -> Result<Option<Told>, NoMemory>
    ensures { IfOk result (λ told. IfSome told (λ t. NamesNone t.words t.released)) }
{
    let (shared, parts) = Shared::<Any>::new(alloc, MEMBERS, 0)?;
    let pools = Pools::new(alloc)?;
    run_parts(rt, alloc, shared, parts, pools)
}

/// Whether the word of an anchor names one of the areas.
fn names_one(word: Option<u64>) -> bool {
    match word {
        Some(word) => 1 <= word / 4 && word / 4 <= u64::from(AREAS) && word % 4 != 0,
        None => false,
    }
}

/// Whether a word of the slots names one of the areas, the first word of each slot left out.
fn is_named_at_end(words: &WordList) -> bool {
    for place in 0..1_088 {
        if place % 17 != 0 && names_one(words.get(place + 21).copied()) {
            return true;
        }
    }
    false
}

/// No look after one that was clear finds its area, and none of the words of the slots names one of the
/// areas at the end.
#[test]
fn never_named_after_clear(rt: HostRuntime) -> Result<(), Fail> {
    let Some(told) = run_all(&rt, rt.alloc())? else {
        assert!(rt; false, "both members hold the first generation");
        return Ok(());
    };
    let Told {
        released,
        late,
        words,
    } = told;
    assert_eq!(rt; released, AREAS, "each area is released");
    assert_eq!(rt; late, 0, "no look finds an area again");
    assert!(rt; !is_named_at_end(&words), "no anchor names an area");
    assert_eq!(rt; words.get(21).copied(), Some(u64::from(TURNS) + 1));
    assert_eq!(rt; words.get(38).copied(), Some(u64::from(TURNS) + 1));
    Ok(())
}
