//! Areas that are published, retired and released, all from one thread. The expected values are those
//! of the rules: 55 blocks from block 9 on are for instances, serials begin at 1, and where no block of
//! a pool is free and one is retired, its release is awaited.

ghost use Rattle.std.specs.Prelude.{◌≡◌, ◌≤◌};
ghost use Rattle.shared_words.specs.declared.view.WriterView.{WriterView};
ghost use Rattle.shared_words.specs.Making.{IsHanding, IsMemberBegun};
ghost use Rattle.progress_words.specs.Tokens.{written_by, IsWriterOf};
ghost use Rattle.literal_areas.specs.Blocks.{opening_areas};
ghost use Rattle.literal_areas.specs.Owned.{AreOf};
ghost use Rattle.area_tests.specs.Gone.{AreGone};
ghost use Rattle.area_tests.specs.Several.{AreTaken};

use crate::pools::take_instances;
use crate::released::{pass_both, release_first, take_need};
use crate::several::{AREAS, publish_retired, retire_all, take_all};
use crate::tables::Any;
use literal_areas::{Pool, Pools, Take};
use shared_words::{Member, Parts, Shared, Writer};
use std::alloc::Global;
use std::test::Fail;
use term_core::{AreaRef, NoMemory};

/// What came of the areas.
#[derive(Debug, PartialEq, Eq, Drop)]
struct Seen {
    /// How many others were taken once three are retired.
    others: u32,
    /// What the next take came to.
    waits: Take,
    /// Whether the counter was raised, and then the first area was released.
    passed: bool,
    released: bool,
    /// What the take after that came to.
    next: Take,
}

/// Takes all blocks for instances that are left, and then has to wait. Answers how many came in their order.
#[tactic(auto, using(crate::proofs::Serials::next_after, crate::proofs::Gone::gone_after))]
fn take_rest(pools: &mut Pools) -> (u32, Take)
    requires room { pools.old.next ≤ 4 }
    ensures next { pools.new.next ≤ 57 }
    ensures gone { (w : WriterView) → AreGone 0 3 pools.old w → AreGone 0 3 pools.new w }
{
    let taken = take_instances(pools, 3, 52);
    (taken, pools.take(Pool::Big))
}

/// The life of three areas from their publication to the release of the first one, while all other blocks are taken.
#[tactic(auto, using(new_tables::proofs::Blank::handing_blank))]
fn live_and_go(
    shared: &Shared<Any>,
    writer: &mut Writer,
    member: &mut Member,
    pools: &mut Pools,
) -> Seen
    requires token { IsWriterOf shared.now.table.shared.table_id shared.now.table.shared.key writer.old }
    requires handing { IsHanding shared.now.table.shared.table_id shared.now.table.shared.key 1 writer.old.seat }
    requires begun { IsMemberBegun shared.now.table.shared.table_id 0 member.old }
    requires taken { AreTaken 3 pools.old }
    requires owned { AreOf pools.old (written_by writer.old) }
{
    retire_all(shared, writer, pools);
    publish_retired(shared, writer, pools);
    let (others, waits) = take_rest(pools);
    let need = take_need(shared, writer, pools, AREAS);
    let passed = pass_both(shared, member);
    let released = release_first(shared, writer, pools, need);
    let next = pools.take(Pool::Big);
    Seen {
        others,
        waits,
        passed,
        released,
        next,
    }
}

/// The same from new pools on.
fn take_and_go(
    shared: &Shared<Any>,
    writer: &mut Writer,
    member: &mut Member,
    pools: &mut Pools,
) -> Option<Seen>
    requires token { IsWriterOf shared.now.table.shared.table_id shared.now.table.shared.key writer.old }
    requires handing { IsHanding shared.now.table.shared.table_id shared.now.table.shared.key 1 writer.old.seat }
    requires begun { IsMemberBegun shared.now.table.shared.table_id 0 member.old }
    requires opening { pools.old ≡ opening_areas }
    requires owned { AreOf pools.old (written_by writer.old) }
{
    if take_all(pools) {
        Some(live_and_go(shared, writer, member, pools))
    } else {
        None
    }
}

/// The same over a new table of one member.
#[tactic(auto, using(new_tables::proofs::Begun::last_begun))]
fn go_over_new(alloc: Global) -> Result<Option<Seen>, NoMemory> {
    let mut pools = Pools::new(alloc)?;
    let (shared, parts) = Shared::<Any>::new(alloc, 1, 0)?;
    let Parts {
        mut writer,
        mut members,
        watchers: _,
    } = parts;
    let Some(mut member) = members.pop() else {
        return Ok(None);
    };
    Ok(take_and_go(&shared, &mut writer, &mut member, &mut pools))
}

/// Once three of 55 areas for instances are retired and the others taken, the next one has to wait until
/// the first is released, and then has its block and the next serial.
#[test]
fn a_retired_area_awaits_its_release(rt: HostRuntime) -> Result<(), Fail> {
    let seen = go_over_new(rt.alloc())?;
    let first = AreaRef {
        serial: 56,
        block: 9,
    };
    let wanted = Seen {
        others: 52,
        waits: Take::AwaitRelease,
        passed: true,
        released: true,
        next: Take::Area(first),
    };
    assert_eq!(rt; seen, Some(wanted));
    Ok(())
}
