//! The writer's thread: it publishes the generation in which three areas are retired, and waits. Then it
//! looks through all slots until no anchor names the first area, releases it, and looks again and again;
//! so for each area, and again for those that were released before.

ghost use Rattle.std.specs.Prelude.{◌≡◌, ◌+◌, ◌<◌, ◌≤◌, true, false};
ghost use Rattle.shared_words.specs.Making.{IsMemberBegun};
ghost use Rattle.progress_words.specs.Tokens.{written_by, IsMemberOf, IsWriterOf};
ghost use Rattle.progress_words.specs.Needs.{HasTaken};
ghost use Rattle.anchors.specs.Scans.{LooksMore};
ghost use Rattle.new_tables.specs.Leading.{IsLeading};
ghost use Rattle.area_tests.specs.Gone.{AreGone};
ghost use Rattle.area_tests.specs.Several.{AreRetiring, AreClear, AreReleased};

use crate::leading::lead_on;
use crate::released::{is_over, release_clear, take_need};
use crate::several::{AREAS, area_of, publish_retired};
use crate::tables::Any;
use anchors::{Scan, scan};
use literal_areas::Pools;
use progress_words::{Lead, lead};
use shared_words::{Member, Shared, Writer};

/// How often the writer tries, at most: far more often than the members make turns.
const TRIES: u64 = 1_000_000_000_000;

/// How often the writer looks again for each area.
const LOOKS: u32 = 100;

/// What the writer's thread gives back.
#[derive(Drop)]
pub struct Written {
    pub writer: Writer,
    pub leader: Member,
    /// How many areas were released.
    pub released: u32,
    /// How many looks found an area after its release.
    pub late: u32,
}

/// Waits until the value is reached; the leader raises the counter.
fn await_need(
    shared: &Shared<Any>,
    writer: &mut Writer,
    leader: &mut Member,
    pools: &Pools,
    need: u64,
) -> bool
    requires token { IsWriterOf shared.now.table.shared.table_id shared.now.table.shared.key writer.old }
    requires gone { AreGone 0 3 pools.now (written_by writer.old) }
    requires taken { HasTaken (written_by writer.old) 2 need }
    requires leads { IsLeading shared.now.table.shared.table_id leader.old }
    ensures token { IsWriterOf shared.now.table.shared.table_id shared.now.table.shared.key writer.new }
    ensures gone { AreGone 0 3 pools.now (written_by writer.new) }
    ensures taken { HasTaken (written_by writer.new) 2 need }
    ensures enough { result ≡ true → need ≤ (written_by writer.new).counter }
    ensures leads { IsLeading shared.now.table.shared.table_id leader.new }
    ensures number { leader.new.number ≡ leader.old.number }
{
    for _ in 0..TRIES {
        let _answer = lead_on(shared, leader);
        if is_over(shared, writer, pools, need) {
            return true;
        }
    }
    false
}

/// Looks until no slot names the area behind so many, and releases it.
fn release_soon(
    shared: &Shared<Any>,
    writer: &mut Writer,
    pools: &mut Pools,
    at: u32,
    need: u64,
) -> bool
    requires token { IsWriterOf shared.now.table.shared.table_id shared.now.table.shared.key writer.old }
    requires few { at < 3 }
    requires released { AreReleased at 3 need pools.old (written_by writer.old) }
    ensures token { IsWriterOf shared.now.table.shared.table_id shared.now.table.shared.key writer.new }
    ensures released { result ≡ true → AreReleased (at + 1) 3 need pools.new (written_by writer.new) }
    ensures stays { result ≡ false → AreReleased at 3 need pools.new (written_by writer.new) }
{
    for _ in 0..TRIES {
        if release_clear(shared, writer, pools, at, AREAS, need) {
            return true;
        }
    }
    false
}

/// One look for the area behind so many, which is released: 1 where an anchor named it.
fn look_once(shared: &Shared<Any>, writer: &mut Writer, at: u32, count: u32) -> u32
    requires token { IsWriterOf shared.now.table.shared.table_id shared.now.table.shared.key writer.old }
    requires few { (at < count) × (count ≤ 3) }
    requires clear { AreClear count (written_by writer.old) }
    ensures token { IsWriterOf shared.now.table.shared.table_id shared.now.table.shared.key writer.new }
    ensures more { LooksMore (written_by writer.old) (written_by writer.new) }
    ensures few { result ≤ 1 }
{
    let _ = count;
    let area = area_of(at);
    match scan(shared, writer, area, None) {
        Scan::Named { .. } => 1,
        Scan::Clear { .. } => 0,
    }
}

/// Looks again and again for the first so many areas; answers how often an anchor named one.
#[tactic(auto, using(anchors::proofs::Scanning::none_more))]
fn look_again(shared: &Shared<Any>, writer: &mut Writer, count: u32) -> u32
    requires token { IsWriterOf shared.now.table.shared.table_id shared.now.table.shared.key writer.old }
    requires few { (1 ≤ count) × (count ≤ 3) }
    requires clear { AreClear count (written_by writer.old) }
    ensures token { IsWriterOf shared.now.table.shared.table_id shared.now.table.shared.key writer.new }
    ensures more { LooksMore (written_by writer.old) (written_by writer.new) }
    ensures few { result ≤ 300 }
{
    let mut late = 0;
    for look in 0..LOOKS * count {
        late += look_once(shared, writer, look % count, count);
    }
    late
}

/// Releases one area after another, each once a look is clear, and looks again after each. Answers how many
/// were released, and how many looks found one that was.
fn release_all(
    shared: &Shared<Any>,
    writer: &mut Writer,
    pools: &mut Pools,
    need: u64,
) -> (u32, u32)
    requires token { IsWriterOf shared.now.table.shared.table_id shared.now.table.shared.key writer.old }
    requires released { AreReleased 0 3 need pools.old (written_by writer.old) }
    ensures token { IsWriterOf shared.now.table.shared.table_id shared.now.table.shared.key writer.new }
    ensures clear { AreClear result.0 (written_by writer.new) }
{
    let mut late = 0;
    for at in 0..AREAS {
        if !release_soon(shared, writer, pools, at, need) {
            return (at, late);
        }
        late += look_again(shared, writer, at + 1);
    }
    (AREAS, late)
}

/// The writer's part: publishes that the areas are retired, waits, and releases one after another.
pub fn write_all(
    shared: &Shared<Any>,
    mut writer: Writer,
    mut leader: Member,
    mut pools: Pools,
) -> Written
    requires token { IsWriterOf shared.now.table.shared.table_id shared.now.table.shared.key writer }
    requires retiring { AreRetiring 3 pools (written_by writer) }
    requires leader { IsMemberBegun shared.now.table.shared.table_id 2 leader }
    ensures writer { IsWriterOf shared.now.table.shared.table_id shared.now.table.shared.key result.writer }
    ensures leader { IsMemberOf shared.now.table.shared.table_id result.leader }
    ensures number { result.leader.number ≡ leader.number }
    ensures clear { AreClear result.released (written_by result.writer) }
{
    publish_retired(shared, &mut writer, &pools);
    let need = take_need(shared, &mut writer, &pools, AREAS);
    let (released, late) = release_beside(shared, &mut writer, &mut leader, &mut pools, need);
    Written {
        writer,
        leader,
        released,
        late,
    }
}

/// Waits, and releases one area after another. The leader gives up the lead.
#[tactic(auto, using(new_tables::proofs::Begun::of_begun, new_tables::proofs::Heading::leader_may, new_tables::proofs::Heading::leads_first, crate::proofs::Looked::none_clear, crate::proofs::Looked::none_released))]
fn release_beside(
    shared: &Shared<Any>,
    writer: &mut Writer,
    leader: &mut Member,
    pools: &mut Pools,
    need: u64,
) -> (u32, u32)
    requires token { IsWriterOf shared.now.table.shared.table_id shared.now.table.shared.key writer.old }
    requires gone { AreGone 0 3 pools.old (written_by writer.old) }
    requires taken { HasTaken (written_by writer.old) 2 need }
    requires leader { IsMemberBegun shared.now.table.shared.table_id 2 leader.old }
    ensures writer { IsWriterOf shared.now.table.shared.table_id shared.now.table.shared.key writer.new }
    ensures leader { IsMemberOf shared.now.table.shared.table_id leader.new }
    ensures number { leader.new.number ≡ leader.old.number }
    ensures clear { AreClear result.0 (written_by writer.new) }
{
    let Lead::Led = lead(shared, leader) else {
        return (0, 0);
    };
    if !await_need(shared, writer, leader, pools, need) {
        return (0, 0);
    }
    release_all(shared, writer, pools, need)
}
