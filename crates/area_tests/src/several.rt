//! Three areas without words, which are taken, published and retired. They have the serials from 1 on, and
//! the blocks from 9 on.

ghost use Rattle.std.specs.Prelude.{◌≡◌, ◌+◌, ◌<◌, true};
ghost use Rattle.shared_words.specs.declared.view.WriterView.{WriterView};
ghost use Rattle.progress_words.specs.Tokens.{written_by, IsWriterOf};
ghost use Rattle.literal_areas.specs.Blocks.{opening_areas};
ghost use Rattle.literal_areas.specs.Owned.{AreOf};
ghost use Rattle.new_tables.specs.Blank.{IsBlank};
ghost use Rattle.area_tests.specs.Gone.{AreGone};
ghost use Rattle.area_tests.specs.Many.{ref_one};
ghost use Rattle.area_tests.specs.Several.{AreTaken, AreRetiring};

use crate::tables::Any;
use literal_areas::{Pool, Pools, Take, roots_keep_pools};
use shared_words::{Next, Shared, Writer};
use term_core::AreaRef;

/// How many areas there are.
pub const AREAS: u32 = 3;

/// The generation in which all are current.
struct Current;

impl Next for Current {
    ghost use Rattle.area_tests.specs.Several.{three_published};

    ghost next = { three_published };
}

/// The generation in which all are retired.
struct Retired;

impl Next for Retired {
    ghost use Rattle.area_tests.specs.Several.{retired_published};

    ghost next = { retired_published };
}

/// The area behind so many: its serial is one more, and its block that far behind block 9.
#[tactic(auto, using(crate::proofs::Taking::ref_is))]
pub fn area_of(at: u32) -> AreaRef
    requires few { at < 55 }
    ensures { result ≡ ref_one at }
{
    AreaRef {
        serial: u64::from(at) + 1,
        block: at + 9,
    }
}

/// Takes the area behind so many; answers whether it has the next serial and the next block.
fn take_next(pools: &mut Pools, at: u32) -> bool
    requires few { at < 3 }
    requires taken { AreTaken at pools.old }
    ensures taken { result ≡ true → AreTaken (at + 1) pools.new }
    ensures owned { (w : WriterView) → AreOf pools.old w → AreOf pools.new w }
{
    let area = area_of(at);
    pools.take(Pool::Big) == Take::Area(area)
}

/// Takes the areas from new pools; answers whether they have the first serials and blocks.
#[tactic(auto, using(crate::proofs::Taking::none_taken))]
pub fn take_all(pools: &mut Pools) -> bool
    requires opening { pools.old ≡ opening_areas }
    ensures taken { result ≡ true → AreTaken 3 pools.new }
    ensures owned { (w : WriterView) → AreOf pools.old w → AreOf pools.new w }
{
    for at in 0..AREAS {
        if !take_next(pools, at) {
            return false;
        }
    }
    true
}

/// Publishes the generation in which the areas are current.
#[tactic(auto, using(crate::proofs::Retiring::three_root, crate::proofs::Retiring::blank_room))]
fn publish_current(shared: &Shared<Any>, writer: &mut Writer, pools: &Pools)
    // a table on which only the opening generation was published
    requires token { IsWriterOf shared.now.table.shared.table_id shared.now.table.shared.key writer.old }
    requires blank { IsBlank (written_by writer.old) }
    // areas that are taken, and not published yet
    requires taken { AreTaken 3 pools.now }
    requires owned { AreOf pools.now (written_by writer.old) }
    // all of them may be retired next
    ensures token { IsWriterOf shared.now.table.shared.table_id shared.now.table.shared.key writer.new }
    ensures notes { (written_by writer.new).notes ≡ (written_by writer.old).notes }
    ensures retiring { AreRetiring 0 pools.now (written_by writer.new) }
{
    let _ = pools;
    roots_keep_pools();
    shared.store_root::<Current>(writer, 0, 0, 0);
}

/// Retires the area behind so many.
fn retire_next(shared: &Shared<Any>, writer: &mut Writer, pools: &mut Pools, at: u32)
    requires token { IsWriterOf shared.now.table.shared.table_id shared.now.table.shared.key writer.old }
    requires few { at < 3 }
    requires retiring { AreRetiring at pools.old (written_by writer.old) }
    ensures next { pools.new.next ≡ pools.old.next }
    ensures token { IsWriterOf shared.now.table.shared.table_id shared.now.table.shared.key writer.new }
    ensures notes { (written_by writer.new).notes ≡ (written_by writer.old).notes }
    ensures retiring { AreRetiring (at + 1) pools.new (written_by writer.new) }
{
    let area = area_of(at);
    pools.retire(shared, writer, area);
}

/// Publishes the areas, and retires them.
pub fn retire_all(shared: &Shared<Any>, writer: &mut Writer, pools: &mut Pools)
    // a table on which only the opening generation was published
    requires token { IsWriterOf shared.now.table.shared.table_id shared.now.table.shared.key writer.old }
    requires blank { IsBlank (written_by writer.old) }
    // areas that are taken, and not published yet
    requires taken { AreTaken 3 pools.old }
    requires owned { AreOf pools.old (written_by writer.old) }
    // the generation in which they are retired comes next
    ensures next { pools.new.next ≡ pools.old.next }
    ensures token { IsWriterOf shared.now.table.shared.table_id shared.now.table.shared.key writer.new }
    ensures notes { (written_by writer.new).notes ≡ (written_by writer.old).notes }
    ensures retiring { AreRetiring 3 pools.new (written_by writer.new) }
{
    publish_current(shared, writer, pools);
    for at in 0..AREAS {
        retire_next(shared, writer, pools, at);
    }
}

/// Publishes the generation in which the areas are retired.
#[tactic(auto, using(crate::proofs::Retiring::retired_root, crate::proofs::Retiring::retired_room))]
pub fn publish_retired(shared: &Shared<Any>, writer: &mut Writer, pools: &Pools)
    requires token { IsWriterOf shared.now.table.shared.table_id shared.now.table.shared.key writer.old }
    requires retiring { AreRetiring 3 pools.now (written_by writer.old) }
    ensures token { IsWriterOf shared.now.table.shared.table_id shared.now.table.shared.key writer.new }
    ensures gone { AreGone 0 3 pools.now (written_by writer.new) }
{
    let _ = pools;
    roots_keep_pools();
    shared.store_root::<Retired>(writer, 0, 0, 0);
}
