//! Areas in the blocks of a shared table, all from one thread. The expected values are those of the map
//! of the table: the words of block 9 begin at 10,709 and those of block 64 at 67,029.

ghost use Rattle.std.specs.Prelude.{◌+◌, ◌≤◌, ◌<◌, ◌^◌, length};
ghost use Rattle.shared_words.specs.Making.{IsHanding};
ghost use Rattle.progress_words.specs.Tokens.{written_by, IsWriterOf};
ghost use Rattle.literal_areas.specs.Owned.{AreOf};

use crate::tables::{Any, last_words};
use literal_areas::{Pool, Pools, Take};
use shared_words::{Shared, Writer};
use std::alloc::Global;
use std::test::Fail;
use term_core::{NoMemory, WordList};

/// Takes an area of the pool, and stores these words into its block.
#[tactic(auto, using(crate::proofs::Serials::next_after, crate::proofs::Serials::taken_live, crate::proofs::Begun::few_fit))]
fn write_next(
    shared: &Shared<Any>,
    writer: &mut Writer,
    pools: &mut Pools,
    pool: Pool,
    words: &[u64],
)
    requires token { IsWriterOf shared.now.table.shared.table_id shared.now.table.shared.key writer.old }
    requires owned { AreOf pools.old (written_by writer.old) }
    requires room { pools.old.next < 2 ^ 40 }
    requires few { length words.now ≤ 64 }
    ensures token { IsWriterOf shared.now.table.shared.table_id shared.now.table.shared.key writer.new }
    ensures owned { AreOf pools.new (written_by writer.new) }
    ensures next { pools.new.next ≤ pools.old.next + 1 }
{
    if let Take::Area(area) = pools.take(pool) {
        pools.write(shared, writer, area, words);
    }
}

/// Writes an area for an instance and one for a term.
fn write_both(alloc: Global, shared: &Shared<Any>, writer: &mut Writer) -> Result<(), NoMemory>
    requires token { IsWriterOf shared.now.table.shared.table_id shared.now.table.shared.key writer.old }
    requires handing { IsHanding shared.now.table.shared.table_id shared.now.table.shared.key 1 writer.old.seat }
    ensures { IsWriterOf shared.now.table.shared.table_id shared.now.table.shared.key writer.new }
{
    let mut pools = Pools::new(alloc)?;
    write_next(shared, writer, &mut pools, Pool::Big, &[11, 12, 13]);
    write_next(shared, writer, &mut pools, Pool::Small, &[21, 22]);
    Ok(())
}

/// The words of a table in which they are written.
fn written_words(alloc: Global) -> Result<WordList, NoMemory> {
    let (shared, mut parts) = Shared::<Any>::new(alloc, 1, 0)?;
    write_both(alloc, &shared, &mut parts.writer)?;
    last_words(alloc, shared, parts)
}

/// An area for an instance and one for a term are written: their words stand in their blocks when the
/// table is closed, and no others.
#[test]
fn areas_stand_in_their_blocks(rt: HostRuntime) -> Result<(), Fail> {
    let words = written_words(rt.alloc())?;
    let cases = [
        (10_708, 0),
        (10_709, 11),
        (10_710, 12),
        (10_711, 13),
        (10_712, 0),
        (67_028, 0),
        (67_029, 21),
        (67_030, 22),
        (67_031, 0),
    ];
    for (place, word) in cases {
        assert_eq!(rt; words.get(place).copied(), Some(word), "at {place}");
    }
    Ok(())
}
