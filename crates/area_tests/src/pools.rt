//! Pools of blocks, without a table. The expected values are those of the rules: 55 blocks from block 9
//! on are for instances, 256 from block 64 on for terms, and serials begin at 1.

ghost use Rattle.std.specs.Prelude.{◌+◌, ◌≤◌, ◌<◌, ◌^◌};
ghost use Rattle.shared_words.specs.declared.view.WriterView.{WriterView};
ghost use Rattle.area_tests.specs.Gone.{AreGone};

use literal_areas::{Pool, Pools, Take};
use std::test::Fail;
use term_core::AreaRef;

/// Takes so many areas for instances, after the first ones; answers how many of them came in their order.
#[tactic(auto, using(crate::proofs::Serials::next_after, crate::proofs::Gone::gone_after))]
pub fn take_instances(pools: &mut Pools, first: u32, count: u32) -> u32
    requires first { first ≤ 64 }
    requires few { count ≤ 64 }
    requires room { pools.old.next + count < 2 ^ 40 }
    ensures next { pools.new.next ≤ pools.old.next + count }
    ensures gone { (w : WriterView) → AreGone 0 3 pools.old w → AreGone 0 3 pools.new w }
{
    let mut right = 0;
    for at in 0..count {
        let area = AreaRef {
            serial: u64::from(first + at) + 1,
            block: first + at + 9,
        };
        if pools.take(Pool::Big) == Take::Area(area) {
            right += 1;
        }
    }
    right
}

/// After 55 areas for instances all blocks for them are live, and a serial that is given back is the
/// next one.
#[test]
#[tactic(auto, using(crate::proofs::Serials::next_after, crate::proofs::Serials::taken_last))]
fn all_blocks_are_live(rt: HostRuntime) -> Result<(), Fail> {
    let mut pools = Pools::new(rt.alloc())?;
    assert_eq!(rt; take_instances(&mut pools, 0, 55), 55);
    assert_eq!(rt; pools.take(Pool::Big), Take::AllLive);
    let first = AreaRef {
        serial: 56,
        block: 64,
    };
    let taken = pools.take(Pool::Small);
    assert_eq!(rt; taken, Take::Area(first));
    if let Take::Area(area) = taken {
        pools.give_back(area);
        assert_eq!(rt; pools.take(Pool::Small), Take::Area(first));
    }
    Ok(())
}
