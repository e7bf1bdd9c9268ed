//! All blocks for areas, and the serial of the area that is taken next.

ghost use Rattle.std.specs.Prelude.{◌≡◌, false, None, IsTrue, is_some};
ghost use Rattle.std.specs.Option.{IfSome};
ghost use Rattle.std.specs.List.{list_any};
ghost use Rattle.literal_areas.specs.Blocks.{is_free, HasSizes, IsFreeIn, blocks_of, first_of, serial_at, use_of, with_use};

use crate::blocks::{BlockList, BlockUse, Pool};
use crate::places::{FIRST_INSTANCE_BLOCK, FIRST_TERM_BLOCK};

/// The blocks of both pools.
#[derive(Debug, Drop)]
pub struct Areas {
    /// The serial of the next area.
    pub next: u64,
    /// The blocks for instances.
    pub big: BlockList,
    /// The blocks for complex persistent terms.
    pub small: BlockList,
}

impl Areas {
    /// The blocks of a pool.
    pub fn blocks(&self, pool: Pool) -> &BlockList
        ensures { result.now ≡ blocks_of pool self.now }
    {
        match pool {
            Pool::Big => &self.big,
            Pool::Small => &self.small,
        }
    }

    /// The first free block of a pool.
    pub fn free_block(&self, pool: Pool) -> Option<u32>
        requires sizes { HasSizes self.now }
        ensures found { IfSome result (λ block. IsFreeIn pool self.now block) }
        ensures none { result ≡ None → list_any is_free (blocks_of pool self.now) ≡ false }
    {
        let Some(place) = self.blocks(pool).first_free() else {
            return None;
        };
        Some(first_block(pool) + place as u32)
    }

    /// The serial of the area in a block, if it has one.
    pub fn serial_at(&self, block: u32) -> Option<u64>
        ensures { result ≡ serial_at self.now block }
    {
        if block < FIRST_INSTANCE_BLOCK {
            None
        } else if block < FIRST_TERM_BLOCK {
            self.big.serial((block - FIRST_INSTANCE_BLOCK) as usize)
        } else {
            self.small.serial((block - FIRST_TERM_BLOCK) as usize)
        }
    }

    /// Gives a block another use.
    pub fn set_use(&mut self, block: u32, used: BlockUse)
        requires there { IsTrue (is_some (use_of self.old block)) }
        ensures { self.new ≡ with_use block used self.old }
    {
        if block < FIRST_TERM_BLOCK {
            self.big.set((block - FIRST_INSTANCE_BLOCK) as usize, used);
        } else {
            self.small.set((block - FIRST_TERM_BLOCK) as usize, used);
        }
    }
}

/// The number of the first block of a pool.
fn first_block(pool: Pool) -> u32
    ensures { result ≡ first_of pool }
{
    match pool {
        Pool::Big => FIRST_INSTANCE_BLOCK,
        Pool::Small => FIRST_TERM_BLOCK,
    }
}
