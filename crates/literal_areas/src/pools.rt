//! The pools of blocks that belong to one writer.

ghost use Rattle.std.specs.Prelude.{◌≡◌, ◌≢◌, ◌<◌, ℕ, IfOk, None, Some};
ghost use Rattle.std.specs.Option.{IfSome};
ghost use Rattle.area_core.specs.declared.map.TheConstants.{BLOCKS};
ghost use Rattle.literal_areas.specs.Blocks.{Stands, opening_areas, serial_at};
ghost use Rattle.literal_areas.specs.Owned.{AreAtFirst};

use crate::areas::Areas;
use crate::blocks::{BlockList, INSTANCE_BLOCKS, TERM_BLOCKS};
use crate::places::{AREA_BLOCKS, FIRST_INSTANCE_BLOCK};
use std::alloc::Global;
use std::marker::Model;
use term_core::{AreaRef, NoMemory};

/// The blocks for areas of one shared table, 55 for instances and 256 for complex persistent terms,
/// as its one writer deals them out. They are made before the writer's first step and used with no
/// other writer.
///
/// Contracts see which serial each block has, and which are free, live and retired.
#[derive(Drop)]
pub struct Pools {
    pub(crate) areas: Areas,
}

impl Model for Pools {
    ghost use Rattle.literal_areas.specs.declared.areas.Areas.{Areas};
    ghost use Rattle.literal_areas.specs.Blocks.{IsSound};

    ghost Value = { Areas };

    ghost view = { λ p. p.areas };

    ghost invariant = { λ p. IsSound p.areas };
}

impl Pools {
    /// All blocks are free, and the next serial is 1. It takes the room for all blocks.
    pub fn new(alloc: Global) -> Result<Pools, NoMemory>
        ensures opening { IfOk result (λ pools. pools ≡ opening_areas) }
        ensures owned { IfOk result (λ pools. AreAtFirst pools) }
    {
        let big = BlockList::new(alloc, INSTANCE_BLOCKS as usize)?;
        let small = BlockList::new(alloc, TERM_BLOCKS as usize)?;
        let areas = Areas {
            next: 1,
            big,
            small,
        };
        Ok(Pools { areas })
    }

    /// The serial of the area that is taken next.
    pub fn next_serial(&self) -> u64
        ensures { result ≡ self.now.next }
    {
        self.areas.next
    }

    /// The area of a serial, if it stands in a block.
    pub fn find(&self, serial: u64) -> Option<AreaRef>
        ensures some { IfSome result (λ area. Stands self.now area × (area.serial ≡ serial)) }
        ensures none { result ≡ None → (block : ℕ) → block < BLOCKS → serial_at self.now block ≢ Some serial }
    {
        for block in FIRST_INSTANCE_BLOCK..AREA_BLOCKS {
            if self.areas.serial_at(block) == Some(serial) {
                return Some(AreaRef { serial, block });
            }
        }
        None
    }
}
