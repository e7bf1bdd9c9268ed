//! What each block for areas is used for.

ghost use Rattle.std.specs.Prelude.{◌≡◌, ◌<◌, length, replicate, slice_get, slice_set, IfOk};
ghost use Rattle.std.specs.List.{list_any, position};
ghost use Rattle.std.specs.Option.{option_and_then};
ghost use Rattle.literal_areas.specs.Blocks.{is_free, is_retired_block, serial_of};

use std::alloc::Global;
use std::marker::Model;
use term_core::NoMemory;

/// How many blocks there are for instances.
pub const INSTANCE_BLOCKS: u32 = 55;

/// How many blocks there are for complex persistent terms.
pub const TERM_BLOCKS: u32 = 256;

/// Blocks of one size.
#[derive(Clone, Copy, Debug, PartialEq, Eq)]
pub enum Pool {
    /// The blocks for instances, of 1,024 words each.
    Big,
    /// The blocks for complex persistent terms, of 64 words each.
    Small,
}

/// What a block is used for.
#[derive(Clone, Copy, Debug, PartialEq, Eq)]
pub enum BlockUse {
    /// For nothing.
    Free,
    /// For the area of this serial, from the time that it is taken.
    Live { serial: u64 },
    /// For the area of this serial, which the generation of the number `since` is the first to retire.
    Retired { serial: u64, since: u64 },
}

/// The blocks of a pool in the order of their numbers, with their uses.
#[derive(Debug, Drop)]
pub struct BlockList {
    uses: Vec<BlockUse>,
}

impl Model for BlockList {
    ghost use Rattle.std.specs.Prelude.{List};
    ghost use Rattle.literal_areas.specs.declared.blocks.BlockUse.{BlockUse};

    ghost Value = { List BlockUse };

    ghost view = { λ l. l.uses.items };
}

impl BlockList {
    /// So many blocks, all free.
    pub fn new(alloc: Global, count: usize) -> Result<BlockList, NoMemory>
        ensures { IfOk result (λ blocks. blocks ≡ replicate count BlockUse.Free) }
    {
        let uses = vec![in alloc; BlockUse::Free; count]?;
        Ok(BlockList { uses })
    }

    /// The place of the first free block.
    pub fn first_free(&self) -> Option<usize>
        ensures { result ≡ position is_free self.now }
    {
        self.uses.iter().position(|used| is_free(*used))
    }

    /// Whether some block is retired.
    pub fn has_retired(&self) -> bool
        ensures { result ≡ list_any is_retired_block self.now }
    {
        self.uses.iter().any(|used| is_retired(*used))
    }

    /// The serial of the area in the block at a place, if it has one.
    pub fn serial(&self, place: usize) -> Option<u64>
        ensures { result ≡ option_and_then serial_of (slice_get self.now place) }
    {
        serial_of(*self.uses.get(place)?)
    }

    /// Gives the block at a place another use.
    pub fn set(&mut self, place: usize, used: BlockUse)
        requires { place < length self.old }
        ensures { self.new ≡ slice_set self.old place used }
    {
        self.uses[place] = used;
    }
}

/// Whether the block is used for nothing.
fn is_free(used: BlockUse) -> bool
    ensures { result ≡ is_free used }
{
    match used {
        BlockUse::Free => true,
        BlockUse::Live { .. } => false,
        BlockUse::Retired { .. } => false,
    }
}

/// Whether the area in the block is retired.
fn is_retired(used: BlockUse) -> bool
    ensures { result ≡ is_retired_block used }
{
    match used {
        BlockUse::Free => false,
        BlockUse::Live { .. } => false,
        BlockUse::Retired { .. } => true,
    }
}

/// The serial of the area in the block, if it has one.
fn serial_of(used: BlockUse) -> Option<u64>
    ensures { result ≡ serial_of used }
{
    match used {
        BlockUse::Free => None,
        BlockUse::Live { serial } => Some(serial),
        BlockUse::Retired { serial, .. } => Some(serial),
    }
}
