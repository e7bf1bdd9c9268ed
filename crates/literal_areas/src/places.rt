//! Where the blocks for areas stand in the shared table.

ghost use Rattle.std.specs.Prelude.{◌≡◌, ◌<◌};
ghost use Rattle.area_core.specs.declared.map.TheConstants.{BLOCKS, BIG_BLOCKS};
ghost use Rattle.area_core.specs.Map.{block_place, retire_place, doom_place};

/// The first block for instances. Those before it have code indices, breakpoint indices and term
/// tables.
pub const FIRST_INSTANCE_BLOCK: u32 = 9;

/// The first block for complex persistent terms.
pub const FIRST_TERM_BLOCK: u32 = 64;

/// How many blocks there are, those that have no areas too.
pub const AREA_BLOCKS: u32 = 320;

/// The first word of the blocks for instances and of those before them.
const BLOCKS_START: u32 = 1493;

/// How many words a block for an instance has.
const INSTANCE_WORDS: u32 = 1024;

/// The first word of the blocks for terms.
const TERM_BLOCKS_START: u32 = 67029;

/// How many words a block for a term has.
const TERM_WORDS: u32 = 64;

/// The first retire word; there is one for each block.
const RETIRE_START: u32 = 1109;

/// The first doom word; there is one for each block for an instance and for those before them.
const DOOM_START: u32 = 1429;

/// The word of the table that a block has at a place.
pub fn block_word(block: u32, at: u32) -> u32
    requires block { block < BLOCKS }
    requires at { at < 1024 }
    ensures { result ≡ block_place block at }
{
    if block < FIRST_TERM_BLOCK {
        BLOCKS_START + block * INSTANCE_WORDS + at
    } else {
        TERM_BLOCKS_START + (block - FIRST_TERM_BLOCK) * TERM_WORDS + at
    }
}

/// The retire word of a block.
pub fn retire_word(block: u32) -> u32
    requires { block < BLOCKS }
    ensures { result ≡ retire_place block }
{
    RETIRE_START + block
}

/// The doom word of a block for an instance.
pub fn doom_word(block: u32) -> u32
    requires { block < BIG_BLOCKS }
    ensures { result ≡ doom_place block }
{
    DOOM_START + block
}
