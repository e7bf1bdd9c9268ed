//! Where the words of breakpoints stand in the shared table, and what they are.

ghost use Rattle.std.specs.Prelude.{◌≡◌, ◌<◌};
ghost use Rattle.area_core.specs.declared.map.TheConstants.{BIG_BLOCKS, BLOCKS};
ghost use Rattle.area_core.specs.Blocks.{IsForInstances};
ghost use Rattle.area_core.specs.Map.{block_place, breakpoint_place, image_entry_at, retire_place};
ghost use Rattle.area_core.specs.Stores.{entry_word};

/// How many breakpoint indices there are.
pub const BREAKPOINT_INDICES: u32 = 2;

/// How many functions an instance has at most.
pub const FUNCTIONS: u32 = 16;

/// A root word is the number of its generation times this, and then the numbers of blocks.
pub const GENERATION_UNIT: u64 = 32;

/// How many code indices a root word tells apart.
pub const CODE_UNIT: u64 = 4;

/// How many breakpoint indices a root word tells apart.
pub const BREAKPOINT_UNIT: u64 = 2;

/// The first word of the blocks.
const BLOCKS_START: u32 = 1493;

/// How many words a block has.
const BLOCK_WORDS: u32 = 1024;

/// The first block of a breakpoint index.
const BREAKPOINTS_START: u32 = 3;

/// The first block of an instance.
const AREAS_START: u32 = 9;

/// Where a block has the entry word of the first function of its instance.
const FIRST_ENTRY: u32 = 6;

/// How many words a block has for each function of its instance.
const ROW_WORDS: u32 = 4;

/// The first retire word; there is one for each block.
const RETIRE_START: u32 = 1109;

/// The word of the table by which a breakpoint index says whether calls of this function of the
/// instance in the block are traced.
pub fn decision_word(bp: u32, block: u32, function: u32) -> u32
    requires bp { bp < BREAKPOINT_INDICES }
    requires block { IsForInstances block }
    requires function { function < FUNCTIONS }
    ensures { result ≡ breakpoint_place bp block function }
{
    let at = (block - AREAS_START) * FUNCTIONS + function;
    BLOCKS_START + (BREAKPOINTS_START + bp) * BLOCK_WORDS + at
}

/// What stands there: 1 where calls are traced.
pub fn decision_value(on: bool) -> u64
    ensures { result ≡ entry_word on }
{
    if on { 1 } else { 0 }
}

/// The entry word of this function of the instance in the block.
pub fn entry_word_at(block: u32, function: u32) -> u32
    requires block { block < BIG_BLOCKS }
    requires function { function < FUNCTIONS }
    ensures { result ≡ block_place block (image_entry_at function) }
{
    BLOCKS_START + block * BLOCK_WORDS + function * ROW_WORDS + FIRST_ENTRY
}

/// The retire word of a block.
pub fn retire_word(block: u32) -> u32
    requires { block < BLOCKS }
    ensures { result ≡ retire_place block }
{
    RETIRE_START + block
}
