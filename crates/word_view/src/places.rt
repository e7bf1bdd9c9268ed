//! Where the words stand that a turn reads.

ghost use Rattle.std.specs.Prelude.{◌≡◌, ◌<◌};
ghost use Rattle.area_core.specs.declared.map.TheConstants.{BLOCKS, CODE_INDICES, EXPORT_ENTRIES};
ghost use Rattle.area_core.specs.Map.{block_place, room_of};

/// Blocks with a lower number are big ones; instances stand in these.
pub const BIG_BLOCKS: u32 = 64;

/// How many functions an instance has at most.
pub const FUNCTIONS: u64 = 16;

/// Where the image of an instance has the row of a function: name, arity, entry word and first place.
pub const FIRST_ROW: u32 = 4;

/// How many words such a row has.
pub const ROW_WORDS: u32 = 4;

/// Where such a row has the first place.
pub const FIRST_PLACE: u32 = 3;

/// A root word is the number of its generation times this, and then the numbers of blocks.
pub const GENERATION_UNIT: u64 = 32;

/// How many code indices a root word tells apart.
pub const CODE_UNIT: u64 = 4;

/// The first word of the blocks.
const BLOCKS_START: u32 = 1493;

/// The first word of the small blocks.
const SMALL_START: u32 = 67029;

/// How many words a big block has.
const BIG_WORDS: u32 = 1024;

/// How many words a small block has.
const SMALL_WORDS: u32 = 64;

/// The place of a word of a block.
pub fn block_word(block: u32, at: u32) -> u32
    requires block { block < BLOCKS }
    requires at { at < room_of block }
    ensures { result ≡ block_place block at }
{
    if block < BIG_BLOCKS {
        BLOCKS_START + block * BIG_WORDS + at
    } else {
        SMALL_START + (block - BIG_BLOCKS) * SMALL_WORDS + at
    }
}

/// The place of the word that a code index has for a name.
pub fn index_word(code: u32, entry: u32) -> u32
    requires code { code < CODE_INDICES }
    requires entry { entry < EXPORT_ENTRIES }
    ensures { result ≡ block_place code entry }
{
    BLOCKS_START + code * BIG_WORDS + entry
}
