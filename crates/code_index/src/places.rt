//! Where the words of code indices stand in the shared table, and what they are.

ghost use Rattle.std.specs.Prelude.{◌≡◌, ◌<◌};
ghost use Rattle.area_core.specs.Map.{block_place};
ghost use Rattle.code_index.specs.Exports.{code_word};

use term_core::CodeRef;

/// How many code indices there are; they are the first blocks.
pub const CODE_INDICES: u32 = 3;

/// How many words a code index has, one for the number of each function name.
pub const EXPORT_ENTRIES: u32 = 1024;

/// The first word of the blocks.
const BLOCKS_START: u32 = 1493;

/// How many words a block has.
const BLOCK_WORDS: u32 = 1024;

/// How many functions an instance has at most.
const FUNCTIONS: u64 = 16;

/// The word of the table by which a code index leads the name of this number to a function.
pub fn index_word(block: u32, entry: u32) -> u32
    requires block { block < CODE_INDICES }
    requires entry { entry < EXPORT_ENTRIES }
    ensures { result ≡ block_place block entry }
{
    BLOCKS_START + block * BLOCK_WORDS + entry
}

/// What stands there: 0, or the block of the instance and the place of the function in it.
pub fn code_word(to: Option<CodeRef>) -> u64
    ensures { result ≡ code_word to }
{
    match to {
        None => 0,
        Some(at) => 1 + u64::from(at.area.block) * FUNCTIONS + u64::from(at.function),
    }
}
