//! Where each word of the shared table stands.

ghost use Rattle.std.specs.Prelude.{◌≡◌, ◌<◌, ◌≤◌, ◌^◌};
ghost use Rattle.area_core.specs.Map.{anchor_place, block_place, breakpoint_at, doom_place, image_entry_at, kind_at, retire_place, room_of, slot_place};

/// How many words the shared table has.
pub const TABLE_WORDS: u32 = 83413;

/// The first word of the slots; before it stand the root and the words of the progress machine.
pub const SLOTS_START: u32 = 21;

/// How many processes have a slot.
pub const PROCESSES: u32 = 64;

/// The words of a slot: the turns that were done, then the anchors.
pub const SLOT_WORDS: u32 = 17;

/// How many anchors a slot has.
pub const ANCHORS: u32 = 16;

/// The first retire word; there is one for each block.
pub const RETIRE_START: u32 = 1109;

/// The first doom word; there is one for each big block.
pub const DOOM_START: u32 = 1429;

/// The first word of the blocks.
pub const BLOCKS_START: u32 = 1493;

/// The first word of the small blocks, which stand behind the big ones.
pub const SMALL_START: u32 = 67029;

/// How many blocks there are.
pub const BLOCKS: u32 = 320;

/// The big blocks are numbered from 0.
pub const BIG_BLOCKS: u32 = 64;

/// The words of a big block.
pub const BIG_WORDS: u32 = 1024;

/// The words of a small block.
pub const SMALL_WORDS: u32 = 64;

/// The code indices have the blocks from 0 on.
pub const CODE_INDICES: u32 = 3;

/// The first block of a breakpoint index.
pub const BREAKPOINTS_START: u32 = 3;

/// How many breakpoint indices there are.
pub const BREAKPOINT_INDICES: u32 = 2;

/// The first block of a term table.
pub const TERMS_START: u32 = 5;

/// How many term tables there are.
pub const TERM_TABLES: u32 = 4;

/// The first block of an instance; behind the big blocks stand those of complex terms.
pub const AREAS_START: u32 = 9;

/// How many function names a code index has a word for.
pub const EXPORT_ENTRIES: u32 = 1024;

/// How many functions an instance has at most.
pub const FUNCTIONS: u32 = 16;

/// How many buckets a term table has, each of two words.
pub const BUCKETS: u32 = 512;

/// What a word of the table is for.
#[derive(Clone, Copy, Debug, PartialEq, Eq)]
pub enum WordKind {
    /// The root, or a word of the progress machine.
    Machine,
    /// A word of a slot.
    Slot,
    /// The number of the generation from which on the area in the block is retired, or 0.
    Retire { block: u32 },
    /// The number of the generation from which on the area in the block is doomed, or 0.
    Doom { block: u32 },
    /// A word of a block, counted from the block's first.
    InBlock { block: u32, at: u32 },
    /// The table has no such word.
    Nowhere,
}

/// What the word of this number is for.
pub fn kind_of(word: u32) -> WordKind
    ensures { result ≡ kind_at word }
{
    if word < SLOTS_START {
        WordKind::Machine
    } else if word < RETIRE_START {
        WordKind::Slot
    } else if word < DOOM_START {
        WordKind::Retire {
            block: word - RETIRE_START,
        }
    } else if word < BLOCKS_START {
        WordKind::Doom {
            block: word - DOOM_START,
        }
    } else {
        kind_in_blocks(word)
    }
}

/// What a word behind the doom words is for.
fn kind_in_blocks(word: u32) -> WordKind
    requires { 1493 ≤ word }
    ensures { result ≡ kind_at word }
{
    if word < SMALL_START {
        WordKind::InBlock {
            block: (word - BLOCKS_START) / BIG_WORDS,
            at: (word - BLOCKS_START) % BIG_WORDS,
        }
    } else if word < TABLE_WORDS {
        WordKind::InBlock {
            block: BIG_BLOCKS + (word - SMALL_START) / SMALL_WORDS,
            at: (word - SMALL_START) % SMALL_WORDS,
        }
    } else {
        WordKind::Nowhere
    }
}

/// The place of a word of a process's slot.
pub fn slot_place(process: u32, place: u32) -> u64
    ensures { result ≡ slot_place process place }
{
    u64::from(SLOTS_START) + u64::from(process) * u64::from(SLOT_WORDS) + u64::from(place)
}

/// The place of an anchor, where those of all slots are numbered through.
pub fn anchor_place(anchor: u32) -> u64
    ensures { result ≡ anchor_place anchor }
{
    slot_place(anchor / ANCHORS, anchor % ANCHORS + 1)
}

/// The place of the retire word of a block.
pub fn retire_place(block: u32) -> u64
    ensures { result ≡ retire_place block }
{
    u64::from(RETIRE_START) + u64::from(block)
}

/// The place of the doom word of a block.
pub fn doom_place(block: u32) -> u64
    ensures { result ≡ doom_place block }
{
    u64::from(DOOM_START) + u64::from(block)
}

/// The place of a word of a block.
pub fn block_place(block: u64, at: u64) -> u64
    requires block { block < 2 ^ 40 }
    requires at { at < 2 ^ 48 }
    ensures { result ≡ block_place block at }
{
    if block < u64::from(BIG_BLOCKS) {
        u64::from(BLOCKS_START) + block * u64::from(BIG_WORDS) + at
    } else {
        u64::from(SMALL_START) + (block - u64::from(BIG_BLOCKS)) * u64::from(SMALL_WORDS) + at
    }
}

/// Where a breakpoint index has the word of a function of the instance in this block.
pub fn breakpoint_at(block: u32, function: u32) -> u64
    ensures value { result ≡ breakpoint_at block function }
    ensures small { result < 2 ^ 48 }
{
    u64::from(block.saturating_sub(AREAS_START)) * u64::from(FUNCTIONS) + u64::from(function)
}

/// Where the image of an instance has the entry word of a function.
pub fn entry_at(function: u32) -> u64
    ensures value { result ≡ image_entry_at function }
    ensures small { result < 2 ^ 48 }
{
    u64::from(function) * 4 + 6
}

/// How many words a block has.
pub fn room_of(block: u32) -> usize
    ensures { result ≡ room_of block }
{
    if block < BIG_BLOCKS {
        BIG_WORDS as usize
    } else {
        SMALL_WORDS as usize
    }
}
