//! What counts are made for.

/// How many counters there may be.
pub const MOST_COUNTERS: u32 = 16;

/// How many names may be counted.
pub const MOST_COUNTED_NAMES: u32 = 100_000;

/// How many names are counted, and by how many counters.
#[derive(Clone, Copy, Debug)]
pub struct Sizes {
    pub names: u32,
    pub counters: u32,
}
