//! Where the words of term tables stand in the shared table.

ghost use Rattle.std.specs.Prelude.{◌≡◌, ◌<◌};
ghost use Rattle.area_core.specs.Map.{term_place};

/// How many term tables there are.
pub const TERM_TABLES: u32 = 4;

/// How many buckets a term table has, each of two words.
pub const BUCKETS: u32 = 512;

/// How many words a term table has.
pub const TABLE_WORDS: u32 = 1024;

/// How many keys hold a term at most.
pub const MOST_KEYS: u32 = 384;

/// The first word of the first term table.
const TERMS_START: u32 = 6613;

/// The word of the shared table that a term table has at a place.
pub fn term_word(table: u32, at: u32) -> u32
    requires table { table < TERM_TABLES }
    requires at { at < TABLE_WORDS }
    ensures { result ≡ term_place table at }
{
    TERMS_START + table * TABLE_WORDS + at
}
