//! The block of a term table, and whether it stands for the keys of a generation.

ghost use Rattle.std.specs.Prelude.{◌≡◌, ◌≤◌, ◌<◌, ◌+◌, ◌^◌, ◌||◌, ℕ, false, length, get_or};
ghost use Rattle.std.specs.Option.{IfSome, option_map};
ghost use Rattle.area_core.specs.declared.map.TheConstants.{BUCKETS as ALL_BUCKETS};
ghost use Rattle.area_core.specs.Map.{word_at};
ghost use Rattle.area_core.specs.Blocks.{term_blocks_words};
ghost use Rattle.area_core.specs.Terms.{are_buckets_known, are_found, look_at, looked, bucket_of, found_in, holds_one_of, is_bucket, is_bucket_known, is_found, terms_stand, bucket_value};

use crate::generations::is_term_word;
use crate::map::{BUCKETS, TERMS_START, block_place};
use crate::table::{Published, Root, WordTable};
use term_core::KeyTerm;

/// The word at a place of the term table that the root names.
fn term_word(words: &WordTable, root: Root, at: u64) -> u64
    requires { at < 2 ^ 48 }
    ensures { result ≡ term_blocks_words (word_at words.now) root at }
{
    words.get(block_place(u64::from(TERMS_START) + u64::from(root.term), at))
}

/// What is known after a look at one more bucket: nothing yet, that the key is not there, or its bucket.
fn look_at(
    words: &WordTable,
    root: Root,
    key: u64,
    bucket: u64,
    known: Option<Option<u64>>,
) -> Option<Option<u64>>
    requires key { key + 1 < 2 ^ 64 }
    requires bucket { bucket < ALL_BUCKETS }
    ensures { result ≡ look_at (term_blocks_words (word_at words.now) root) key bucket known }
{
    match known {
        Some(known) => Some(known),
        None => {
            let held = term_word(words, root, bucket * 2);
            if held == 0 {
                Some(None)
            } else if held == key + 1 {
                Some(Some(bucket))
            } else {
                None
            }
        }
    }
}

/// What is known of a key after so many buckets, from that of its number on, going round. Once it is
/// known, no further bucket is looked at.
#[tactic(auto, using(crate::proofs::Counted::looked_none, crate::proofs::Counted::looked_next))]
fn looked(words: &WordTable, root: Root, key: u64, count: u32) -> Option<Option<u64>>
    requires { key + 1 < 2 ^ 64 }
    ensures { result ≡ looked (term_blocks_words (word_at words.now) root) key count }
{
    let first = key % u64::from(BUCKETS);
    let mut known = None;
    for tried in 0..count {
        if known.is_some() {
            return known;
        }
        let bucket = (first + u64::from(tried)) % u64::from(BUCKETS);
        known = look_at(words, root, key, bucket, known);
    }
    known
}

/// The bucket in which a key is found.
fn bucket_of(words: &WordTable, root: Root, key: u64) -> Option<u64>
    requires { key + 1 < 2 ^ 64 }
    ensures found { result ≡ bucket_of (term_blocks_words (word_at words.now) root) key }
    ensures within { IfSome result (λ bucket. bucket < ALL_BUCKETS) }
{
    match looked(words, root, key, BUCKETS) {
        None => None,
        Some(known) => known,
    }
}

/// Whether a key is found with what it holds, if it is found in this bucket.
fn is_found(words: &WordTable, published: &Published, key: &KeyTerm, bucket: Option<u64>) -> bool
    requires { IfSome bucket (λ bucket. bucket < ALL_BUCKETS) }
    ensures { result ≡ is_found published.now key.now (option_map (bucket_value (term_blocks_words (word_at words.now) published.now.root)) bucket) }
{
    match bucket {
        None => false,
        Some(bucket) => {
            let word = term_word(words, published.root, bucket * 2 + 1);
            is_term_word(published, key.holding, word)
        },
    }
}

/// No bucket is marked.
fn no_marks() -> [bool; BUCKETS as usize]
    ensures length { length result ≡ ALL_BUCKETS }
    ensures none { (number : ℕ) → number < ALL_BUCKETS → get_or result number false ≡ false }
{
    [false; BUCKETS as usize]
}

/// Marks the bucket in which a key is found.
fn mark(marks: &mut [bool; BUCKETS as usize], bucket: Option<u64>)
    requires { IfSome bucket (λ bucket. bucket < length marks.old) }
    ensures length { length marks.new ≡ length marks.old }
    ensures marked { (number : ℕ) → number < length marks.old → get_or marks.new number false ≡ (get_or marks.old number false || is_bucket number bucket) }
{
    if let Some(bucket) = bucket {
        marks[bucket as usize] = true;
    }
}

/// Searches for a key, and marks the bucket in which it is found. Whether it is found with what it
/// holds.
fn search_key(
    words: &WordTable,
    published: &Published,
    key: &KeyTerm,
    marks: &mut [bool; BUCKETS as usize],
) -> bool
    requires { length marks.old ≡ ALL_BUCKETS }
    ensures found { result ≡ is_found published.now key.now (found_in (term_blocks_words (word_at words.now) published.now.root) key.now.key.0) }
    ensures length { length marks.new ≡ ALL_BUCKETS }
    ensures marked { (number : ℕ) → number < ALL_BUCKETS → get_or marks.new number false ≡ (get_or marks.old number false || is_bucket number (bucket_of (term_blocks_words (word_at words.now) published.now.root) key.now.key.0)) }
{
    let bucket = bucket_of(words, published.root, u64::from(key.key.0));
    mark(marks, bucket);
    is_found(words, published, key, bucket)
}

/// What one search for each key tells.
struct KeySearch {
    /// Whether each key is found with what it holds.
    are_found: bool,
    /// At the number of a bucket, whether a key is found in it.
    marks: [bool; BUCKETS as usize],
}

/// Searches for each of the keys.
fn search_keys(words: &WordTable, published: &Published, keys: &[KeyTerm]) -> KeySearch
    ensures found { result.are_found ≡ are_found (term_blocks_words (word_at words.now) published.now.root) published.now keys.now }
    ensures length { length result.marks ≡ ALL_BUCKETS }
    ensures marked { (number : ℕ) → number < ALL_BUCKETS → get_or result.marks number false ≡ holds_one_of (term_blocks_words (word_at words.now) published.now.root) keys.now number }
{
    let mut are_found = true;
    let mut marks = no_marks();
    for key in keys {
        let found = search_key(words, published, key, &mut marks);
        are_found = are_found && found;
    }
    KeySearch { are_found, marks }
}

/// Whether a bucket is empty, or a key is found in it, or what is found under its key is one of the
/// keys elsewhere.
fn is_bucket_known(
    words: &WordTable,
    root: Root,
    keys: &[KeyTerm],
    marks: &[bool],
    bucket: u32,
) -> bool
    requires bucket { bucket < ALL_BUCKETS }
    requires length { length marks.now ≡ ALL_BUCKETS }
    requires marked { (number : ℕ) → number < ALL_BUCKETS → get_or marks.now number false ≡ holds_one_of (term_blocks_words (word_at words.now) root) keys.now number }
    ensures { result ≡ is_bucket_known (term_blocks_words (word_at words.now) root) keys.now bucket }
{
    let held = term_word(words, root, u64::from(bucket) * 2);
    if held == 0 || marks[bucket as usize] {
        return true;
    }
    match bucket_of(words, root, held - 1) {
        None => true,
        Some(found) => marks[found as usize],
    }
}

/// Whether so it is of the first so many buckets.
#[tactic(auto, using(crate::proofs::Counted::known_none, crate::proofs::Counted::known_next))]
fn are_buckets_known(
    words: &WordTable,
    root: Root,
    keys: &[KeyTerm],
    marks: &[bool],
    count: u32,
) -> bool
    requires count { count ≤ ALL_BUCKETS }
    requires length { length marks.now ≡ ALL_BUCKETS }
    requires marked { (number : ℕ) → number < ALL_BUCKETS → get_or marks.now number false ≡ holds_one_of (term_blocks_words (word_at words.now) root) keys.now number }
    ensures { result ≡ are_buckets_known (term_blocks_words (word_at words.now) root) keys.now count }
{
    let mut known = true;
    for bucket in 0..count {
        known = known && is_bucket_known(words, root, keys, marks, bucket);
    }
    known
}

/// Whether the block of the root stands for the keys of the generation, by one search for each key
/// and one look at each bucket.
pub fn terms_stand(words: &WordTable, published: &Published) -> bool
    ensures { result ≡ terms_stand (term_blocks_words (word_at words.now) published.now.root) published.now }
{
    let keys = published.state.keys.as_slice();
    let KeySearch { are_found, marks } = search_keys(words, published, keys);
    are_found && are_buckets_known(words, published.root, keys, &marks, BUCKETS)
}
