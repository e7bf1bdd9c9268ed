//! The words of a term table as plain numbers, in which a copy is built anew.

ghost use Rattle.std.specs.Prelude.{◌≡◌, ◌+◌, ◌*◌, ◌<◌, ◌^◌, ℕ, None, is_some, length, slice_set};
ghost use Rattle.area_core.specs.declared.map.TheConstants.{BUCKETS as ALL_BUCKETS, BIG_WORDS};
ghost use Rattle.area_core.specs.Terms.{key_in, bucket_value, bucket_of};
ghost use Rattle.term_table.specs.Built.{AreBuilt, HasInserted, IsFree, held_in, words_of};

use crate::places::{BUCKETS, TABLE_WORDS};

/// The words of 512 buckets: of each its key's number plus 1, or 0 where it is empty, and its value.
#[derive(Drop)]
pub struct Buckets {
    pub words: [u64; TABLE_WORDS as usize],
}

/// So many buckets, all empty.
pub fn no_buckets() -> Buckets
    ensures whole { length result.words ≡ BIG_WORDS }
    ensures empty { (at : ℕ) → words_of result at ≡ 0 }
{
    Buckets {
        words: [0; TABLE_WORDS as usize],
    }
}

impl Buckets {
    /// The word at a place.
    pub fn word(&self, at: u32) -> u64
        requires whole { length self.now.words ≡ BIG_WORDS }
        requires at { at < BIG_WORDS }
        ensures { result ≡ words_of self.now at }
    {
        self.words[at as usize]
    }

    /// The key in a bucket plus 1, or 0 where it is empty.
    pub fn key_in(&self, bucket: u32) -> u64
        requires whole { length self.now.words ≡ BIG_WORDS }
        requires bucket { bucket < ALL_BUCKETS }
        ensures { result ≡ key_in (words_of self.now) bucket }
    {
        self.words[bucket as usize * 2]
    }

    /// The value in a bucket.
    pub fn value_in(&self, bucket: u32) -> u64
        requires whole { length self.now.words ≡ BIG_WORDS }
        requires bucket { bucket < ALL_BUCKETS }
        ensures { result ≡ bucket_value (words_of self.now) bucket }
    {
        self.words[bucket as usize * 2 + 1]
    }

    /// Whether a key is held.
    #[tactic(auto, using(crate::proofs::Searching::ended_empty, crate::proofs::Searching::ended_here, crate::proofs::Searching::ended_all, crate::proofs::Searching::looked_on))]
    pub fn holds(&self, key: u32) -> bool
        requires whole { length self.now.words ≡ BIG_WORDS }
        ensures { result ≡ is_some (bucket_of (words_of self.now) key) }
    {
        for tried in 0..BUCKETS {
            let held = self.key_in((key % BUCKETS + tried) % BUCKETS);
            if held == 0 {
                return false;
            }
            if held == u64::from(key) + 1 {
                return true;
            }
        }
        false
    }

    /// How many keys are held.
    #[tactic(auto, using(crate::proofs::Counting::held_none, crate::proofs::Counting::held_more, crate::proofs::Counting::held_same, crate::proofs::Counting::held_few))]
    pub fn count(&self) -> u32
        requires whole { length self.now.words ≡ BIG_WORDS }
        ensures { result ≡ held_in (words_of self.now) ALL_BUCKETS }
    {
        let mut count = 0;
        for bucket in 0..BUCKETS {
            if self.key_in(bucket) != 0 {
                count += 1;
            }
        }
        count
    }

    /// The first empty bucket from that of a key's number on, going round, where the key is not held.
    #[tactic(auto, using(crate::proofs::Searching::free_here, crate::proofs::Searching::looked_on_new, crate::proofs::Counting::passed_all))]
    fn free_for(&self, key: u64) -> u32
        requires built { AreBuilt self.now }
        requires new { bucket_of (words_of self.now) key ≡ None }
        requires room { held_in (words_of self.now) ALL_BUCKETS < ALL_BUCKETS }
        ensures { IsFree (words_of self.now) key result }
    {
        let first = (key % u64::from(BUCKETS)) as u32;
        for tried in 0..BUCKETS {
            let bucket = (first + tried) % BUCKETS;
            if self.key_in(bucket) == 0 {
                return bucket;
            }
        }
        0
    }

    /// Fills a bucket.
    fn fill(&mut self, bucket: u32, held: u64, value: u64)
        requires whole { length self.old.words ≡ BIG_WORDS }
        requires bucket { bucket < ALL_BUCKETS }
        ensures { self.new.words ≡ slice_set (slice_set self.old.words (bucket * 2) held) (bucket * 2 + 1) value }
    {
        self.words[bucket as usize * 2] = held;
        self.words[bucket as usize * 2 + 1] = value;
    }

    /// Puts a key that is not held into the first empty bucket from that of its number on, going
    /// round.
    #[tactic(auto, using(crate::proofs::Searching::free_within, crate::proofs::Filled::inserted))]
    pub fn insert(&mut self, key: u64, value: u64)
        requires range { key + 1 < 2 ^ 64 }
        requires built { AreBuilt self.old }
        requires new { bucket_of (words_of self.old) key ≡ None }
        requires room { held_in (words_of self.old) ALL_BUCKETS < ALL_BUCKETS }
        ensures { HasInserted key value self.old self.new }
    {
        let bucket = self.free_for(key);
        self.fill(bucket, key + 1, value);
    }
}
