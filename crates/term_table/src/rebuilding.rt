//! A term table built anew with a change, and whether it has room for it.

ghost use Rattle.std.specs.Prelude.{◌≡◌, ◌≤◌, length};
ghost use Rattle.area_core.specs.declared.map.TheConstants.{BUCKETS as ALL_BUCKETS, BIG_WORDS};
ghost use Rattle.term_table.specs.declared.places.TheConstants.{MOST_KEYS as MOST};
ghost use Rattle.term_table.specs.declared.change.Change.TheVariants as changes;
ghost use Rattle.term_table.specs.Built.{AreBuilt, HasRebuilt, held_in, is_full_table, words_of};

use crate::buckets::{Buckets, no_buckets};
use crate::change::Change;
use crate::places::{BUCKETS, MOST_KEYS};
use term_core::AtomId;

/// Whether a change adds a key where there is room for none.
pub fn is_full(held: &Buckets, change: Change) -> bool
    requires whole { length held.now.words ≡ BIG_WORDS }
    ensures { result ≡ is_full_table change (words_of held.now) }
{
    match change {
        Change::Put { key, .. } => !held.holds(key.0) && held.count() == MOST_KEYS,
        Change::Erase { .. } => false,
    }
}

/// The table anew without a key.
fn without(held: &Buckets, gone: AtomId) -> Buckets
    requires built { AreBuilt held.now }
    requires few { held_in (words_of held.now) ALL_BUCKETS ≤ MOST }
    ensures { HasRebuilt (changes.Erase gone) held.now result }
{
    let mut built = no_buckets();
    for bucket in 0..BUCKETS {
        let key = held.key_in(bucket);
        if key != 0 && key != u64::from(gone.0) + 1 {
            built.insert(key - 1, held.value_in(bucket));
        }
    }
    built
}

/// The table anew, with the change.
#[tactic(auto, using(crate::proofs::Renewing::is_gone, crate::proofs::Renewing::room_left, crate::proofs::Renewing::rebuilt_with))]
pub fn rebuilt(held: &Buckets, change: Change) -> Buckets
    requires built { AreBuilt held.now }
    requires few { held_in (words_of held.now) ALL_BUCKETS ≤ MOST }
    ensures { HasRebuilt change held.now result }
{
    let mut built = without(held, change.key());
    if let Change::Put { key, value } = change {
        built.insert(u64::from(key.0), value);
    }
    built
}
