//! What keeps the pools those of their writer besides the calls on them.

ghost use Rattle.literal_areas.specs.Laws.{KeptByStores, KeptByRoots, KeptByCounters, KeptByLooks, KeptByNotes};

/// A store of a word of any block.
pub fn stores_keep_pools()
    ensures { KeptByStores }
{}

/// The store of the root of a generation whose areas stand in the pools, which uses live ones alone, and
/// has retired those that are retired.
#[tactic(auto, using(crate::proofs::Listed::owned_next))]
pub fn roots_keep_pools()
    ensures { KeptByRoots }
{}

/// A load of the counter.
pub fn counters_keep_pools()
    ensures { KeptByCounters }
{}

/// A look at the slots, whatever it finds.
pub fn looks_keep_pools()
    ensures { KeptByLooks }
{}

/// The split of a note.
#[tactic(auto, using(crate::proofs::Listed::owned_noted))]
pub fn notes_keep_pools()
    ensures { KeptByNotes }
{}
