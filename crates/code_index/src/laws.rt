//! What keeps a code index that of its writer besides the calls on it, and what is staged in it.

ghost use Rattle.code_index.specs.Laws.{KeptByStores, KeptByWrites, KeptByRoots, KeptByCounters, KeptByNotes, KeptByExports};

/// A store of a word that is none of the code indices.
#[tactic(auto, using(crate::proofs::Owned::stored_elsewhere))]
pub fn stores_keep_index()
    ensures { KeptByStores }
{}

/// Stores of any number of words that are none of the code indices.
#[tactic(auto, using(crate::proofs::Owned::written_elsewhere))]
pub fn writes_keep_index()
    ensures { KeptByWrites }
{}

/// The store of the root of a generation that has the same code index, while nothing is staged.
#[tactic(auto, using(crate::proofs::Owned::owned_same))]
pub fn roots_keep_index()
    ensures { KeptByRoots }
{}

/// A load of the counter.
#[tactic(auto, using(crate::proofs::Owned::counted))]
pub fn counters_keep_index()
    ensures { KeptByCounters }
{}

/// The split of a note.
#[tactic(auto, using(crate::proofs::Owned::noted))]
pub fn notes_keep_index()
    ensures { KeptByNotes }
{}

/// What is staged for one generation is staged for another that leads each name to the same.
#[tactic(auto, using(crate::proofs::Words::stages_same))]
pub fn exports_that_stay_are_staged()
    ensures { KeptByExports }
{}
