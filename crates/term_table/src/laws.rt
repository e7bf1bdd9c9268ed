//! What keeps term tables those of their writer besides the calls on them, and what is staged in them.

ghost use Rattle.term_table.specs.Laws.{KeptByStores, KeptByWrites, KeptByRoots, KeptByCounters, KeptByNotes, KeptByKeys};

/// A store of a word that is none of the term tables.
#[tactic(auto, using(crate::proofs::Kept::stored_elsewhere))]
pub fn stores_keep_tables()
    ensures { KeptByStores }
{}

/// Stores of any number of words that are none of the term tables.
#[tactic(auto, using(crate::proofs::Written::written_elsewhere))]
pub fn writes_keep_tables()
    ensures { KeptByWrites }
{}

/// The store of the root of a generation that has the same term table and just its keys.
#[tactic(auto, using(crate::proofs::Kept::rooted_same))]
pub fn roots_keep_tables()
    ensures { KeptByRoots }
{}

/// A load of the counter.
#[tactic(auto, using(crate::proofs::Kept::counted))]
pub fn counters_keep_tables()
    ensures { KeptByCounters }
{}

/// The split of a note.
#[tactic(auto, using(crate::proofs::Kept::noted))]
pub fn notes_keep_tables()
    ensures { KeptByNotes }
{}

/// What is staged for one generation is staged for another that has the same keys.
#[tactic(auto, using(crate::proofs::Words::stages_same))]
pub fn keys_that_stay_are_staged()
    ensures { KeptByKeys }
{}
