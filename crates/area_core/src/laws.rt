//! What holds of every state, not only of those that a run reaches.

ghost use Rattle.area_core.specs.Enabled.{DecidesBlockStores, DecidesDoomStores, DecidesEntryStores, DecidesRetireStores, DecidesRootStores, DecidesSlotStores, DecidesTables, ListsReadable};
ghost use Rattle.area_core.specs.Grace.{EndsEarlier, FreesAreas, FreesWords, KeepsReadWords};
ghost use Rattle.area_core.specs.Step.{KeepsSound, KeepsWhatIsRead};

/// Every enabled event keeps the progress invariant and the block invariant, from every state that
/// meets both.
pub fn events_keep_both_invariants()
    ensures { KeepsSound }
{}

/// What a seat may read of a block is not stored, from every such state; and no event changes it,
/// unless it stores an entry word.
pub fn what_is_read_is_not_stored()
    ensures store { KeepsWhatIsRead }
    ensures event { KeepsReadWords }
{}

/// Once the counter has reached what generation n needs, no thread may read an earlier one. A word
/// that none from n on reads, in a block without a kept area, may then be stored; and a retired area
/// that none from n on uses, and no slot names, may be released.
///
/// Rule: Erlang/OTP erts internal documentation, ThreadProgress.
pub fn grace_frees_blocks()
    ensures readers { EndsEarlier }
    ensures words { FreesWords }
    ensures areas { FreesAreas }
{}

/// A word of a block may be stored exactly where no thread may read it and the block invariant holds
/// after it.
pub fn block_stores_are_decided()
    ensures { DecidesBlockStores }
{}

/// A retire word may be stored exactly where the block invariant holds after it, of the areas that are
/// kept then.
pub fn retire_stores_are_decided()
    ensures { DecidesRetireStores }
{}

/// A doom word may be stored exactly where the block invariant holds after it.
pub fn doom_stores_are_decided()
    ensures { DecidesDoomStores }
{}

/// An entry word may be stored exactly where it is that of a kept instance and the block invariant
/// holds after it.
pub fn entry_stores_are_decided()
    ensures { DecidesEntryStores }
{}

/// A word of a slot may be stored exactly where its line is met and the block invariant holds after
/// it.
pub fn slot_stores_are_decided()
    ensures { DecidesSlotStores }
{}

/// The root may be stored exactly where the block invariant holds after it.
pub fn root_stores_are_decided()
    ensures { DecidesRootStores }
{}

/// The test of a term table says just that the block stands for the keys of the generation.
pub fn term_tables_are_decided()
    ensures { DecidesTables }
{}

/// The list of readable generations has just those that a thread may read.
pub fn readable_generations_are_listed()
    ensures { ListsReadable }
{}
