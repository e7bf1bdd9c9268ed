//! What holds of every state that meets the rule, not only of those that a run reaches.

ghost use Rattle.shared_words.specs.Laws.{ShowsSound, HeldIsReadable, KeepsWhatIsRead, StoresEntriesAlone, ClearHolds};

use crate::law::Served;

/// Words and views show a state that meets the progress invariant, and the block invariant for the
/// generations that some thread may read.
pub fn rule_shows_a_sound_state<N: Served>()
    ensures { ShowsSound N.served }
{}

/// The generation that a token holds is one that some thread may read: of the writer the newest, of a
/// member that of its last report, of a watcher that of its delay, until it resumes.
pub fn what_is_held_is_readable<N: Served>()
    ensures { HeldIsReadable N.served }
{}

/// No word of a block that some token may load is one that the writer may store by `store_word`, but for an
/// entry word of an area that a slot of the token names.
pub fn what_is_loaded_is_not_stored<N: Served>()
    ensures { KeepsWhatIsRead N.served }
{}

/// What the writer may store by `store_entry`, also while a token may load it, is an entry word of an area
/// that is kept in its block: no other word of a block changes while it may be loaded.
pub fn entry_words_alone_change<N: Served>()
    ensures { StoresEntriesAlone N.served }
{}

/// An area that a look found clear in a kind is out of use: no slot names it in that kind, and no turn
/// under a generation that some thread may read comes to it. It is so at any time, as the writer never
/// forgets a look.
pub fn clear_areas_are_out_of_use<N: Served>()
    ensures { ClearHolds N.served }
{}
