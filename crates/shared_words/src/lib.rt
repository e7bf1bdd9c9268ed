//! The words that all threads share, under a rule that holds between any two atomic steps, with one
//! call for each kind of step.
#![tactic(auto)]

mod closing;
mod counter;
mod delays;
mod drops;
mod entries;
mod law;
mod laws;
mod leader;
mod lingering;
mod making;
mod members;
mod notes;
mod opening;
mod pass;
mod plays;
mod root;
mod seats;
mod slots;
mod table;
mod view;
mod words;
mod writer;

pub use closing::{Closed, close};
pub use law::Served;
pub use laws::{
    clear_areas_are_out_of_use, entry_words_alone_change, rule_shows_a_sound_state,
    what_is_held_is_readable, what_is_loaded_is_not_stored,
};
pub use opening::Opening;
pub use pass::Pass;
pub use seats::{Member, Note, Parts, Watcher, Writer};
pub use table::{ANCHORS, COUNTER, LEAD, PROCESSES, ROOT, Shared};
pub use view::{
    BlockWord, BlockWordList, FoundWord, FoundWordList, MemberView, NamedAnchor, NamedAnchorList,
    NoteNumber, NoteView, ProcessSlot, ProcessSlotList, View, WatcherView, WriterView,
};
pub use writer::Next;
