//! The thread progress machine of members and watchers: its states, its events, and the text of event lists.
#![tactic(auto)]

mod event;
mod fault;
mod laws;
mod lists;
mod member;
mod progress;
mod reading;
mod state;
mod watcher;

pub use event::{Events, PrgrEvent};
pub use fault::{EventFault, NoMemory, ReplayFault, StepFault};
pub use laws::{breaking_runs_stop, events_keep_the_invariant, grace_follows};
pub use lists::{EventList, Items, MemberList, NeedMap, RetirementList, WatcherList};
pub use member::{
    ENTERING, LAST_VALUE, Loaded, MOST_MEMBERS, Member, OPENING_COUNTER, OPENING_WORD, Retirement,
    Role, Scans, WAITING,
};
pub use progress::Progress;
pub use reading::read_events;
pub use state::{PrgrState, replay, step};
pub use watcher::{Delay, MOST_WATCHERS, Phase, Watcher};
