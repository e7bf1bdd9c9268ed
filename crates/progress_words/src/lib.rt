//! Thread progress beneath running threads: members report, a leader raises the counter, and the
//! writer waits until no thread reads what an earlier generation had.
#![tactic(auto)]

mod advances;
mod answers;
mod delays;
mod leads;
mod needs;
mod notes;
mod reports;
mod roots;

pub use advances::advance;
pub use answers::{Advance, Lead, NotYet};
pub use delays::{delay, resume};
pub use leads::{give_up, lead};
pub use needs::{later, reached};
pub use notes::{learn, note};
pub use reports::{report, wait, wake};
pub use roots::{RootParts, newest_root};
