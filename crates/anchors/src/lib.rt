//! The slots of processes in the shared table: what each process names, and looks at them.
#![tactic(auto)]

mod answers;
mod drops;
mod holds;
mod kills;
mod laws;
mod places;
mod scans;
mod turns;

pub use answers::Scan;
pub use drops::drop_hold;
pub use holds::hold;
pub use kills::kill;
pub use laws::writers_go_on;
pub use scans::scan;
pub use turns::mark_turn;
