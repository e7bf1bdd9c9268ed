//! What the machine knows of one member and of one retirement.

mod records;

/// The word of a member that waits. It reads nothing, and holds back no progress.
pub const WAITING: u64 = u64::MAX;

/// The word of a member that has ended its wait and not reported since.
pub const ENTERING: u64 = 0;

/// The counter as it begins.
pub const OPENING_COUNTER: u64 = 1;

/// The word of each member as it begins: the value after the first counter.
pub const OPENING_WORD: u64 = 2;

/// The counter is raised no further than to here.
pub const LAST_VALUE: u64 = 1 << 62;

/// How many members a machine has at most.
pub const MOST_MEMBERS: usize = 16;

/// What a member has loaded since it last reported, began to wait or ended its wait.
#[derive(Clone, Copy, Debug)]
pub enum Loaded {
    Nothing,
    /// The counter had this value.
    Counter(u64),
    /// The counter had this value, and the root was loaded after it.
    CounterAndRoot(u64),
}

/// What a leader has found since it leads or last raised the counter.
#[derive(Clone, Copy, Debug)]
pub struct Scans {
    /// The counter, once the leader has loaded or raised it.
    pub counter: Option<u64>,
    /// At the place of a member's number, whether that member is scanned.
    pub members: [bool; MOST_MEMBERS],
    /// Whether the delay is scanned.
    pub delay: bool,
}

/// Whether a member leads.
#[derive(Clone, Copy, Debug)]
pub enum Role {
    Follows,
    Leads(Scans),
}

/// A thread that reports its progress.
#[derive(Clone, Copy, Debug)]
pub struct Member {
    /// Members are numbered from 0.
    pub number: u32,
    /// `WAITING`, `ENTERING`, or the last value that it confirmed.
    pub word: u64,
    pub loaded: Loaded,
    /// The generation that the root had when it last loaded it.
    pub generation: u64,
    pub role: Role,
}

/// What was retired: no thread reads a generation below this one once the counter has reached
/// the need.
#[derive(Clone, Copy, Debug)]
pub struct Retirement {
    pub generation: u64,
    pub need: u64,
}
