//! What the calls answer.

/// Whether a member took the lead.
#[derive(Clone, Copy, Debug, PartialEq, Eq)]
pub enum Lead {
    Led,
    /// The member of this number leads.
    Held { by: u32 },
}

/// What came of an attempt to raise the counter.
#[derive(Clone, Copy, Debug, PartialEq, Eq)]
pub enum Advance {
    /// The counter was raised to this value.
    Advanced(u64),
    /// This member, the first in the order of their numbers, has not confirmed the value after the
    /// counter: its word is `confirmed`, which is 0 while it enters.
    Behind { member: u32, confirmed: u64 },
    /// So many watchers delay the counter, at least one.
    Delayed { count: u64 },
    /// The counter is at its last value, and stays.
    AtEnd,
}

/// The counter has not reached what was asked for.
#[derive(Clone, Copy, Debug, PartialEq, Eq)]
pub struct NotYet {
    /// The value that was asked for.
    pub need: u64,
    /// The counter as this call loaded it.
    pub current: u64,
}
