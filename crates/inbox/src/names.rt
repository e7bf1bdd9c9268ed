//! Which queue an inbox has.

use std::marker::Brand;

/// The queues of a run's inboxes, by the number of the inbox. Each run picks them.
///
/// What is generic in it belongs to the same run, so callers compare the numbers of inboxes alone.
pub trait InboxNames {
    ghost use Rattle.std.specs.Prelude.{ℕ, Option};
    ghost use Rattle.inbox.specs.Queues.{QueueId};

    ghost queue: { ℕ → Option QueueId };
}

impl InboxNames for Brand {
    ghost use Rattle.std.specs.Prelude.{None};

    ghost queue = { λ _. None };
}
