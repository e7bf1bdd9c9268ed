ghost use Rattle.std.specs.Prelude.{◌≡◌, ◌↔◌, IsTrue};

use server_core::{Limit, Linger, Reply};
use term_core::AtomList;

/// Whether the two replies are one.
pub fn is_same_reply(reply: &Reply, other: &Reply) -> bool
    ensures { IsTrue result ↔ (reply.now ≡ other.now) }
{
    match reply {
        Reply::Ok => matches!(other, Reply::Ok),
        Reply::True => matches!(other, Reply::True),
        Reply::False => matches!(other, Reply::False),
        Reply::FalseBy(linger) => is_false_by(*linger, other),
        Reply::NotPurged(modules) => is_not_purged(modules, other),
        Reply::Duplicated(module) => matches!(other, Reply::Duplicated(name) if name == module),
        Reply::SystemLimit(limit) => is_limit(*limit, other),
    }
}

/// Whether the reply is that this process lingers.
fn is_false_by(linger: Linger, reply: &Reply) -> bool
    ensures { IsTrue result ↔ (Reply.FalseBy linger ≡ reply.now) }
{
    matches!(reply, Reply::FalseBy(told) if *told == linger)
}

/// Whether the reply is that these modules still have old code.
fn is_not_purged(modules: &AtomList, reply: &Reply) -> bool
    ensures { IsTrue result ↔ (Reply.NotPurged modules.now ≡ reply.now) }
{
    match reply {
        Reply::NotPurged(told) => modules.as_slice() == told.as_slice(),
        _ => false,
    }
}

/// Whether the reply is that this limit was met.
fn is_limit(limit: Limit, reply: &Reply) -> bool
    ensures { IsTrue result ↔ (Reply.SystemLimit limit ≡ reply.now) }
{
    match reply {
        Reply::SystemLimit(told) => is_same_limit(limit, *told),
        _ => false,
    }
}

/// Whether the two limits are one.
fn is_same_limit(limit: Limit, other: Limit) -> bool
    ensures { IsTrue result ↔ (limit ≡ other) }
{
    limit == other
}
