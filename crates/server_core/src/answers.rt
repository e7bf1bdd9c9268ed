ghost use Rattle.std.specs.Prelude.{◌≡◌, ◌+◌, IfOk, None, Some};
ghost use Rattle.server_core.specs.CommandTable.{answered};

use crate::command::{Applied, Reply};
use term_core::NoMemory;

/// The number of the generation after this one.
///
/// The numbers of generations end with the range of their type. That many commands take longer than any
/// run, so the end has no answer of its own: it is the one of a resource that is used up.
pub fn next_generation(generation: u64) -> Result<u64, NoMemory>
    ensures { IfOk result (λ next. next ≡ generation + 1) }
{
    generation.checked_add(1).ok_or(NoMemory)
}

/// An answer that publishes nothing.
pub fn unpublished(reply: Reply) -> Applied
    ensures { result ≡ record { reply = reply; published = None } }
{
    Applied {
        reply,
        published: None,
    }
}

/// An answer whose generation has this number.
pub fn published(reply: Reply, generation: u64) -> Applied
    ensures { result ≡ record { reply = reply; published = Some generation } }
{
    Applied {
        reply,
        published: Some(generation),
    }
}

/// A reply of yes or no.
pub fn answered(yes: bool) -> Reply
    ensures { result ≡ answered yes }
{
    if yes { Reply::True } else { Reply::False }
}
