//! What the work of a form comes to.

ghost use Rattle.std.specs.Prelude.{◌≡◌, None};

use outside::Answer;
use shared_words::Closed;

/// What a form came to apart from writing, and the table that its run closed, where it made one.
#[derive(Drop)]
pub struct Work {
    pub answer: Answer,
    pub closed: Option<Closed>,
}

/// The work of what ran nothing.
pub fn unrun(answer: Answer) -> Work
    ensures answer { result.answer ≡ answer }
    ensures closed { result.closed ≡ None }
{
    Work {
        answer,
        closed: None,
    }
}
