ghost use Rattle.std.specs.Prelude.{◌≡◌, ◌≤◌, ◌&&◌, false};
ghost use Rattle.term_core.specs.Bytes.{leaf_front};
ghost use Rattle.term_core.specs.Tokens.{begins, is_outside, outside_at, word_at, tokens_in, starts};

use crate::byte_kind::{ByteKind, is_leaf_kind, kind_of, leaf_front};
use crate::integer::is_outside;

/// Whether an integer or an atom begins with such a byte, behind a byte of one or not.
pub(crate) fn begins(inside: bool, kind: ByteKind) -> bool
    ensures { result ≡ begins inside kind }
{
    is_leaf_kind(kind) && !inside
}

fn begins_outside(inside: bool, kind: ByteKind, text: &[u8]) -> bool
    ensures { result ≡ (begins inside kind && is_outside (leaf_front text.now)) }
{
    begins(inside, kind) && is_outside(leaf_front(text))
}

/// The place of the first integer that is no term.
pub(crate) fn outside_at(text: &[u8]) -> Option<usize>
    ensures { result ≡ outside_at false text.now }
{
    let mut inside = false;
    for (at, byte) in text.iter().enumerate() {
        let kind = kind_of(*byte);
        if begins_outside(inside, kind, &text[at..]) {
            return Some(at);
        }
        inside = is_leaf_kind(kind);
    }
    None
}

fn word_at(inside: bool, kind: ByteKind) -> usize
    ensures value { result ≡ word_at inside kind }
    ensures small { result ≤ 1 }
{
    match kind {
        ByteKind::Open(_) => 1,
        _ => usize::from(begins(inside, kind)),
    }
}

/// How many words the image of the term of a text has.
pub(crate) fn words_in(text: &[u8]) -> usize
    ensures { result ≡ starts (tokens_in false text.now) }
{
    let mut words = 0;
    let mut inside = false;
    for byte in text {
        let kind = kind_of(*byte);
        words += word_at(inside, kind);
        inside = is_leaf_kind(kind);
    }
    words
}
