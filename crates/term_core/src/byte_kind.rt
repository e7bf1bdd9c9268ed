ghost use Rattle.std.specs.Prelude.{◌≡◌, not, position};
ghost use Rattle.term_core.specs.Bytes.{kind_of, is_leaf_kind, leaf_front};

use crate::names::is_name_byte;

/// The brackets of tuples and of lists.
#[derive(Clone, Copy, Debug, PartialEq, Eq)]
pub(crate) enum Bracket {
    Curly,
    Square,
}

/// What a byte is in the text of a term.
#[derive(Clone, Copy, Debug, PartialEq, Eq)]
pub(crate) enum ByteKind {
    Open(Bracket),
    Close(Bracket),
    Comma,
    Minus,
    Zero,
    /// From 1 to 9.
    Digit,
    /// A small letter, with which an atom begins.
    Letter,
    /// What stands in an atom besides: a capital letter or an underscore.
    NameByte,
    /// What stands in no term's text.
    Foreign,
}

pub(crate) fn kind_of(byte: u8) -> ByteKind
    ensures { result ≡ kind_of byte }
{
    match byte {
        b',' => ByteKind::Comma,
        b'-' => ByteKind::Minus,
        b'0' => ByteKind::Zero,
        b'1'..=b'9' => ByteKind::Digit,
        b'[' => ByteKind::Open(Bracket::Square),
        b']' => ByteKind::Close(Bracket::Square),
        b'{' => ByteKind::Open(Bracket::Curly),
        b'}' => ByteKind::Close(Bracket::Curly),
        b'a'..=b'z' => ByteKind::Letter,
        _ if is_name_byte(byte) => ByteKind::NameByte,
        _ => ByteKind::Foreign,
    }
}

/// Whether such a byte stands in an integer or an atom, and not between terms.
pub(crate) fn is_leaf_kind(kind: ByteKind) -> bool
    ensures { result ≡ is_leaf_kind kind }
{
    !matches!(
        kind,
        ByteKind::Open(_) | ByteKind::Close(_) | ByteKind::Comma
    )
}

fn leaf_end(text: &[u8]) -> Option<usize>
    ensures { result ≡ position (λ c. not (is_leaf_kind (kind_of c))) text.now }
{
    text.iter().position(|byte| !is_leaf_kind(kind_of(*byte)))
}

/// The integer or the atom with which a text begins.
pub(crate) fn leaf_front(text: &[u8]) -> &[u8]
    ensures { result.now ≡ leaf_front text.now }
{
    let len = leaf_end(text).unwrap_or(text.len());
    &text[..len]
}
