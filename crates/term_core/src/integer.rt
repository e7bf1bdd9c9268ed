ghost use Rattle.std.specs.Prelude.{◌≡◌, IsTrue, MatchOption};
ghost use Rattle.std.specs.Char.{is_ascii_digit};
ghost use Rattle.std.specs.List.{list_all};
ghost use Rattle.term_core.specs.Text.Numbers.{is_number_text, small_number};
ghost use Rattle.term_core.specs.Text.Words.{wide_number, number_reading, narrow_reading};
ghost use Rattle.term_core.specs.Tokens.{is_outside};
ghost use Rattle.term_core.specs.Written.{IsTermInteger, is_positive_text, is_integer_text, integer_of};

use crate::names::ascii_text;

/// The least integer that is a term.
pub const LEAST_INTEGER: i64 = -576460752303423488;

/// The greatest integer that is a term.
pub const GREATEST_INTEGER: i64 = 576460752303423487;

fn are_digits(bytes: &[u8]) -> bool
    ensures { result ≡ list_all is_ascii_digit bytes.now }
{
    bytes.iter().all(|byte| byte.is_ascii_digit())
}

pub(crate) fn is_positive_text(text: &[u8]) -> bool
    ensures { result ≡ is_positive_text text.now }
{
    match text.split_first() {
        None => false,
        Some((first, rest)) => matches!(*first, b'1'..=b'9') && are_digits(rest),
    }
}

/// Whether these are a number's digits.
pub fn is_number_text(text: &[u8]) -> bool
    ensures { result ≡ is_number_text text.now }
{
    text == b"0".as_slice() || is_positive_text(text)
}

/// The number that digits write, unless it is 2 ^ 32 or more.
pub fn small_number(digits: &[u8]) -> Option<u32>
    requires { IsTrue (is_number_text digits.now) }
    ensures { result ≡ small_number digits.now }
{
    ascii_text(digits).parse::<u32>().ok()
}

// None where the number is 2 ^ 64 or more.
fn wide_number(digits: &[u8]) -> Option<u64>
    requires { IsTrue (is_number_text digits.now) }
    ensures { result ≡ wide_number digits.now }
{
    ascii_text(digits).parse::<u64>().ok()
}

/// The number of 64 bits that a text is.
pub fn number_of(text: &[u8]) -> Option<u64>
    ensures { result ≡ number_reading text.now }
{
    if is_number_text(text) {
        wide_number(text)
    } else {
        None
    }
}

/// The number of 32 bits that a text is.
pub fn narrow_of(text: &[u8]) -> Option<u32>
    ensures { result ≡ narrow_reading text.now }
{
    if is_number_text(text) {
        small_number(text)
    } else {
        None
    }
}

/// Whether this is an integer's text, of any length.
pub fn is_integer_text(text: &[u8]) -> bool
    ensures { result ≡ is_integer_text text.now }
{
    match text.split_first() {
        None => false,
        Some((b'0', rest)) => rest.is_empty(),
        Some((b'-', digits)) => is_positive_text(digits),
        Some(_) => is_positive_text(text),
    }
}

/// The integer that a text says, unless it has more than 64 bits.
pub fn parsed_integer(text: &[u8]) -> Option<i64>
    requires { IsTrue (is_integer_text text.now) }
    ensures { MatchOption result (IsTermInteger (integer_of text.now) → ⊥) (λ z. z ≡ integer_of text.now) }
{
    ascii_text(text).parse::<i64>().ok()
}

/// The integer of a text whose integer is a term.
pub(crate) fn term_integer(text: &[u8]) -> i64
    requires form { IsTrue (is_integer_text text.now) }
    requires range { IsTermInteger (integer_of text.now) }
    ensures { result ≡ integer_of text.now }
{
    parsed_integer(text).unwrap()
}

/// Whether this is an integer's text, and the integer is no term.
pub(crate) fn is_outside(text: &[u8]) -> bool
    ensures { result ≡ is_outside text.now }
{
    if !is_integer_text(text) {
        return false;
    }
    match parsed_integer(text) {
        Some(number) => number < LEAST_INTEGER || GREATEST_INTEGER < number,
        None => true,
    }
}
