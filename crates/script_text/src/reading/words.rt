//! The numbers of a line, within their bounds.

ghost use Rattle.std.specs.Prelude.{◌≡◌, IsTrue};
ghost use Rattle.term_core.specs.Written.{is_integer_text};
ghost use Rattle.script_text.specs.LineReading.{snapshots_reading};
ghost use Rattle.script_text.specs.WrittenLine.{term_integer};

use script_core::MOST_SNAPSHOTS;
use term_core::{GREATEST_INTEGER, LEAST_INTEGER, narrow_of, parsed_integer};

/// The number of snapshots that digits write, from 1 to 16.
pub fn snapshots_of(text: &[u8]) -> Option<u64>
    ensures { result ≡ snapshots_reading text.now }
{
    match narrow_of(text) {
        Some(count) if 1 <= count && u64::from(count) <= MOST_SNAPSHOTS => Some(u64::from(count)),
        _ => None,
    }
}

/// The integer that a text says, where it is one of 60 bits.
pub fn integer_of(text: &[u8]) -> Option<i64>
    requires { IsTrue (is_integer_text text.now) }
    ensures { result ≡ term_integer text.now }
{
    match parsed_integer(text) {
        Some(number) if LEAST_INTEGER <= number && number <= GREATEST_INTEGER => Some(number),
        _ => None,
    }
}
