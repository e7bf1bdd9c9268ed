//! The numbers of a line: versions and arities.

ghost use Rattle.std.specs.Prelude.{◌≡◌};
ghost use Rattle.mod_text.specs.LineReading.{version_reading, arity_reading};

use mod_core::{GREATEST_VERSION, MOST_ARGUMENTS};
use term_core::narrow_of;

/// The version that digits write, from 1 to 999,999.
pub fn version_of(text: &[u8]) -> Option<u32>
    ensures { result ≡ version_reading text.now }
{
    match narrow_of(text) {
        Some(version) if 1 <= version && version <= GREATEST_VERSION => Some(version),
        _ => None,
    }
}

/// The arity that digits write, at most 15.
pub fn arity_of(text: &[u8]) -> Option<u32>
    ensures { result ≡ arity_reading text.now }
{
    match narrow_of(text) {
        Some(arity) if arity <= MOST_ARGUMENTS => Some(arity),
        _ => None,
    }
}
