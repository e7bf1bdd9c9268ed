//! The words of a switch.

ghost use Rattle.std.specs.Prelude.{◌≡◌};
ghost use Rattle.term_core.specs.Text.Words.{switch_reading};

/// Whether a switch is on, by its word: `on` or `off`.
pub fn switch_of(text: &[u8]) -> Option<bool>
    ensures { result ≡ switch_reading text.now }
{
    if text == b"on".as_slice() {
        Some(true)
    } else if text == b"off".as_slice() {
        Some(false)
    } else {
        None
    }
}
