//! The words of a line.

ghost use Rattle.std.specs.Prelude.{◌≡◌, option_map};
ghost use Rattle.report_text.specs.WordReading.{cut_last, atom_reading};

use term_core::{AtomId, Names};

/// What stands before and behind the last such byte, if there is one.
pub fn cut_last(text: &[u8], byte: u8) -> Option<(&[u8], &[u8])>
    ensures { option_map (λ p. (p.0.now, p.1.now)) result ≡ cut_last byte text.now }
{
    let mut end = text.len();
    while end > 0 {
        let place = end - 1;
        if text[place] == byte {
            return Some((&text[..place], &text[end..]));
        }
        end = place;
    }
    None
}

/// The atom with this text.
pub fn atom_of(names: &Names, text: &[u8]) -> Option<AtomId>
    ensures { result ≡ atom_reading names.now text.now }
{
    names.get(text)
}
