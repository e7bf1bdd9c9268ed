ghost use Rattle.std.specs.Prelude.{◌≡◌, ◌≤◌, ◌+◌, ◌<◌, ◌^◌, ◌∷◌, ℕ, List, map, option_map};
ghost use Rattle.term_core.specs.PlainTerm.{tuple_of, terms_of, row_count};
ghost use Rattle.term_core.specs.TermParts.{cut_part, depth_behind, is_part_end, joined, parts_of_rest, parts_of_terms};
ghost use Rattle.term_core.specs.Text.Cuts.{cut_at};
ghost use Rattle.term_core.specs.Text.Parts.{first_part};
ghost use Rattle.term_core.specs.Written.{WrittenRow, HasLeafTexts, written, parted};

/// What stands before and behind the first such byte, if there is one.
pub fn cut_at(text: &[u8], byte: u8) -> Option<(&[u8], &[u8])>
    ensures { option_map (λ p. (p.0.now, p.1.now)) result ≡ cut_at byte text.now }
{
    for (place, found) in text.iter().enumerate() {
        if *found == byte {
            return Some((&text[..place], &text[place + 1..]));
        }
    }
    None
}

/// What stands before the first such byte, and what stands behind it, if there is one.
pub fn cut_first(text: &[u8], byte: u8) -> (&[u8], Option<&[u8]>)
    ensures front { result.0.now ≡ (first_part byte text.now).front }
    ensures rest { option_map (λ rest. rest.now) result.1 ≡ (first_part byte text.now).rest }
{
    match cut_at(text, byte) {
        Some((front, behind)) => (front, Some(behind)),
        None => (text, None),
    }
}

fn depth_behind(depth: usize, byte: u8) -> usize
    requires { depth + 1 < 2 ^ 64 }
    ensures value { result ≡ depth_behind depth byte }
    ensures small { result ≤ depth + 1 }
{
    match byte {
        b'{' | b'[' => depth + 1,
        b'}' | b']' => depth.saturating_sub(1),
        _ => depth,
    }
}

fn is_part_end(depth: usize, byte: u8) -> bool
    ensures { result ≡ is_part_end depth byte }
{
    byte == b',' && depth == 0
}

/// What stands in front of the first comma outside of all brackets, and what stands behind it, if there is one.
///
/// Brackets are counted by depth, whatever their kind.
pub fn cut_term(text: &[u8]) -> (&[u8], Option<&[u8]>)
    ensures front { result.0.now ≡ (cut_part text.now).front }
    ensures rest { option_map (λ rest. rest.now) result.1 ≡ (cut_part text.now).rest }
{
    let mut depth = 0usize;
    for (at, byte) in text.iter().enumerate() {
        if is_part_end(depth, *byte) {
            return (&text[..at], Some(&text[at + 1..]));
        }
        depth = depth_behind(depth, *byte);
    }
    (text, None)
}

/// A law: the texts of terms with commas between them are parted at these commas, and no others.
pub fn terms_are_parted()
    ensures parts { (row : WrittenRow) → HasLeafTexts (tuple_of row) → 0 < row_count row → parts_of_terms (parted row) ≡ map written (terms_of row) }
    ensures joined { (text : List ℕ) → joined (parts_of_terms text) ≡ text }
    ensures cut { (text : List ℕ) → parts_of_terms text ≡ (cut_part text).front ∷ parts_of_rest (cut_part text).rest }
{}
