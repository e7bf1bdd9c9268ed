ghost use Rattle.std.specs.Prelude.{◌≡◌, ◌<◌, length, OnOk, OnErr, IsErrOf};
ghost use Rattle.term_core.specs.Bytes.{leaf_front};
ghost use Rattle.term_core.specs.Names.{IsNames, Extends};
ghost use Rattle.term_core.specs.TermForms.{term_atoms};
ghost use Rattle.term_core.specs.TermText.{names_with_all};
ghost use Rattle.term_core.specs.Tokens.{token_at, atoms_among, names_with_leaf};

use crate::byte_kind::{ByteKind, is_leaf_kind, kind_of, leaf_front};
use crate::leaves::begins;
use crate::names::{MOST_NAMES, NameFault, Names, is_atom_text};

// Names the text of an integer or an atom, if it is an atom's.
fn name_leaf(names: &mut Names, text: &[u8]) -> Result<(), NameFault>
    ensures named { OnOk result (names.new ≡ names_with_leaf names.old text.now) }
    ensures full { IsErrOf result NameFault.Full → MOST_NAMES < length (names_with_leaf names.old text.now) }
    ensures err { OnErr result (names.new ≡ names.old) }
    ensures sound { IsNames names.new }
{
    // So the proof knows what a table keeps.
    let _ = &names.texts;
    if is_atom_text(text) {
        names.add(text)?;
    }
    Ok(())
}

// Names the atom that begins with the first byte, which is of this kind, if one begins there.
fn name_first(names: &mut Names, inside: bool, kind: ByteKind, text: &[u8]) -> Result<(), NameFault>
    ensures named { OnOk result (names.new ≡ names_with_all names.old (atoms_among (token_at inside kind (leaf_front text.now)))) }
    ensures full { IsErrOf result NameFault.Full → MOST_NAMES < length (names_with_all names.old (atoms_among (token_at inside kind (leaf_front text.now)))) }
    ensures grown { Extends names.old names.new }
    ensures sound { IsNames names.new }
{
    let _ = &names.texts;
    if begins(inside, kind) {
        name_leaf(names, leaf_front(text))?;
    }
    Ok(())
}

/// Names each atom of a term's text, in order: a new one gets the next number.
///
/// It takes memory for new ones. After a fault the names may be more than before.
pub fn name_atoms(names: &mut Names, text: &[u8]) -> Result<(), NameFault>
    ensures ok { OnOk result (names.new ≡ names_with_all names.old (term_atoms text.now)) }
    ensures full { IsErrOf result NameFault.Full → MOST_NAMES < length (names_with_all names.old (term_atoms text.now)) }
    ensures grown { Extends names.old names.new }
    ensures sound { IsNames names.new }
{
    let _ = &names.texts;
    let mut inside = false;
    for (at, byte) in text.iter().enumerate() {
        let kind = kind_of(*byte);
        name_first(names, inside, kind, &text[at..])?;
        inside = is_leaf_kind(kind);
    }
    Ok(())
}
