ghost use Rattle.std.specs.Prelude.{◌≡◌};
ghost use Rattle.term_core.specs.TermText.{atom_text};
ghost use Rattle.run_log.specs.Snapshots.{mfa_cmp, name_cmp};

use std::cmp::Ordering;
use term_core::{AtomId, Mfa, Names};

/// The order of two functions: by the names of their modules, then by their own names, then by their arities.
pub fn compare(names: &Names, f: &Mfa, g: &Mfa) -> Ordering
    ensures { result ≡ mfa_cmp names.now f.now g.now }
{
    compare_names(names, f.module, g.module)
        .then_with(|| compare_names(names, f.name, g.name))
        .then_with(|| f.arity.cmp(&g.arity))
}

/// The order of two atoms by the bytes of their names.
fn compare_names(names: &Names, a: AtomId, b: AtomId) -> Ordering
    ensures { result ≡ name_cmp names.now a.0 b.0 }
{
    text_of(names, a).cmp(text_of(names, b))
}

/// The text of an atom, which is empty where the atom has no name.
fn text_of(names: &Names, atom: AtomId) -> &[u8]
    ensures { result.now ≡ atom_text names.now atom.0 }
{
    names.text(atom).unwrap_or(&[])
}
