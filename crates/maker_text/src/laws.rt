ghost use Rattle.std.specs.Prelude.{◌≡◌, ℕ, ◌≤◌};
ghost use Rattle.script_maker.specs.declared.making.TheConstants.{MOST_COMMANDS};
ghost use Rattle.script_maker.specs.MadeScript.{made_names, made_script};
ghost use Rattle.script_text.specs.Canonical.{IsTooLongToPrint, canonical, canonical_text};
ghost use Rattle.script_text.specs.ScriptText.{ScriptText};
ghost use Rattle.script_text.specs.Counts.{counted_names};

/// A law: neither the canonical text of a made script nor a line of it is longer than a script's may be.
pub fn made_texts_are_within()
    ensures { (seed size : ℕ) → size ≤ MOST_COMMANDS → IsTooLongToPrint (made_script seed size) → ⊥ }
{}

/// A law: the canonical text of a made script is a text of it, so `read_script` accepts it as an equal script.
pub fn made_texts_are_texts()
    ensures { (seed size : ℕ) → size ≤ MOST_COMMANDS → ScriptText (canonical_text (made_script seed size)) (made_script seed size) }
{}

/// A law: the names of a made script are those that the lines of its canonical text name, in the order of first appearance.
pub fn made_names_are_in_order()
    ensures { (seed size : ℕ) → counted_names (canonical (made_script seed size)) ≡ made_names }
{}
