ghost use Rattle.std.specs.Prelude.{◌≡◌, ◌<◌, ◌⊎◌, ◌∷◌, [], false, length, IfOk, IfErr, OnOk};
ghost use Rattle.term_core.specs.Faults.{IsReadable};
ghost use Rattle.term_core.specs.Names.{IsNames, Extends};
ghost use Rattle.term_core.specs.Plain.{plain};
ghost use Rattle.term_core.specs.Reading.{ReadsAs, term_reading, names_after_text};
ghost use Rattle.term_core.specs.TermText.{number_in};
ghost use Rattle.term_core.specs.Tokens.{tokens_in, built};
ghost use Rattle.term_core.specs.Written.{integer_of};

use crate::builder::build_one;
use crate::leaves::{outside_at, words_in};
use crate::names::{MOST_NAMES, Names};
use crate::naming::name_atoms;
use crate::scan::syntax_fault;
use crate::term::Term;
use crate::term_fault::TermFault;
use crate::term_text::MOST_WORDS;
use std::alloc::Global;

#[tactic(auto, unfolding(crate::specs::TermForms::term_atoms))]
fn build_term(alloc: Global, names: &mut Names, text: &[u8]) -> Result<Term, TermFault>
    requires { IsReadable text.now }
    ensures ok { IfOk result (λ term. built integer_of (number_in names.new) (tokens_in false text.now) [] [] ≡ plain term ∷ []) }
    ensures named { OnOk result (names.new ≡ names_after_text names.old text.now) }
    ensures fault { IfErr result (λ fault. ((fault ≡ TermFault.Names) × (MOST_NAMES < length (names_after_text names.old text.now))) ⊎ (fault ≡ TermFault.NoMemory)) }
    ensures grown { Extends names.old names.new }
    ensures sound { IsNames names.new }
{
    name_atoms(names, text)?;
    Ok(build_one(alloc, names, text)?)
}

/// Reads a text as its definition does.
pub(crate) fn read_text(names: &mut Names, text: &[u8]) -> Result<Term, TermFault>
    ensures reads { ReadsAs (term_reading names.old text.now) result names.new }
    ensures grown { Extends names.old names.new }
    ensures sound { IsNames names.new }
{
    let alloc = *names.texts.allocator();
    if let Some(at) = syntax_fault(alloc, text)? {
        return Err(TermFault::Syntax { at });
    }
    if let Some(at) = outside_at(text) {
        return Err(TermFault::IntRange { at });
    }
    if words_in(text) > MOST_WORDS {
        return Err(TermFault::TooLong);
    }
    build_term(alloc, names, text)
}
