ghost use Rattle.std.specs.Prelude.{◌≡◌, ℕ, List, false, IsTrue, IfOk};
ghost use Rattle.term_core.specs.Faults.{IsTextOf};
ghost use Rattle.term_core.specs.Names.{IsNames};
ghost use Rattle.term_core.specs.Plain.{plain};
ghost use Rattle.term_core.specs.TermForms.{is_term_text, is_wide_text, text_words, term_in, tree_of, IsFormOf, IsPrinted};
ghost use Rattle.term_core.specs.TermText.{IsTerm};
ghost use Rattle.term_core.specs.Written.{WrittenTerm};

use crate::builder::build_one;
use crate::leaves::{outside_at, words_in};
use crate::names::Names;
use crate::no_memory::NoMemory;
use crate::scan::syntax_fault;
use crate::term::Term;
use std::alloc::Global;

/// Whether a text is a term's, whatever the size of its numbers.
///
/// It takes memory: a few bytes for each open bracket.
#[tactic(auto, unfolding(crate::specs::TermForms::is_term_text))]
pub fn is_term_text(alloc: Global, text: &[u8]) -> Result<bool, NoMemory>
    ensures { IfOk result (λ is. is ≡ is_term_text text.now) }
{
    let fault = syntax_fault(alloc, text)?;
    Ok(fault.is_none())
}

/// Whether the text of a term has an integer that is no term's.
#[tactic(auto, unfolding(crate::specs::TermForms::is_wide_text))]
pub fn is_wide_text(text: &[u8]) -> bool
    ensures { result ≡ is_wide_text text.now }
{
    outside_at(text).is_some()
}

/// How many words the image of the term of a text has.
#[tactic(auto, unfolding(crate::specs::TermForms::text_words))]
pub fn text_words(text: &[u8]) -> usize
    ensures { result ≡ text_words text.now }
{
    words_in(text)
}

/// The term that a text says under these names. An atom that they do not hold is read as their first, so name the atoms before.
///
/// It takes memory: that of the term, and a few bytes for each open bracket.
pub fn term_in(alloc: Global, names: &Names, text: &[u8]) -> Result<Term, NoMemory>
    requires form { IsTrue (is_term_text text.now) }
    requires narrow { is_wide_text text.now ≡ false }
    ensures { IfOk result (λ term. plain term ≡ term_in names.now text.now) }
{
    build_one(alloc, names, text)
}

/// A law: what is read of a term's text is what its one written term says, and what is printed of a term is read as that term.
pub fn texts_are_forms()
    ensures tree { (text : List ℕ) → IsTrue (is_term_text text) → IsFormOf text (tree_of text) }
    ensures form { (text : List ℕ) (form : WrittenTerm) → IsTextOf text form → IsTrue (is_term_text text) × (tree_of text ≡ form) }
    ensures printed { (names : List (List ℕ)) (term : Term) → IsNames names → IsTerm names term → IsPrinted names term }
{}
