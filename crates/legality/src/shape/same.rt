ghost use Rattle.std.specs.Prelude.{◌≡◌, ◌↔◌, IsTrue};

use server_core::RefList;
use term_core::{Mfa, Term, TermList};

pub fn is_same_function(function: &Mfa, other: &Mfa) -> bool
    ensures { IsTrue result ↔ (function.now ≡ other.now) }
{
    function == other
}

pub fn is_same_term(term: &Term, other: &Term) -> bool
    ensures { IsTrue result ↔ (term.now ≡ other.now) }
{
    term == other
}

pub fn are_same_terms(terms: &TermList, others: &TermList) -> bool
    ensures { IsTrue result ↔ (terms.now ≡ others.now) }
{
    terms == others
}

pub fn are_same_references(refs: &RefList, others: &RefList) -> bool
    ensures { IsTrue result ↔ (refs.now ≡ others.now) }
{
    refs.as_slice() == others.as_slice()
}
