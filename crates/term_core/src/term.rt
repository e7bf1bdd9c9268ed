ghost use Rattle.std.specs.Prelude.{◌≡◌, [], ◌∷◌, ◌++◌, length, map, slice_get, option_map, ◌↔◌, IsTrue, OnOk, OnErr, MatchOption};
ghost use Rattle.term_core.specs.Plain.{plain};

use crate::atom::AtomId;
use crate::no_memory::NoMemory;
use std::alloc::Global;
use std::marker::Model;

/// A constant: an integer of 60 bits, an atom, or a tuple or list of terms.
#[cycle(term)]
#[derive(Debug, Drop)]
pub enum Term {
    /// From -576460752303423488 to 576460752303423487.
    Int(i64),
    Atom(AtomId),
    Tuple(TermList),
    List(TermList),
}

/// Terms in a row, as the elements of a tuple or the arguments of a call. Contracts see the list of the plain terms.
#[cycle(term)]
#[derive(Debug, Drop)]
pub struct TermList {
    pub(crate) items: Vec<Term>,
}

impl Model for TermList {
    ghost use Rattle.std.specs.Prelude.{List, map};
    ghost use Rattle.term_core.specs.PlainTerm.{PlainTerm, row_of, row_words};
    ghost use Rattle.term_core.specs.TermCode.{plain_terms_code};

    ghost Value = { List PlainTerm };

    ghost coded = { plain_terms_code };

    ghost use Rattle.term_core.specs.Plain.{plain};

    ghost view = { λ it. map plain it.items.items };

    ghost size = { λ ts. row_words (row_of ts) };

    ghost use Rattle.std.proofs.Common.{arith};
    ghost use Rattle.term_core.specs.TermSize.{most_le-words};

    ghost size_decreases = { λ a h. omega (arith, most_le-words a.items.items) };
}

impl TermList {
    /// No terms. It takes no memory.
    pub fn new(alloc: Global) -> TermList
        ensures { result ≡ [] }
    {
        TermList {
            items: Vec::new(alloc),
        }
    }

    /// The terms of a `Vec`. It takes no memory.
    pub fn from_vec(items: Vec<Term>) -> TermList
        ensures { result ≡ map plain items.items }
    {
        TermList { items }
    }

    pub fn as_slice(&self) -> &[Term]
        ensures { map plain result.now ≡ self.now }
    {
        self.items.as_slice()
    }

    pub fn len(&self) -> usize
        ensures { result ≡ length self.now }
    {
        self.items.len()
    }

    pub fn is_empty(&self) -> bool
        ensures { IsTrue result ↔ (self.now ≡ []) }
    {
        self.items.is_empty()
    }

    pub fn get(&self, at: usize) -> Option<&Term>
        ensures { option_map (λ term. plain term.now) result ≡ slice_get self.now at }
    {
        self.items.get(at)
    }

    /// Appends one term. Where memory is refused, nothing is appended.
    pub fn push(&mut self, term: Term) -> Result<(), NoMemory>
        ensures ok { OnOk result (self.new ≡ self.old ++ plain term ∷ []) }
        ensures err { OnErr result (self.new ≡ self.old) }
    {
        self.items.push(term)?;
        Ok(())
    }

    /// Takes out the last term.
    pub fn pop(&mut self) -> Option<Term>
        ensures { MatchOption result ((self.old ≡ []) × (self.new ≡ [])) (λ last. self.old ≡ self.new ++ plain last ∷ []) }
    {
        self.items.pop()
    }
}
