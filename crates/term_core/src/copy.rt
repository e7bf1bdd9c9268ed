ghost use Rattle.std.specs.Prelude.{◌≡◌, IfOk};

use crate::no_memory::NoMemory;
use crate::term::{Term, TermList};
use std::alloc::{AllocError, Global};

#[cycle(copy)]
fn copy_term(alloc: Global, term: &Term) -> Result<Term, NoMemory>
    ensures { IfOk result (λ copy. copy ≡ term.now) }
{
    match term {
        Term::Int(number) => Ok(Term::Int(*number)),
        Term::Atom(atom) => Ok(Term::Atom(*atom)),
        Term::Tuple(terms) => Ok(Term::Tuple(copy_terms(alloc, terms)?)),
        Term::List(terms) => Ok(Term::List(copy_terms(alloc, terms)?)),
    }
}

#[cycle(copy)]
fn copy_terms(alloc: Global, terms: &TermList) -> Result<TermList, NoMemory>
    ensures { IfOk result (λ copy. copy ≡ terms.now) }
{
    let mut copies = Vec::new(alloc);
    for term in &terms.items {
        let copy = copy_term(alloc, term)?;
        copies.push(copy)?;
    }
    Ok(TermList { items: copies })
}

impl Term {
    /// The same term in memory of its own.
    pub fn copy(&self, alloc: Global) -> Result<Term, NoMemory>
        ensures { IfOk result (λ copy. copy ≡ self.now) }
    {
        copy_term(alloc, self)
    }
}

impl TermList {
    /// The same terms in memory of their own.
    pub fn copy(&self, alloc: Global) -> Result<TermList, NoMemory>
        ensures { IfOk result (λ copy. copy ≡ self.now) }
    {
        copy_terms(alloc, self)
    }
}

impl Clone for TermList {
    ghost is_clone = { λ terms copy. copy ≡ terms };

    fn clone(&self) -> Result<TermList, AllocError> {
        match copy_terms(*self.items.allocator(), self) {
            Ok(copy) => Ok(copy),
            Err(_) => Err(AllocError),
        }
    }
}

impl Clone for Term {
    ghost is_clone = { λ term copy. copy ≡ term };

    fn clone(&self) -> Result<Term, AllocError> {
        match self {
            Term::Int(number) => Ok(Term::Int(*number)),
            Term::Atom(atom) => Ok(Term::Atom(*atom)),
            Term::Tuple(terms) => Ok(Term::Tuple(terms.clone()?)),
            Term::List(terms) => Ok(Term::List(terms.clone()?)),
        }
    }
}
