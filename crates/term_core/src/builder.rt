ghost use Rattle.std.specs.Prelude.{◌≡◌, [], ◌∷◌, ◌++◌, List, false, IfOk, OnOk};
ghost use Rattle.term_core.specs.Bytes.{leaf_front};
ghost use Rattle.term_core.specs.Faults.{IsReadable};
ghost use Rattle.term_core.specs.Plain.{plain};
ghost use Rattle.term_core.specs.TermText.{number_in};
ghost use Rattle.term_core.specs.Tokens.{Token, IsLeaf, AreLeaves, token_at, tokens_in, leaf_of, bracketed, shut_terms, built};
ghost use Rattle.term_core.specs.Tops.{without_top};
ghost use Rattle.term_core.specs.Written.{integer_of};

use crate::atom::AtomId;
use crate::byte_kind::{Bracket, ByteKind, is_leaf_kind, kind_of, leaf_front};
use crate::integer::term_integer;
use crate::leaves::begins;
use crate::names::{Names, is_atom_text};
use crate::no_memory::NoMemory;
use crate::stack::Stack;
use crate::term::{Term, TermList};
use std::alloc::Global;
use std::mem;

/// Terms that are being built.
#[derive(Drop)]
struct Builder {
    /// Those behind the innermost open bracket.
    terms: TermList,
    /// The open brackets, with the terms in front of each.
    outer: Stack<(Bracket, TermList)>,
}

fn bracketed(bracket: Bracket, terms: TermList) -> Term
    ensures { plain result ≡ bracketed bracket terms }
{
    match bracket {
        Bracket::Curly => Term::Tuple(terms),
        Bracket::Square => Term::List(terms),
    }
}

impl Builder {
    fn new(alloc: Global) -> Builder
        ensures terms { result.terms ≡ [] }
        ensures outer { result.outer ≡ [] }
    {
        Builder {
            terms: TermList::new(alloc),
            outer: Stack::new(alloc),
        }
    }

    fn begin(&mut self, alloc: Global, bracket: Bracket) -> Result<(), NoMemory>
        ensures terms { OnOk result (self.new.terms ≡ []) }
        ensures outer { OnOk result (self.new.outer ≡ (bracket, self.old.terms) ∷ self.old.outer) }
    {
        let terms = mem::replace(&mut self.terms, TermList::new(alloc));
        self.outer.push((bracket, terms))
    }

    // Where no bracket is open, nothing changes.
    fn end(&mut self) -> Result<(), NoMemory>
        ensures terms { OnOk result (self.new.terms ≡ shut_terms self.old.terms self.old.outer) }
        ensures outer { OnOk result (self.new.outer ≡ without_top self.old.outer) }
    {
        match self.outer.pop() {
            Some((bracket, outer)) => {
                let terms = mem::replace(&mut self.terms, outer);
                self.terms.push(bracketed(bracket, terms))
            }
            None => Ok(()),
        }
    }
}

// An atom that the names do not hold is read as their first.
fn read_leaf(names: &Names, text: &[u8]) -> Term
    requires { IsLeaf text.now }
    ensures { plain result ≡ leaf_of integer_of (number_in names.now) text.now }
{
    if is_atom_text(text) {
        Term::Atom(names.get(text).unwrap_or(AtomId(0)))
    } else {
        Term::Int(term_integer(text))
    }
}

// Takes the token of the first byte, which is of this kind, if a token begins there.
fn take_token(
    alloc: Global,
    builder: &mut Builder,
    names: &Names,
    inside: bool,
    kind: ByteKind,
    text: &[u8],
) -> Result<(), NoMemory>
    requires { AreLeaves (token_at inside kind (leaf_front text.now)) }
    ensures { OnOk result ((more : List Token) → built integer_of (number_in names.now) (token_at inside kind (leaf_front text.now) ++ more) builder.old.terms builder.old.outer ≡ built integer_of (number_in names.now) more builder.new.terms builder.new.outer) }
{
    match kind {
        ByteKind::Open(bracket) => builder.begin(alloc, bracket),
        ByteKind::Close(_) => builder.end(),
        _ if begins(inside, kind) => builder.terms.push(read_leaf(names, leaf_front(text))),
        _ => Ok(()),
    }
}

/// The terms of a text, under the numbers of these names.
pub(crate) fn build(alloc: Global, names: &Names, text: &[u8]) -> Result<TermList, NoMemory>
    requires { AreLeaves (tokens_in false text.now) }
    ensures { IfOk result (λ terms. terms ≡ built integer_of (number_in names.now) (tokens_in false text.now) [] []) }
{
    let mut builder = Builder::new(alloc);
    let mut inside = false;
    for (at, byte) in text.iter().enumerate() {
        let kind = kind_of(*byte);
        take_token(alloc, &mut builder, names, inside, kind, &text[at..])?;
        inside = is_leaf_kind(kind);
    }
    Ok(builder.terms)
}

/// The one term of a text, under the numbers of these names.
pub(crate) fn build_one(alloc: Global, names: &Names, text: &[u8]) -> Result<Term, NoMemory>
    requires { IsReadable text.now }
    ensures { IfOk result (λ term. built integer_of (number_in names.now) (tokens_in false text.now) [] [] ≡ plain term ∷ []) }
{
    let mut terms = build(alloc, names, text)?;
    match terms.pop() {
        Some(term) => Ok(term),
        None => unreachable!("the text has one term"),
    }
}
