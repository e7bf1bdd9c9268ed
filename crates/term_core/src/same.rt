ghost use Rattle.std.specs.Prelude.{◌≡◌};
ghost use Rattle.term_core.specs.Plain.{plain};
ghost use Rattle.term_core.specs.Same.{is_same, are_same};

use crate::term::{Term, TermList};

#[cycle(same)]
fn is_same(term: &Term, other: &Term) -> bool
    ensures { result ≡ is_same (plain term.now) (plain other.now) }
{
    match (term, other) {
        (Term::Int(number), Term::Int(value)) => number == value,
        (Term::Atom(atom), Term::Atom(name)) => atom == name,
        (Term::Tuple(terms), Term::Tuple(others)) => are_same(terms, others),
        (Term::List(terms), Term::List(others)) => are_same(terms, others),
        _ => false,
    }
}

#[cycle(same)]
fn are_same(terms: &TermList, others: &TermList) -> bool
    ensures { result ≡ are_same terms.now others.now }
{
    if terms.items.len() != others.items.len() {
        return false;
    }
    for (at, term) in terms.items.iter().enumerate() {
        if !is_same(term, &others.items[at]) {
            return false;
        }
    }
    true
}

impl PartialEq for Term {
    ghost use Rattle.std.specs.Cmp.{on_per, partial_equiv_from_equiv};
    ghost use Rattle.term_core.specs.Plain.{plain};
    ghost use Rattle.term_core.specs.Same.{is_same, is_same-laws};

    ghost eq = { λ t u. is_same (plain t) (plain u) };

    ghost laws = { on_per plain (partial_equiv_from_equiv is_same-laws) };

    fn eq(&self, other: &Term) -> bool {
        is_same(self, other)
    }
}

impl Eq for Term {
    ghost use Rattle.std.specs.Cmp.{on_equiv};
    ghost use Rattle.term_core.specs.Plain.{plain};
    ghost use Rattle.term_core.specs.Same.{is_same-laws};

    ghost laws = { on_equiv plain is_same-laws };
}

impl PartialEq for TermList {
    ghost use Rattle.std.specs.Cmp.{partial_equiv_from_equiv};
    ghost use Rattle.term_core.specs.Same.{are_same, are_same-laws};

    ghost eq = { are_same };

    ghost laws = { partial_equiv_from_equiv are_same-laws };

    fn eq(&self, other: &TermList) -> bool {
        are_same(self, other)
    }
}

impl Eq for TermList {
    ghost use Rattle.term_core.specs.Same.{are_same-laws};

    ghost laws = { are_same-laws };
}
