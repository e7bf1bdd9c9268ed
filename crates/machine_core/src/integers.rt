ghost use Rattle.std.specs.Prelude.{◌≡◌, ◌+ℤ◌, ◌-ℤ◌};
ghost use Rattle.machine_core.specs.Values.{difference_of, fitting, integer_of, less_of, sum_of};

use crate::process::End;
use term_core::{GREATEST_INTEGER, LEAST_INTEGER, Term};

/// The sum of two terms, or how the process ends that asks for it.
pub fn sum(a: &Term, b: &Term) -> Result<Term, End>
    ensures { result ≡ sum_of a.now b.now }
{
    match (integer(a), integer(b)) {
        (Some(x), Some(y)) => integer_sum(x, y),
        _ => Err(End::Badarith),
    }
}

/// The first term less the second, or how the process ends that asks for it.
pub fn difference(a: &Term, b: &Term) -> Result<Term, End>
    ensures { result ≡ difference_of a.now b.now }
{
    match (integer(a), integer(b)) {
        (Some(x), Some(y)) => integer_difference(x, y),
        _ => Err(End::Badarith),
    }
}

/// Whether the first integer is less than the second, or how the process ends that asks for it.
pub fn is_less(a: &Term, b: &Term) -> Result<bool, End>
    ensures { result ≡ less_of a.now b.now }
{
    match (integer(a), integer(b)) {
        (Some(x), Some(y)) => Ok(x < y),
        _ => Err(End::Badarg),
    }
}

/// The integer that a term is, if it is one.
fn integer(term: &Term) -> Option<i64>
    ensures { result ≡ integer_of term.now }
{
    match term {
        Term::Int(number) => Some(*number),
        _ => None,
    }
}

fn integer_sum(x: i64, y: i64) -> Result<Term, End>
    ensures { result ≡ fitting (x +ℤ y) }
{
    fitting(x.checked_add(y).ok_or(End::SystemLimit)?)
}

fn integer_difference(x: i64, y: i64) -> Result<Term, End>
    ensures { result ≡ fitting (x -ℤ y) }
{
    fitting(x.checked_sub(y).ok_or(End::SystemLimit)?)
}

/// The term of an integer, if it is one of 60 bits.
fn fitting(number: i64) -> Result<Term, End>
    ensures { result ≡ fitting number }
{
    if number < LEAST_INTEGER || number > GREATEST_INTEGER {
        Err(End::SystemLimit)
    } else {
        Ok(Term::Int(number))
    }
}
