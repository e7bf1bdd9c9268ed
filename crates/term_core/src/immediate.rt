ghost use Rattle.std.specs.Prelude.{◌≡◌, ◌<◌};
ghost use Rattle.term_core.specs.Plain.{plain};
ghost use Rattle.term_core.specs.Written.{IsTermInteger};
ghost use Rattle.term_core.specs.Image.{IsImmediate, HasSmallAtoms, low_bits, immediate_word, integer_of_bits, term_of_word, is_immediate, parts_of_word};

use crate::atom::AtomId;
use crate::term::Term;

/// The low four bits of a word are its tag, which says what the others are.
pub(crate) const TAG_COUNT: u64 = 16;

pub(crate) const INTEGER_TAG: u64 = 1;

pub(crate) const ATOM_TAG: u64 = 2;

pub(crate) const TUPLE_TAG: u64 = 3;

pub(crate) const LIST_TAG: u64 = 4;

/// Integers are held modulo this number.
const INTEGER_COUNT: i64 = 1152921504606846976;

/// From this number on, the bits are those of an integer below zero.
const NEGATIVE_BITS: u64 = 576460752303423488;

pub(crate) const ATOM_COUNT: u64 = 4294967296;

fn low_bits(number: i64) -> u64
    requires { IsTermInteger number }
    ensures value { result ≡ low_bits number }
    ensures small { result < 1152921504606846976 }
{
    if number >= 0 {
        number as u64
    } else {
        (number + INTEGER_COUNT) as u64
    }
}

fn integer_of_bits(bits: u64) -> i64
    requires { bits < 1152921504606846976 }
    ensures { result ≡ integer_of_bits bits }
{
    if bits < NEGATIVE_BITS {
        bits as i64
    } else {
        bits as i64 - INTEGER_COUNT
    }
}

/// How many terms behind a word are its parts: as many as the word of a tuple or a list counts.
pub fn parts_of_word(word: u64) -> u64
    ensures { result ≡ parts_of_word word }
{
    match word % TAG_COUNT {
        TUPLE_TAG | LIST_TAG => word / TAG_COUNT,
        _ => 0,
    }
}

impl Term {
    /// Whether one word stands for it, as for an integer or an atom.
    pub fn is_immediate(&self) -> bool
        ensures { result ≡ is_immediate (plain self.now) }
    {
        matches!(self, Term::Int(_) | Term::Atom(_))
    }

    /// The word that stands for an integer or an atom.
    pub fn word(&self) -> u64
        requires { IsImmediate self.now }
        ensures { result ≡ immediate_word self.now }
    {
        match self {
            Term::Int(number) => low_bits(*number) * TAG_COUNT + INTEGER_TAG,
            Term::Atom(atom) => u64::from(atom.0) * TAG_COUNT + ATOM_TAG,
            Term::Tuple(_) | Term::List(_) => unreachable!("a tuple and a list have more words"),
        }
    }

    /// The integer or the atom that a word stands for. A word with neither's tag is read as an atom's.
    pub fn of_word(word: u64) -> Term
        ensures { result ≡ term_of_word word }
    {
        let bits = word / TAG_COUNT;
        if word % TAG_COUNT == INTEGER_TAG {
            Term::Int(integer_of_bits(bits))
        } else {
            Term::Atom(AtomId((bits % ATOM_COUNT) as u32))
        }
    }
}

/// A law: the word of an integer or an atom is read as that integer or atom.
pub fn words_read_back()
    ensures { (term : Term) → IsImmediate term → HasSmallAtoms term → term_of_word (immediate_word term) ≡ term }
{}
