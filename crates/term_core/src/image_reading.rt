ghost use Rattle.std.specs.Prelude.{◌≡◌, ◌≤◌, [], ◌∷◌, Some, length, map, take, drop, All, IsTrue, IfOk, OnOk, IsErrOf};
ghost use Rattle.term_core.specs.Gives.{GivesUnless};
ghost use Rattle.term_core.specs.Image.{IsImageAt, term_at, terms_in, with_word, parts_of_word};
ghost use Rattle.term_core.specs.ImageWords.{is_image_word, found_len};
ghost use Rattle.term_core.specs.Plain.{plain, term_of};
ghost use Rattle.term_core.specs.PlainTerm.{PlainTerm};

use crate::image_fault::ImageFault;
use crate::immediate::{
    ATOM_COUNT, ATOM_TAG, INTEGER_TAG, LIST_TAG, TAG_COUNT, TUPLE_TAG, parts_of_word,
};
use crate::no_memory::NoMemory;
use crate::stack::Stack;
use crate::term::{Term, TermList};
use crate::term_text::MOST_WORDS;
use std::alloc::Global;

fn is_image_word(word: u64) -> bool
    ensures value { result ≡ is_image_word word }
    ensures few { IsTrue result → parts_of_word word ≤ 64 }
{
    let bits = word / TAG_COUNT;
    match word % TAG_COUNT {
        INTEGER_TAG => true,
        ATOM_TAG => bits < ATOM_COUNT,
        TUPLE_TAG | LIST_TAG => bits <= MOST_WORDS as u64,
        _ => false,
    }
}

// How many words the image has with which these words begin.
fn found_len(words: &[u64]) -> Option<usize>
    requires { length words.now ≤ 64 }
    ensures { result ≡ found_len 1 words.now }
{
    let mut needed = 1;
    for (at, word) in words.iter().enumerate() {
        if !is_image_word(*word) {
            return None;
        }
        needed = needed - 1 + parts_of_word(*word);
        if needed == 0 {
            return Some(at + 1);
        }
    }
    None
}

// So many terms of a stack, the topmost first.
fn take_terms(alloc: Global, terms: &mut Stack<Term>, count: u64) -> Result<TermList, NoMemory>
    ensures row { IfOk result (λ row. row ≡ take count (map plain terms.old)) }
    ensures left { OnOk result (map plain terms.new ≡ drop count (map plain terms.old)) }
{
    let mut row = TermList::new(alloc);
    for _ in 0..count {
        if let Some(term) = terms.pop() {
            row.push(term)?;
        }
    }
    Ok(row)
}

// Puts the term that begins with a word in the place of its parts.
fn take_word(alloc: Global, terms: &mut Stack<Term>, word: u64) -> Result<(), NoMemory>
    requires { IsTrue (is_image_word word) }
    ensures { OnOk result (map plain terms.new ≡ with_word word (map plain terms.old)) }
{
    let count = word / TAG_COUNT;
    match word % TAG_COUNT {
        TUPLE_TAG => {
            let parts = take_terms(alloc, terms, count)?;
            terms.push(Term::Tuple(parts))
        }
        LIST_TAG => {
            let parts = take_terms(alloc, terms, count)?;
            terms.push(Term::List(parts))
        }
        _ => terms.push(Term::of_word(word)),
    }
}

// The terms whose images these words are, the first on top.
fn terms_in(alloc: Global, words: &[u64]) -> Result<Stack<Term>, NoMemory>
    requires { All (λ word. IsTrue (is_image_word word)) words.now }
    ensures { IfOk result (λ terms. map plain terms ≡ terms_in words.now) }
{
    let mut terms = Stack::new(alloc);
    for word in words.iter().rev() {
        take_word(alloc, &mut terms, *word)?;
    }
    Ok(terms)
}

// The term whose image the first of these words are.
fn read_front(alloc: Global, words: &[u64], len: usize) -> Result<Term, NoMemory>
    requires { found_len 1 words.now ≡ Some len }
    ensures { IfOk result (λ term. terms_in (take len words.now) ≡ plain term ∷ []) }
{
    let mut terms = terms_in(alloc, &words[..len])?;
    match terms.pop() {
        Some(term) => Ok(term),
        None => unreachable!("an image has a term"),
    }
}

/// Reads the term whose image stands in a block from a place on. Words behind the image are not read.
///
/// It takes memory: that of the term. `ImageFault::Bad` where no term of at most 64 words has its image there.
pub fn read_image(alloc: Global, words: &[u64], at: usize) -> Result<Term, ImageFault>
    requires { at ≤ length words.now }
    ensures ok { IfOk result (λ term. IsImageAt words.now at (plain term)) }
    ensures value { IfOk result (λ term. plain term ≡ term_at words.now at) }
    ensures only { (t : PlainTerm) → IsImageAt words.now at t → GivesUnless ImageFault.NoMemory result (term_of t) }
    ensures cause { IsErrOf result ImageFault.Bad → (t : PlainTerm) → IsImageAt words.now at t → ⊥ }
{
    let left = &words[at..];
    let front = &left[..MOST_WORDS.min(left.len())];
    match found_len(front) {
        Some(len) => Ok(read_front(alloc, front, len)?),
        None => Err(ImageFault::Bad),
    }
}
