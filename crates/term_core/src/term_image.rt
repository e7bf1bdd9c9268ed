ghost use Rattle.std.specs.Prelude.{◌≡◌, ◌+◌, ◌*◌, ◌<◌, ◌^◌, ◌++◌, ℕ, List, IfOk, OnOk};
ghost use Rattle.term_core.specs.Image.{image_of, row_image, IsPlainTerm, HasTermIntegers, RowHasTermIntegers, IsImageAt, term_at};
ghost use Rattle.term_core.specs.Plain.{plain};
ghost use Rattle.term_core.specs.PlainTerm.{PlainTerm, row_of, row_count, term_words, row_words};

use crate::immediate::{LIST_TAG, TAG_COUNT, TUPLE_TAG};
use crate::items::WordList;
use crate::no_memory::NoMemory;
use crate::term::{Term, TermList};
use std::alloc::Global;

// The greatest count that has room in a word beside its tag.
const MOST_PARTS: u64 = 1152921504606846975;

/// How many words the image of a term has.
#[cycle(words)]
pub fn image_len(term: &Term) -> u64
    requires { term_words (plain term.now) < 2 ^ 64 }
    ensures { result ≡ term_words (plain term.now) }
{
    match term {
        Term::Int(_) | Term::Atom(_) => 1,
        Term::Tuple(terms) | Term::List(terms) => 1 + row_len(terms),
    }
}

#[cycle(words)]
fn row_len(terms: &TermList) -> u64
    requires { row_words (row_of terms.now) < 2 ^ 64 }
    ensures { result ≡ row_words (row_of terms.now) }
{
    let mut words = 0;
    for term in &terms.items {
        words += image_len(term);
    }
    words
}

// The word of a tuple or a list of these terms. No memory has room for more of them than a word can count.
#[tactic(auto, using(crate::proofs::ImageReadings::count_row))]
fn count_word(terms: &TermList, tag: u64) -> Result<u64, NoMemory>
    requires { tag < TAG_COUNT }
    ensures { IfOk result (λ word. word ≡ row_count (row_of terms.now) * 16 + tag) }
{
    let count = terms.len() as u64;
    if count > MOST_PARTS {
        return Err(NoMemory);
    }
    Ok(count * TAG_COUNT + tag)
}

#[cycle(image)]
fn push_image(term: &Term, words: &mut WordList) -> Result<(), NoMemory>
    requires { HasTermIntegers (plain term.now) }
    ensures { OnOk result (words.new ≡ words.old ++ image_of (plain term.now)) }
{
    match term {
        Term::Int(_) | Term::Atom(_) => words.push(term.word()),
        Term::Tuple(terms) => {
            words.push(count_word(terms, TUPLE_TAG)?)?;
            push_images(terms, words)
        }
        Term::List(terms) => {
            words.push(count_word(terms, LIST_TAG)?)?;
            push_images(terms, words)
        }
    }
}

#[cycle(image)]
fn push_images(terms: &TermList, words: &mut WordList) -> Result<(), NoMemory>
    requires { RowHasTermIntegers (row_of terms.now) }
    ensures { OnOk result (words.new ≡ words.old ++ row_image (row_of terms.now)) }
{
    for term in &terms.items {
        push_image(term, words)?;
    }
    Ok(())
}

/// The image of a term: one word for each integer, atom, tuple and list, that of a tuple or a list before those of its terms.
///
/// It takes memory: eight bytes for each word.
pub fn image(alloc: Global, term: &Term) -> Result<WordList, NoMemory>
    requires { HasTermIntegers (plain term.now) }
    ensures { IfOk result (λ words. words ≡ image_of (plain term.now)) }
{
    let mut words = WordList::new(alloc);
    push_image(term, &mut words)?;
    Ok(words)
}

/// A law: a term and its image determine each other, and one term stands at a place.
pub fn images_read_back()
    ensures one_term { (t u : PlainTerm) → IsPlainTerm t → IsPlainTerm u → image_of t ≡ image_of u → t ≡ u }
    ensures at_place { (words : List ℕ) (at : ℕ) (t : PlainTerm) → IsImageAt words at t → term_at words at ≡ t }
{}
