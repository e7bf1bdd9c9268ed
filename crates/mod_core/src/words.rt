//! Reading single words of an image.

ghost use Rattle.std.specs.Prelude.{◌≡◌, slice_index};
ghost use Rattle.mod_core.specs.Decoding.{atom_from, name_from, number_from};

use crate::layout::{ARITY_ROOM, ATOM_ROOM, TAG_COUNT};
use term_core::{AtomId, Mfa};

/// How many numbers 32 bits have room for.
const NUMBER_COUNT: u64 = 4294967296;

/// The word at a place; 0 past the end.
pub(crate) fn word_at(words: &[u64], at: usize) -> u64
    ensures { result ≡ slice_index words.now at }
{
    if at < words.len() { words[at] } else { 0 }
}

/// The number in a word, of which the low 32 bits count.
pub(crate) fn number_from(word: u64) -> u32
    ensures { result ≡ number_from word }
{
    (word % NUMBER_COUNT) as u32
}

pub(crate) fn atom_from(word: u64) -> AtomId
    ensures { result ≡ atom_from word }
{
    AtomId(number_from(word / TAG_COUNT))
}

pub(crate) fn name_from(word: u64) -> Mfa
    ensures { result ≡ name_from word }
{
    let atoms = word / ARITY_ROOM;
    Mfa {
        module: AtomId(number_from(atoms / ATOM_ROOM)),
        name: AtomId((atoms % ATOM_ROOM) as u32),
        arity: (word % ARITY_ROOM) as u32,
    }
}
