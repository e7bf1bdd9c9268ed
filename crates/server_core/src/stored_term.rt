ghost use Rattle.std.specs.Prelude.{◌≡◌, IfOk, slice_get};
ghost use Rattle.term_core.specs.Image.{image_of};
ghost use Rattle.term_core.specs.Plain.{plain};
ghost use Rattle.server_core.specs.ServerState.{IsShortTerm};

use std::alloc::Global;
use std::marker::Model;
use term_core::{NoMemory, Term, WordList, image};

/// A complex term that was put, as the words of its image. Contracts see the term that they stand for.
#[derive(Drop)]
pub struct StoredTerm {
    words: WordList,
}

impl Model for StoredTerm {
    ghost use Rattle.std.specs.Prelude.{◌≡◌};
    ghost use Rattle.term_core.specs.Image.{image_of, term_at};
    ghost use Rattle.term_core.specs.PlainTerm.{PlainTerm};
    ghost use Rattle.term_core.specs.TermCode.{plain_term_code};

    ghost Value = { PlainTerm };

    ghost coded = { plain_term_code };

    ghost view = { λ it. term_at it.words 0 };

    ghost invariant = { λ it. it.words ≡ image_of (term_at it.words 0) };
}

impl StoredTerm {
    pub fn new(alloc: Global, term: &Term) -> Result<StoredTerm, NoMemory>
        requires { IsShortTerm (plain term.now) }
        ensures { IfOk result (λ it. it ≡ plain term.now) }
    {
        let words = image(alloc, term)?;
        Ok(StoredTerm { words })
    }

    /// A word of the image; places count words from 0.
    pub fn word(&self, at: u32) -> Option<u64>
        ensures { result ≡ slice_get (image_of self.now) at }
    {
        self.words.get(at as usize).copied()
    }

    /// The words of the image.
    pub fn words(&self, alloc: Global) -> Result<WordList, NoMemory>
        ensures { IfOk result (λ words. words ≡ image_of self.now) }
    {
        WordList::from_slice(alloc, self.words.as_slice())
    }
}
