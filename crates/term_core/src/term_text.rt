ghost use Rattle.std.specs.Prelude.{◌≡◌, ◌≤◌, ℕ, List, IfOk, IfErr};
ghost use Rattle.term_core.specs.Faults.{SyntaxAt, RangeAt, IsTooLong, OverfillsNames, HasCause};
ghost use Rattle.term_core.specs.Gives.{GivesUnless, RefusesUnless};
ghost use Rattle.term_core.specs.Names.{IsNames, Extends};
ghost use Rattle.term_core.specs.Plain.{plain};
ghost use Rattle.term_core.specs.PlainTerm.{term_words};
ghost use Rattle.term_core.specs.Reading.{ReadsAs, term_reading};
ghost use Rattle.term_core.specs.TermText.{TermText, IsTerm, term_text};

use crate::names::Names;
use crate::reading::read_text;
use crate::term::Term;
use crate::term_fault::TermFault;

/// How many words the image of a term that is read has at most.
pub const MOST_WORDS: usize = 64;

/// Reads a text that is one term and no more. New atoms get the next numbers, in order.
///
/// It takes memory. After a fault the names may be more than before.
pub fn read_term(names: &mut Names, text: &[u8]) -> Result<Term, TermFault>
    ensures reads { ReadsAs (term_reading names.old text.now) result names.new }

    // That is to say:
    ensures ok { IfOk result (λ term. TermText names.old text.now term names.new) }
    ensures short { IfOk result (λ term. term_words (plain term) ≤ MOST_WORDS) }
    ensures only { (term : Term) (after : List (List ℕ)) → TermText names.old text.now term after → term_words (plain term) ≤ MOST_WORDS → GivesUnless TermFault.NoMemory result term }

    // Each refusal has its cause, and each cause its refusal.
    ensures cause { IfErr result (λ fault. HasCause names.old text.now fault) }
    ensures syntax { (at : ℕ) → SyntaxAt text.now at → RefusesUnless TermFault.NoMemory result (TermFault.Syntax at) }
    ensures range { (at : ℕ) → RangeAt text.now at → RefusesUnless TermFault.NoMemory result (TermFault.IntRange at) }
    ensures too_long { IsTooLong text.now → RefusesUnless TermFault.NoMemory result TermFault.TooLong }
    ensures full { OverfillsNames names.old text.now → RefusesUnless TermFault.NoMemory result TermFault.Names }

    ensures grown { Extends names.old names.new }
    ensures sound { IsNames names.new }
{
    read_text(names, text)
}

/// A law: a text has one term, a term has one text, and what is printed of a term reads back as that term.
pub fn terms_read_back()
    ensures one_term { (before after later : List (List ℕ)) (text : List ℕ) (term other : Term) → TermText before text term after → TermText before text other later → term ≡ other }
    ensures one_text { (before after : List (List ℕ)) (text : List ℕ) (term : Term) → TermText before text term after → text ≡ term_text after term }
    ensures reads_back { (names : List (List ℕ)) (term : Term) → IsNames names → IsTerm names term → TermText names (term_text names term) term names }
{}
