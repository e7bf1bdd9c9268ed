ghost use Rattle.std.specs.Prelude.{◌≡◌, IfOk, IfSome, if◌then◌else◌, option_map, slice_get};
ghost use Rattle.term_core.specs.Image.{term_at, term_of_word};
ghost use Rattle.term_core.specs.Plain.{term_of};
ghost use Rattle.machine_core.specs.Process.{Words, owned, value_shown};
ghost use Rattle.machine_core.specs.Stand.{IsUsable, is_immediate_word, place_number};
ghost use Rattle.machine_core.specs.Values.{element_of, integer_of, part_value, parts_of};
ghost use Rattle.machine_core.specs.Holds.{Holds};
ghost use Rattle.machine_core.specs.View.{IsLawful, Shown};

use crate::literals::place_behind;
use crate::process::{LitRef, Value};
use crate::view::CodeView;
use term_core::{NoMemory, Term, parts_of_word};

/// The low four bits of a word are its tag.
const TAG_COUNT: u64 = 16;

const INTEGER_TAG: u64 = 1;

const ATOM_TAG: u64 = 2;

/// The element of a tuple or a list with a number, counted from 1, if there is one.
pub fn element<V: CodeView>(
    index: &Term,
    from: Value,
    view: &mut V,
) -> Result<Option<Value>, NoMemory>
    requires lawful { IsLawful (V.shown view.old) }
    requires usable { IsUsable (V.shown view.old) (V.held view.old) from }
    ensures value { IfOk result (λ found. option_map (value_shown (V.shown view.old).words) found
        ≡ element_of index.now (value_shown (V.shown view.old).words from)) }
    ensures usable { IfOk result (λ found. IfSome found (IsUsable (V.shown view.old) (V.held view.old))) }
    ensures same { V.shown view.new ≡ V.shown view.old }
    ensures holds { V.held view.new ≡ V.held view.old }
{
    let Some(place) = place_of(index) else {
        return Ok(None);
    };
    match from {
        Value::Owned(term) => owned_part(&term, place),
        Value::Literal(at) => Ok(literal_part(at, place, view)),
    }
}

/// The place, counted from 0, of the element with a number, if the term is such a number.
fn place_of(index: &Term) -> Option<u64>
    ensures { result ≡ place_number (integer_of index.now) }
{
    match index {
        Term::Int(number) if *number > 0 => Some((*number - 1) as u64),
        _ => None,
    }
}

/// The element of a term at a place, counted from 0, as a term of its own.
fn owned_part(term: &Term, place: u64) -> Result<Option<Value>, NoMemory>
    ensures value { (words : Words) → IfOk result (λ found. option_map (value_shown words) found
        ≡ option_map (part_value (owned term.now)) (slice_get (parts_of term.now) place)) }
    ensures usable { (shown : Shown) (held : Holds) → IfOk result (λ found. IfSome found (IsUsable shown held)) }
{
    match term {
        Term::Tuple(terms) | Term::List(terms) => match terms.get(place as usize) {
            Some(part) => Ok(Some(Value::Owned(part.clone()?))),
            None => Ok(None),
        },
        _ => Ok(None),
    }
}

/// The element of a literal at a place, counted from 0: a literal of the same area, or an integer or an atom.
fn literal_part<V: CodeView>(at: LitRef, place: u64, view: &mut V) -> Option<Value>
    requires lawful { IsLawful (V.shown view.old) }
    requires usable { IsUsable (V.shown view.old) (V.held view.old) (Value.Literal at) }
    ensures value { option_map (value_shown (V.shown view.old).words) result
        ≡ option_map (part_value (value_shown (V.shown view.old).words (Value.Literal at)))
        (slice_get (parts_of (term_of (term_at ((V.shown view.old).words at.area.serial) at.at))) place) }
    ensures usable { IfSome result (IsUsable (V.shown view.old) (V.held view.old)) }
    ensures same { V.shown view.new ≡ V.shown view.old }
    ensures holds { V.held view.new ≡ V.held view.old }
{
    let word = view.word(at.area, at.at);
    if place >= parts_of_word(word) {
        return None;
    }
    let part = LitRef {
        area: at.area,
        at: place_behind(at.area, at.at + 1, place, view),
    };
    let first = view.word(part.area, part.at);
    Some(part_at(part, first))
}

/// The value of a term that stands in an area, by its first word: an integer or an atom is copied.
fn part_at(at: LitRef, first: u64) -> Value
    ensures { result ≡ (if is_immediate_word first then Value.Owned (term_of_word first) else Value.Literal at) }
{
    if is_immediate_word(first) {
        Value::Owned(Term::of_word(first))
    } else {
        Value::Literal(at)
    }
}

/// Whether the word is that of an integer or an atom.
fn is_immediate_word(word: u64) -> bool
    ensures { result ≡ is_immediate_word word }
{
    let tag = word % TAG_COUNT;
    tag == INTEGER_TAG || tag == ATOM_TAG
}
