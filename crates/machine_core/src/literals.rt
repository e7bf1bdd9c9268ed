ghost use Rattle.std.specs.Prelude.{◌≡◌, ◌-◌, ◌≤◌, ℕ, ◌<◌, All, IfOk, drop, length, take};
ghost use Rattle.machine_core.specs.Process.{value_shown, values_shown};
ghost use Rattle.machine_core.specs.Stand.{AreImages, IsUsable, images_end};
ghost use Rattle.machine_core.specs.Turn.{terms_of};
ghost use Rattle.machine_core.specs.Values.{term_of};
ghost use Rattle.machine_core.specs.View.{IsInBlock, IsLawful, IsReadable};
ghost use Rattle.machine_core.specs.Reach.{MayRead};

use crate::process::{LitRef, Value};
use crate::view::CodeView;
use std::alloc::Global;
use term_core::{AreaRef, NoMemory, Term, TermList, WordList, parts_of_word, read_image};

/// The term that a value is. That of a literal is read from its area.
pub fn term_of<V: CodeView>(alloc: Global, value: Value, view: &mut V) -> Result<Term, NoMemory>
    requires lawful { IsLawful (V.shown view.old) }
    requires usable { IsUsable (V.shown view.old) (V.held view.old) value }
    ensures ok { IfOk result (λ term. term ≡ term_of (value_shown (V.shown view.old).words value)) }
    ensures same { V.shown view.new ≡ V.shown view.old }
    ensures holds { V.held view.new ≡ V.held view.old }
{
    match value {
        Value::Owned(term) => Ok(term),
        Value::Literal(at) => read_literal(alloc, at, view),
    }
}

/// The terms that values are.
pub fn terms_of<V: CodeView>(
    alloc: Global,
    values: &[Value],
    view: &mut V,
) -> Result<TermList, NoMemory>
    requires lawful { IsLawful (V.shown view.old) }
    requires usable { All (IsUsable (V.shown view.old) (V.held view.old)) values.now }
    ensures ok { IfOk result (λ terms. terms ≡ terms_of (values_shown (V.shown view.old).words values.now)) }
    ensures same { V.shown view.new ≡ V.shown view.old }
    ensures holds { V.held view.new ≡ V.held view.old }
{
    let mut terms = TermList::new(alloc);
    for value in values {
        let term = term_of(alloc, value.clone()?, view)?;
        terms.push(term)?;
    }
    Ok(terms)
}

/// A copy of the term that stands in an area.
fn read_literal<V: CodeView>(alloc: Global, at: LitRef, view: &mut V) -> Result<Term, NoMemory>
    requires lawful { IsLawful (V.shown view.old) }
    requires usable { IsUsable (V.shown view.old) (V.held view.old) (Value.Literal at) }
    ensures ok { IfOk result (λ term. term ≡ term_of (value_shown (V.shown view.old).words (Value.Literal at))) }
    ensures same { V.shown view.new ≡ V.shown view.old }
    ensures holds { V.held view.new ≡ V.held view.old }
{
    let end = place_behind(at.area, at.at, 1, view);
    let words = words_between(alloc, at.area, at.at, end, view)?;
    // A literal's words are the image of a term, so that nothing but memory can be wanting.
    match read_image(alloc, words.as_slice(), 0) {
        Ok(term) => Ok(term),
        Err(_) => Err(NoMemory),
    }
}

/// The place behind so many terms, whose images stand one behind another from a place on.
pub fn place_behind<V: CodeView>(area: AreaRef, at: u32, count: u64, view: &mut V) -> u32
    requires lawful { IsLawful (V.shown view.old) }
    requires stands { IsInBlock (V.shown view.old) area }
    requires images { AreImages (V.shown view.old) area.serial at count }
    requires reached { MayRead (V.shown view.old).reads (V.held view.old) area.serial }
    ensures value { result ≡ images_end ((V.shown view.old).words area.serial) at count }
    ensures same { V.shown view.new ≡ V.shown view.old }
    ensures holds { V.held view.new ≡ V.held view.old }
{
    let mut place = at;
    let mut needed = count;
    while needed > 0 {
        let word = view.word(area, place);
        needed = needed - 1 + parts_of_word(word);
        place += 1;
    }
    place
}

/// The words of an area from a place up to another.
fn words_between<V: CodeView>(
    alloc: Global,
    area: AreaRef,
    from: u32,
    to: u32,
    view: &mut V,
) -> Result<WordList, NoMemory>
    requires lawful { IsLawful (V.shown view.old) }
    requires stands { IsInBlock (V.shown view.old) area }
    requires order { from ≤ to }
    requires within { to ≤ length ((V.shown view.old).words area.serial) }
    requires readable { (at : ℕ) → from ≤ at → at < to → IsReadable (V.shown view.old) area.serial at }
    requires reached { MayRead (V.shown view.old).reads (V.held view.old) area.serial }
    ensures ok { IfOk result (λ words. words ≡ take (to - from) (drop from ((V.shown view.old).words area.serial))) }
    ensures same { V.shown view.new ≡ V.shown view.old }
    ensures holds { V.held view.new ≡ V.held view.old }
{
    let mut words = WordList::new(alloc);
    for place in from..to {
        words.push(view.word(area, place))?;
    }
    Ok(words)
}
