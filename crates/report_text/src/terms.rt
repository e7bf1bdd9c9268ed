//! Terms, functions and calls, as a report's line has them.

ghost use Rattle.std.specs.Prelude.{◌≡◌, ◌≤◌, length, option_map, bytes_eq, nat_le, IfOk};
ghost use Rattle.term_core.specs.Plain.{plain, term_of};
ghost use Rattle.term_core.specs.TermText.{term_text};
ghost use Rattle.term_core.specs.TermParts.{parts_of_terms};
ghost use Rattle.term_core.specs.Text.Parts.{each_reading};
ghost use Rattle.report_text.specs.WordReading.{ReadsWord};
ghost use Rattle.report_text.specs.TermReading.{is_short_text, plain_reading, some_terms, terms_reading, closed_reading, arity_part, function_reading, arguments_part, call_reading};

use crate::line_fault::LineFault;
use crate::words::atom_of;
use mod_core::MOST_ARGUMENTS;
use mod_text::arity_of;
use std::alloc::Global;
use term_core::{
    AtomId, ByteList, MOST_WORDS, Mfa, Names, NoMemory, Term, TermList, cut_at, cut_term,
    is_term_text, is_wide_text, print_term, term_in, text_words,
};

/// A function, and the arguments with which it is called.
#[derive(Drop)]
pub struct Call {
    pub target: Mfa,
    pub args: TermList,
}

/// Whether a text is that of a term of at most 64 words, with integers of 60 bits.
fn is_short_text(alloc: Global, text: &[u8]) -> Result<bool, NoMemory>
    ensures { IfOk result (λ is. is ≡ is_short_text text.now) }
{
    let is_text = is_term_text(alloc, text)?;
    Ok(is_text && !is_wide_text(text) && text_words(text) <= MOST_WORDS)
}

/// Whether a term has just this text.
fn has_text(alloc: Global, names: &Names, term: &Term, text: &[u8]) -> Result<bool, NoMemory>
    ensures { IfOk result (λ is. is ≡ bytes_eq (term_text names.now term.now) text.now) }
{
    let mut written = ByteList::new(alloc);
    print_term(names, term, &mut written)?;
    Ok(written.as_slice() == text)
}

/// A term whose atoms have names: of another text, the term that is built has another text.
pub fn read_term(alloc: Global, names: &Names, text: &[u8]) -> Result<Term, LineFault>
    ensures shown { ReadsWord plain result (plain_reading names.now text.now) }
    ensures term { ReadsWord (λ term. term) result (option_map term_of (plain_reading names.now text.now)) }
{
    if !is_short_text(alloc, text)? {
        return Err(LineFault::Form);
    }
    let term = term_in(alloc, names, text)?;
    if has_text(alloc, names, &term, text)? {
        Ok(term)
    } else {
        Err(LineFault::Form)
    }
}

/// Whether a text has at most 15 parts between commas outside of all brackets.
fn has_few_parts(text: &[u8]) -> bool
    ensures { result ≡ nat_le (length (parts_of_terms text.now)) MOST_ARGUMENTS }
{
    let mut count = 0;
    let mut rest = Some(text);
    'parts: while let Some(left) = rest {
        if count == MOST_ARGUMENTS {
            return false;
        }
        count += 1;
        let (_, behind) = cut_term(left);
        rest = behind;
    }
    true
}

/// Terms with commas between them, at least one.
fn read_some_terms(alloc: Global, names: &Names, text: &[u8]) -> Result<TermList, LineFault>
    ensures { ReadsWord (λ terms. terms) result (each_reading (plain_reading names.now) (parts_of_terms text.now)) }
{
    let mut terms = TermList::new(alloc);
    let mut rest = Some(text);
    'terms: while let Some(left) = rest {
        let (part, behind) = cut_term(left);
        terms.push(read_term(alloc, names, part)?)?;
        rest = behind;
    }
    Ok(terms)
}

fn read_few_terms(alloc: Global, names: &Names, text: &[u8]) -> Result<TermList, LineFault>
    ensures read { ReadsWord (λ terms. terms) result (some_terms names.now text.now) }
    ensures few { IfOk result (λ terms. length terms ≤ MOST_ARGUMENTS) }
{
    if has_few_parts(text) {
        read_some_terms(alloc, names, text)
    } else {
        Err(LineFault::Form)
    }
}

/// The arguments of a call: at most 15.
fn read_terms(alloc: Global, names: &Names, text: &[u8]) -> Result<TermList, LineFault>
    ensures read { ReadsWord (λ terms. terms) result (terms_reading names.now text.now) }
    ensures few { IfOk result (λ terms. length terms ≤ MOST_ARGUMENTS) }
{
    if text.is_empty() {
        return Ok(TermList::new(alloc));
    }
    read_few_terms(alloc, names, text)
}

/// The arguments in front of a bracket that ends the text.
fn read_closed(alloc: Global, names: &Names, text: &[u8]) -> Result<TermList, LineFault>
    ensures read { ReadsWord (λ terms. terms) result (closed_reading names.now text.now) }
    ensures few { IfOk result (λ terms. length terms ≤ MOST_ARGUMENTS) }
{
    let (inside, behind) = cut_at(text, b')').ok_or(LineFault::Form)?;
    if !behind.is_empty() {
        return Err(LineFault::Form);
    }
    read_terms(alloc, names, inside)
}

/// A name and an arity, as `f/0`.
fn arity_part(names: &Names, text: &[u8]) -> Option<(AtomId, u32)>
    ensures { result ≡ arity_part names.now text.now }
{
    let (name, arity) = cut_at(text, b'/')?;
    let name = atom_of(names, name)?;
    let arity = arity_of(arity)?;
    Some((name, arity))
}

/// A function, as `m:f/0`.
pub fn function_of(names: &Names, text: &[u8]) -> Option<Mfa>
    ensures { result ≡ function_reading names.now text.now }
{
    let (module, rest) = cut_at(text, b':')?;
    let module = atom_of(names, module)?;
    let (name, arity) = arity_part(names, rest)?;
    Some(Mfa {
        module,
        name,
        arity,
    })
}

/// A name and arguments, as `f(1,ok)`.
fn arguments_part(
    alloc: Global,
    names: &Names,
    text: &[u8],
) -> Result<(AtomId, TermList), LineFault>
    ensures read { ReadsWord (λ part. part) result (arguments_part names.now text.now) }
    ensures few { IfOk result (λ part. length part.1 ≤ MOST_ARGUMENTS) }
{
    let (name, rest) = cut_at(text, b'(').ok_or(LineFault::Form)?;
    let name = atom_of(names, name).ok_or(LineFault::Form)?;
    let args = read_closed(alloc, names, rest)?;
    Ok((name, args))
}

/// A call, as `m:f(1,ok)`.
pub fn read_call(alloc: Global, names: &Names, text: &[u8]) -> Result<Call, LineFault>
    ensures { ReadsWord (λ call. call) result (call_reading names.now text.now) }
{
    let (module, rest) = cut_at(text, b':').ok_or(LineFault::Form)?;
    let module = atom_of(names, module).ok_or(LineFault::Form)?;
    let (name, args) = arguments_part(alloc, names, rest)?;
    let arity = args.len() as u32;
    let target = Mfa {
        module,
        name,
        arity,
    };
    Ok(Call { target, args })
}
