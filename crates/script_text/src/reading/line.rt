//! The lines that are in no module's text: their words, from left to right.

ghost use Rattle.std.specs.Prelude.{◌≡◌, ◌≤◌, map, option_map, vec_len, All, IfOk, IsTrue};
ghost use Rattle.term_core.specs.Names.{is_atom_text as is_atom};
ghost use Rattle.term_core.specs.TermForms.{is_complex_text};
ghost use Rattle.term_core.specs.TermParts.{parts_of_terms};
ghost use Rattle.mod_text.specs.ModuleLine.{is_arity_text};
ghost use Rattle.term_core.specs.Text.Parts.{each_reading};
ghost use Rattle.term_core.specs.Text.Steps.{text_tested, numbered_reading};
ghost use Rattle.script_text.specs.Causes.{Gives};
ghost use Rattle.script_text.specs.LineReading.{ref_reading, refs_reading, command_reading, put_reading, trace_reading, argument_reading, arguments_reading, closed_arguments, call_reading, title_reading};
ghost use Rattle.script_text.specs.Naming.{or_syntax};
ghost use Rattle.script_text.specs.WrittenLine.{ref_words, kept_ref, kept_word, function_written_words, trace_words, kept_trace, argument_words, is_sound_word, kept_argument, put_words, kept_put, call_words, kept_call};

use crate::reading::cause::LineCause;
use crate::reading::words::integer_of;
use crate::reading::written::{
    AtomWord, WrittenArgument, WrittenCall, WrittenPut, WrittenRef, WrittenTrace,
};
use mod_core::MOST_ARGUMENTS;
use mod_text::{arity_of, version_of};
use std::alloc::Global;
use term_core::{
    NoMemory, cut_at, cut_first, cut_term, is_atom_text, is_integer_text, is_term_text, switch_of,
};

fn read_atom(text: &[u8]) -> Option<&[u8]>
    ensures { option_map (λ name. name.now) result ≡ text_tested is_atom text.now }
{
    if is_atom_text(text) { Some(text) } else { None }
}

/// A module's name and version, as `m.1`.
fn read_ref(text: &[u8]) -> Option<WrittenRef<'_>>
    ensures { option_map kept_ref result ≡ option_map ref_words (ref_reading text.now) }
{
    let (name, digits) = cut_at(text, b'.')?;
    let name = read_atom(name)?;
    let version = version_of(digits)?;
    Some(WrittenRef { name, version })
}

fn read_reference(text: &[u8]) -> Result<WrittenRef<'_>, LineCause>
    ensures { Gives kept_ref result (or_syntax (option_map ref_words (ref_reading text.now))) }
{
    read_ref(text).ok_or(LineCause::Syntax)
}

/// The modules of a load, behind its word.
pub fn read_refs(alloc: Global, text: &[u8]) -> Result<Vec<WrittenRef<'_>>, LineCause>
    ensures { Gives (λ refs. map kept_ref refs.items) result (or_syntax (option_map (map ref_words) (refs_reading text.now))) }
{
    let mut refs = Vec::new(alloc);
    let mut rest = Some(text);
    'references: while let Some(left) = rest {
        let (part, behind) = cut_first(left, b' ');
        refs.push(read_reference(part)?)?;
        rest = behind;
    }
    Ok(refs)
}

/// The command of one atom that a word names.
pub fn read_word(word: &[u8]) -> Option<AtomWord>
    ensures { option_map kept_word result ≡ command_reading word.now }
{
    if word == b"delete".as_slice() {
        Some(AtomWord::Delete)
    } else if word == b"soft_purge".as_slice() {
        Some(AtomWord::SoftPurge)
    } else if word == b"purge".as_slice() {
        Some(AtomWord::Purge)
    } else if word == b"check_old".as_slice() {
        Some(AtomWord::CheckOld)
    } else if word == b"erase".as_slice() {
        Some(AtomWord::Erase)
    } else {
        None
    }
}

/// A function's name and arity, as `main/0`.
fn read_function(text: &[u8]) -> Option<(&[u8], u32)>
    ensures { option_map (λ p. (p.0.now, p.1)) result ≡ option_map function_written_words (numbered_reading 47 is_arity_text text.now) }
{
    let (name, digits) = cut_at(text, b'/')?;
    let name = read_atom(name)?;
    let arity = arity_of(digits)?;
    Some((name, arity))
}

/// A breakpoint that is set or taken away, behind its word, as `m:main/0 on`.
pub fn read_trace(text: &[u8]) -> Option<WrittenTrace<'_>>
    ensures { option_map kept_trace result ≡ option_map trace_words (trace_reading text.now) }
{
    let (target, switch) = cut_at(text, b' ')?;
    let (module, function) = cut_at(target, b':')?;
    let module = read_atom(module)?;
    let (name, arity) = read_function(function)?;
    let on = switch_of(switch)?;
    Some(WrittenTrace {
        module,
        name,
        arity,
        on,
    })
}

/// Whether a text is that of a tuple or a list.
fn is_complex(alloc: Global, text: &[u8]) -> Result<bool, NoMemory>
    ensures { IfOk result (λ is. is ≡ is_complex_text text.now) }
{
    match text.first() {
        Some(b'{' | b'[') => is_term_text(alloc, text),
        _ => Ok(false),
    }
}

/// A term that stands in a line.
fn read_argument(alloc: Global, text: &[u8]) -> Result<WrittenArgument<'_>, LineCause>
    ensures read { Gives kept_argument result (or_syntax (option_map argument_words (argument_reading text.now))) }
    ensures sound { IfOk result (λ argument. IsTrue (is_sound_word (kept_argument argument))) }
{
    if is_atom_text(text) {
        Ok(WrittenArgument::Atom(text))
    } else if is_integer_text(text) {
        Ok(WrittenArgument::Integer(integer_of(text)))
    } else if is_complex(alloc, text)? {
        Ok(WrittenArgument::Complex(text))
    } else {
        Err(LineCause::Syntax)
    }
}

/// A put, behind its word, as `k {1,[ok]}`.
pub fn read_put(alloc: Global, text: &[u8]) -> Result<WrittenPut<'_>, LineCause>
    ensures read { Gives kept_put result (or_syntax (option_map put_words (put_reading text.now))) }
    ensures sound { IfOk result (λ put. IsTrue (is_sound_word (kept_argument put.term))) }
{
    let (key, rest) = cut_at(text, b' ').ok_or(LineCause::Syntax)?;
    let key = read_atom(key).ok_or(LineCause::Syntax)?;
    let term = read_argument(alloc, rest)?;
    Ok(WrittenPut { key, term })
}

/// Arguments with commas between them, at least one. A comma inside of brackets is their argument's own.
fn read_some_arguments(alloc: Global, text: &[u8]) -> Result<Vec<WrittenArgument<'_>>, LineCause>
    ensures read { Gives (λ args. map kept_argument args.items) result (or_syntax (option_map (map argument_words) (each_reading argument_reading (parts_of_terms text.now)))) }
    ensures sound { IfOk result (λ args. All (λ argument. IsTrue (is_sound_word (kept_argument argument))) args.items) }
{
    let mut args = Vec::new(alloc);
    let mut rest = Some(text);
    'arguments: while let Some(left) = rest {
        let (part, behind) = cut_term(left);
        args.push(read_argument(alloc, part)?)?;
        rest = behind;
    }
    Ok(args)
}

fn read_arguments(alloc: Global, text: &[u8]) -> Result<Vec<WrittenArgument<'_>>, LineCause>
    ensures read { Gives (λ args. map kept_argument args.items) result (or_syntax (option_map (map argument_words) (arguments_reading text.now))) }
    ensures sound { IfOk result (λ args. All (λ argument. IsTrue (is_sound_word (kept_argument argument))) args.items) }
{
    if text.is_empty() {
        return Ok(Vec::new(alloc));
    }
    read_some_arguments(alloc, text)
}

/// The arguments in front of a bracket that closes the line; at most 15.
fn read_closed_arguments<'a>(
    alloc: Global,
    inside: &'a [u8],
    behind: &[u8],
) -> Result<Vec<WrittenArgument<'a>>, LineCause>
    ensures read { Gives (λ args. map kept_argument args.items) result (or_syntax (option_map (map argument_words) (closed_arguments (inside.now, behind.now)))) }
    ensures few { IfOk result (λ args. vec_len args ≤ MOST_ARGUMENTS) }
    ensures sound { IfOk result (λ args. All (λ argument. IsTrue (is_sound_word (kept_argument argument))) args.items) }
{
    let args = read_arguments(alloc, inside)?;
    if behind.is_empty() && args.len() <= MOST_ARGUMENTS as usize {
        Ok(args)
    } else {
        Err(LineCause::Syntax)
    }
}

/// The call of a spawn, behind its word, as `m:main(1,ok)`.
pub fn read_call(alloc: Global, text: &[u8]) -> Result<WrittenCall<'_>, LineCause>
    ensures { Gives kept_call result (or_syntax (option_map call_words (call_reading text.now))) }
{
    let (module, rest) = cut_at(text, b':').ok_or(LineCause::Syntax)?;
    let module = read_atom(module).ok_or(LineCause::Syntax)?;
    let (name, rest) = cut_at(rest, b'(').ok_or(LineCause::Syntax)?;
    let name = read_atom(name).ok_or(LineCause::Syntax)?;
    let (inside, behind) = cut_at(rest, b')').ok_or(LineCause::Syntax)?;
    let args = read_closed_arguments(alloc, inside, behind)?;
    Ok(WrittenCall { module, name, args })
}

/// The module and version of a title, as `module m.1`.
pub fn read_title(text: &[u8]) -> Option<WrittenRef<'_>>
    ensures { option_map kept_ref result ≡ option_map ref_words (title_reading text.now) }
{
    let (word, rest) = cut_at(text, b' ')?;
    if word == b"module".as_slice() {
        read_ref(rest)
    } else {
        None
    }
}
