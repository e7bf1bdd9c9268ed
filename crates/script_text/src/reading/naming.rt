//! The names of a line get their numbers, in order.

ghost use Rattle.std.specs.Prelude.{◌≡◌, false, map, length, All, IfOk, IsTrue};
ghost use Rattle.std.specs.List.{list_any};
ghost use Rattle.term_core.specs.Plain.{plain};
ghost use Rattle.term_core.specs.TermForms.{is_term_text as is_form, is_wide_text as is_wide_form};
ghost use Rattle.script_text.specs.Causes.{Gives};
ghost use Rattle.script_text.specs.Naming.{atom_named, ref_named, refs_named, trace_named, argument_named, arguments_named, is_wide_word, is_long_word, key_with_term, put_named, target_named, call_named};
ghost use Rattle.script_text.specs.WrittenLine.{complex, is_sound_word, kept_ref, kept_trace, kept_argument, kept_put, kept_call};

use crate::fault::Which;
use crate::reading::cause::LineCause;
use crate::reading::written::{WrittenArgument, WrittenCall, WrittenPut, WrittenRef, WrittenTrace};
use server_core::{ModRef, RefList};
use std::alloc::Global;
use term_core::{
    AtomId, MOST_WORDS, Mfa, Names, Term, TermList, is_atom_text, is_wide_text, name_atoms,
    term_in, text_words,
};

/// The number of an atom's text.
pub fn name_atom(names: &mut Names, text: &[u8]) -> Result<AtomId, LineCause>
    ensures { Gives (λ atom. (atom.0, names.new)) result (atom_named names.old text.now) }
{
    if !is_atom_text(text) {
        return Err(LineCause::Syntax);
    }
    Ok(names.add(text)?)
}

fn name_ref(names: &mut Names, to: WrittenRef<'_>) -> Result<ModRef, LineCause>
    ensures { Gives (λ named. (named, names.new)) result (ref_named names.old (kept_ref to.entry)) }
{
    let name = name_atom(names, to.name)?;
    Ok(ModRef {
        name,
        version: to.version,
    })
}

/// The modules of a load.
pub fn name_refs(
    alloc: Global,
    names: &mut Names,
    refs: &[WrittenRef<'_>],
) -> Result<RefList, LineCause>
    ensures { Gives (λ named. (named, names.new)) result (refs_named names.old (map kept_ref refs.now)) }
{
    let mut named = RefList::new(alloc);
    for to in refs {
        named.push(name_ref(names, *to)?)?;
    }
    Ok(named)
}

/// The function of a breakpoint.
#[tactic(auto, unfolding(crate::specs::Naming::trace_named))]
pub fn name_trace(names: &mut Names, trace: WrittenTrace<'_>) -> Result<Mfa, LineCause>
    ensures { Gives (λ target. (target, names.new)) result (trace_named names.old (kept_trace trace.entry)) }
{
    let module = name_atom(names, trace.module)?;
    let name = name_atom(names, trace.name)?;
    Ok(Mfa {
        module,
        name,
        arity: trace.arity,
    })
}

/// The term of a tuple's or a list's text.
fn name_complex(alloc: Global, names: &mut Names, text: &[u8]) -> Result<Term, LineCause>
    requires form { IsTrue (is_form text.now) }
    requires narrow { is_wide_form text.now ≡ false }
    ensures { Gives (λ term. (plain term, names.new)) result (argument_named names.old (complex text.now)) }
{
    name_atoms(names, text)?;
    Ok(term_in(alloc, names, text)?)
}

fn name_argument(
    alloc: Global,
    names: &mut Names,
    argument: WrittenArgument<'_>,
) -> Result<Term, LineCause>
    requires sound { IsTrue (is_sound_word (kept_argument argument)) }
    requires narrow { is_wide_word (kept_argument argument) ≡ false }
    ensures { Gives (λ term. (plain term, names.new)) result (argument_named names.old (kept_argument argument.entry)) }
{
    match argument {
        WrittenArgument::Integer(Some(number)) => Ok(Term::Int(number)),
        WrittenArgument::Integer(None) => Err(LineCause::Limit(Which::Integer)),
        WrittenArgument::Atom(text) => Ok(Term::Atom(name_atom(names, text)?)),
        WrittenArgument::Complex(text) => name_complex(alloc, names, text),
    }
}

fn name_arguments(
    alloc: Global,
    names: &mut Names,
    args: &[WrittenArgument<'_>],
) -> Result<TermList, LineCause>
    requires sound { All (λ argument. IsTrue (is_sound_word (kept_argument argument))) args.now }
    requires narrow { All (λ argument. is_wide_word (kept_argument argument) ≡ false) args.now }
    ensures named { Gives (λ terms. (terms, names.new)) result (arguments_named names.old (map kept_argument args.now)) }
    ensures count { IfOk result (λ terms. length terms ≡ length args.now) }
{
    let mut terms = TermList::new(alloc);
    for argument in args {
        terms.push(name_argument(alloc, names, *argument)?)?;
    }
    Ok(terms)
}

fn is_wide(argument: WrittenArgument<'_>) -> bool
    ensures { result ≡ is_wide_word (kept_argument argument.entry) }
{
    match argument {
        WrittenArgument::Integer(number) => number.is_none(),
        WrittenArgument::Atom(_) => false,
        WrittenArgument::Complex(text) => is_wide_text(text),
    }
}

fn is_long(argument: WrittenArgument<'_>) -> bool
    ensures { result ≡ is_long_word (kept_argument argument.entry) }
{
    match argument {
        WrittenArgument::Complex(text) => text_words(text) > MOST_WORDS,
        _ => false,
    }
}

fn are_wide(args: &[WrittenArgument<'_>]) -> bool
    ensures { result ≡ list_any (λ argument. is_wide_word (kept_argument argument)) args.now }
{
    args.iter().any(|argument| is_wide(*argument))
}

fn are_long(args: &[WrittenArgument<'_>]) -> bool
    ensures { result ≡ list_any (λ argument. is_long_word (kept_argument argument)) args.now }
{
    args.iter().any(|argument| is_long(*argument))
}

#[tactic(auto, unfolding(crate::specs::Naming::key_with_term))]
fn name_key(
    alloc: Global,
    names: &mut Names,
    put: WrittenPut<'_>,
) -> Result<(AtomId, Term), LineCause>
    requires sound { IsTrue (is_sound_word (kept_argument put.term)) }
    requires narrow { is_wide_word (kept_argument put.term) ≡ false }
    ensures { Gives (λ made. (made.0.0, plain made.1, names.new)) result (key_with_term names.old (kept_put put.entry)) }
{
    let key = name_atom(names, put.key)?;
    let term = name_argument(alloc, names, put.term)?;
    Ok((key, term))
}

/// The key of a put, and its term. The limits of the term come before names without a number.
pub fn name_put(
    alloc: Global,
    names: &mut Names,
    put: WrittenPut<'_>,
) -> Result<(AtomId, Term), LineCause>
    requires { IsTrue (is_sound_word (kept_argument put.term)) }
    ensures { Gives (λ made. (made.0.0, plain made.1, names.new)) result (put_named names.old (kept_put put.entry)) }
{
    if is_wide(put.term) {
        return Err(LineCause::Limit(Which::Integer));
    }
    if is_long(put.term) {
        return Err(LineCause::Limit(Which::Term));
    }
    name_key(alloc, names, put)
}

/// The target of a call, and its arguments.
#[tactic(auto, unfolding(crate::specs::Naming::target_named))]
fn name_target(
    alloc: Global,
    names: &mut Names,
    call: &WrittenCall<'_>,
) -> Result<(Mfa, TermList), LineCause>
    requires { All (λ argument. is_wide_word (kept_argument argument) ≡ false) call.now.args.items }
    ensures { Gives (λ made. (made.0, made.1, names.new)) result (target_named names.old (kept_call call.now)) }
{
    let module = name_atom(names, call.module)?;
    let name = name_atom(names, call.name)?;
    let args = name_arguments(alloc, names, call.args.as_slice())?;
    let arity = args.len() as u32;
    let target = Mfa {
        module,
        name,
        arity,
    };
    Ok((target, args))
}

/// The target of a call, and its arguments. The limits of the arguments come before names without a number.
pub fn name_call(
    alloc: Global,
    names: &mut Names,
    call: &WrittenCall<'_>,
) -> Result<(Mfa, TermList), LineCause>
    ensures { Gives (λ made. (made.0, made.1, names.new)) result (call_named names.old (kept_call call.now)) }
{
    if are_wide(call.args.as_slice()) {
        return Err(LineCause::Limit(Which::Integer));
    }
    if are_long(call.args.as_slice()) {
        return Err(LineCause::Limit(Which::Term));
    }
    name_target(alloc, names, call)
}
