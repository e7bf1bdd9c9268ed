//! Whether a module is one that some text has.

ghost use Rattle.std.specs.Prelude.{◌≡◌, ℕ, ◌+◌, ◌<◌, ◌≤◌, ◌↔◌, IsTrue, IsSomeAnd, MatchOption, All, length, slice_get};
ghost use Rattle.term_core.specs.Plain.{plain};
ghost use Rattle.term_core.specs.PlainTerm.{EachInRow, EachLeaf, row_of, row_words, term_words};
ghost use Rattle.term_core.specs.Written.{IsTermInteger};
ghost use Rattle.mod_core.specs.Module.{IsConstant, IsOperand, IsFunctionName, IsCallPlace, IsInstr, IsFunction, SameFunction, IsModule};
ghost use Rattle.mod_core.specs.ModuleImage.{code_constants, code_len, constants_len, instr_constants, instr_len, operand_constants};
ghost use Rattle.mod_core.specs.Valid.{function_words_with, words_with, AreFunctions, HasTitle};

use crate::code::{
    Function, GREATEST_VERSION, Instr, LONGEST_IMAGE, MOST_ARGUMENTS, MOST_FUNCTIONS, Module,
    Operand, REGISTERS,
};
use crate::image::instr_len;
use crate::layout::{HEAD_WORDS, RETURN_WORDS};
use term_core::{
    AtomId, GREATEST_INTEGER, LEAST_INTEGER, MOST_NAMES, MOST_WORDS, Mfa, Term, TermList,
};

/// How many words a function has besides its instructions: its head and the return at its end.
const FUNCTION_WORDS: usize = HEAD_WORDS + RETURN_WORDS;

fn is_atom(atom: AtomId) -> bool
    ensures { IsTrue result ↔ (atom.0 < MOST_NAMES) }
{
    (atom.0 as usize) < MOST_NAMES
}

/// Whether each integer is a term's and each atom one of 4,096.
#[cycle(leaves)]
fn has_leaves(term: &Term) -> bool
    ensures { IsTrue result ↔ EachLeaf IsTermInteger (λ atom. atom < MOST_NAMES) (plain term.now) }
{
    match term {
        Term::Int(number) => *number >= LEAST_INTEGER && *number <= GREATEST_INTEGER,
        Term::Atom(atom) => is_atom(*atom),
        Term::Tuple(terms) | Term::List(terms) => have_leaves(terms),
    }
}

#[cycle(leaves)]
fn have_leaves(terms: &TermList) -> bool
    ensures { IsTrue result ↔ EachInRow IsTermInteger (λ atom. atom < MOST_NAMES) (row_of terms.now) }
{
    for term in terms.as_slice() {
        if !has_leaves(term) {
            return false;
        }
    }
    true
}

/// How many of so many words are left behind the image of a term, if there are enough.
#[cycle(words)]
fn left_behind_term(room: usize, term: &Term) -> Option<usize>
    ensures { MatchOption result (room < term_words (plain term.now)) (λ left. left + term_words (plain term.now) ≡ room) }
{
    let left = room.checked_sub(1)?;
    match term {
        Term::Int(_) | Term::Atom(_) => Some(left),
        Term::Tuple(terms) | Term::List(terms) => left_behind_terms(left, terms),
    }
}

#[cycle(words)]
fn left_behind_terms(room: usize, terms: &TermList) -> Option<usize>
    ensures { MatchOption result (room < row_words (row_of terms.now)) (λ left. left + row_words (row_of terms.now) ≡ room) }
{
    let mut left = room;
    for term in terms.as_slice() {
        left = left_behind_term(left, term)?;
    }
    Some(left)
}

fn is_constant(term: &Term) -> bool
    ensures { IsTrue result ↔ IsConstant term.now }
{
    left_behind_term(MOST_WORDS, term).is_some() && has_leaves(term)
}

fn is_operand(operand: &Operand) -> bool
    ensures { IsTrue result ↔ IsOperand operand.now }
{
    match operand {
        Operand::Reg(register) => *register < REGISTERS,
        Operand::Const(term) => is_constant(term),
    }
}

fn is_function_name(to: &Mfa) -> bool
    ensures { IsTrue result ↔ IsFunctionName to.now }
{
    is_atom(to.module) && is_atom(to.name) && to.arity <= MOST_ARGUMENTS
}

fn is_call_place(at: u32, arity: u32) -> bool
    ensures { IsTrue result ↔ IsCallPlace at arity }
{
    at < REGISTERS && arity <= REGISTERS - at
}

fn is_local_call(functions: &[Function], function: u32, at: u32) -> bool
    ensures { IsTrue result ↔ IsSomeAnd (slice_get functions.now function) (λ f. IsCallPlace at f.arity) }
{
    match functions.get(function as usize) {
        Some(callee) => is_call_place(at, callee.arity),
        None => false,
    }
}

fn is_instr(functions: &[Function], len: usize, instr: &Instr) -> bool
    ensures { IsTrue result ↔ IsInstr functions.now len instr.now }
{
    match instr {
        Instr::Move { from, to } => is_operand(from) && *to < REGISTERS,
        Instr::Add { a, b, to } => is_operand(a) && is_operand(b) && *to < REGISTERS,
        Instr::Sub { a, b, to } => is_operand(a) && is_operand(b) && *to < REGISTERS,
        Instr::Eq { a, b, target } => is_operand(a) && is_operand(b) && *target as usize <= len,
        Instr::Less { a, b, target } => is_operand(a) && is_operand(b) && *target as usize <= len,
        Instr::Jump { target } => *target as usize <= len,
        Instr::Call { function, at } => is_local_call(functions, *function, *at),
        Instr::CallExt { to, at } => is_function_name(to) && is_call_place(*at, to.arity),
        Instr::Ret { value } => is_operand(value),
        Instr::Pget { key, to } => is_atom(*key) && *to < REGISTERS,
        Instr::PgetOr { key, other, to } => {
            is_atom(*key) && is_operand(other) && *to < REGISTERS
        }
        Instr::Elem { index, from, to } => {
            is_operand(index) && is_operand(from) && *to < REGISTERS
        }
        Instr::Print { value } => is_operand(value),
        Instr::Yield => true,
    }
}

fn is_code(functions: &[Function], code: &[Instr]) -> bool
    ensures { IsTrue result ↔ All (IsInstr functions.now (length code.now)) code.now }
{
    code.iter()
        .all(|instr| is_instr(functions, code.len(), instr))
}

fn is_function(functions: &[Function], function: &Function) -> bool
    ensures { IsTrue result ↔ IsFunction functions.now function.now }
{
    is_atom(function.name)
        && function.arity <= MOST_ARGUMENTS
        && is_code(functions, function.code.as_slice())
}

fn are_functions(functions: &[Function]) -> bool
    ensures { IsTrue result ↔ All (IsFunction functions.now) functions.now }
{
    functions
        .iter()
        .all(|function| is_function(functions, function))
}

/// Whether the functions agree in name and arity.
fn are_one(first: &Function, second: &Function) -> bool
    ensures { IsTrue result ↔ ((first.now.name ≡ second.now.name) × (first.now.arity ≡ second.now.arity)) }
{
    first.name == second.name && first.arity == second.arity
}

/// Whether no function before this one has its name and arity.
fn is_new(functions: &[Function], number: usize) -> bool
    requires { number < length functions.now }
    ensures { IsTrue result ↔ ((earlier : ℕ) → earlier < number → SameFunction functions.now earlier number → ⊥) }
{
    let function = &functions[number];
    for other in &functions[..number] {
        if are_one(other, function) {
            return false;
        }
    }
    true
}

/// Whether no two functions agree in name and arity. Each is compared with those before it.
fn are_apart(functions: &[Function]) -> bool
    ensures { IsTrue result ↔ ((i j : ℕ) → i < j → SameFunction functions.now i j → ⊥) }
{
    for number in 0..functions.len() {
        if !is_new(functions, number) {
            return false;
        }
    }
    true
}

/// How many of so many words are left behind the image of an operand's complex constant, if there are enough.
fn left_behind_operand(room: usize, operand: &Operand) -> Option<usize>
    ensures { MatchOption result (room < constants_len (operand_constants operand.now)) (λ left. left + constants_len (operand_constants operand.now) ≡ room) }
{
    match operand {
        Operand::Const(term) if !term.is_immediate() => left_behind_term(room, term),
        _ => Some(room),
    }
}

/// How many of so many words are left behind the images of an instruction's constants, if there are enough.
pub(crate) fn left_behind_constants(room: usize, instr: &Instr) -> Option<usize>
    ensures { MatchOption result (room < constants_len (instr_constants instr.now)) (λ left. left + constants_len (instr_constants instr.now) ≡ room) }
{
    match instr {
        Instr::Move { from: value, .. }
        | Instr::Ret { value }
        | Instr::PgetOr { other: value, .. }
        | Instr::Print { value } => left_behind_operand(room, value),
        Instr::Add { a, b, .. }
        | Instr::Sub { a, b, .. }
        | Instr::Eq { a, b, .. }
        | Instr::Less { a, b, .. }
        | Instr::Elem {
            index: a,
            from: b,
            ..
        } => left_behind_operand(left_behind_operand(room, a)?, b),
        Instr::Jump { .. }
        | Instr::Call { .. }
        | Instr::CallExt { .. }
        | Instr::Pget { .. }
        | Instr::Yield => Some(room),
    }
}

/// How many of so many words are left behind an instruction and its constants, if there are enough.
fn left_behind_instr(room: usize, instr: &Instr) -> Option<usize>
    ensures { MatchOption result (room < instr_len instr.now + constants_len (instr_constants instr.now)) (λ left. left + (instr_len instr.now + constants_len (instr_constants instr.now)) ≡ room) }
{
    let left = room.checked_sub(instr_len(instr) as usize)?;
    left_behind_constants(left, instr)
}

/// How many of so many words are left behind code and its constants, if there are enough.
fn left_behind_code(room: usize, code: &[Instr]) -> Option<usize>
    ensures { MatchOption result (room < code_len code.now + constants_len (code_constants code.now)) (λ left. left + (code_len code.now + constants_len (code_constants code.now)) ≡ room) }
{
    let mut left = room;
    for instr in code {
        left = left_behind_instr(left, instr)?;
    }
    Some(left)
}

/// How many of so many words are left behind the function's, if there are enough.
fn left_behind(room: usize, function: &Function) -> Option<usize>
    ensures { MatchOption result (room < function_words_with function.now) (λ left. left + function_words_with function.now ≡ room) }
{
    let left = room.checked_sub(FUNCTION_WORDS)?;
    left_behind_code(left, function.code.as_slice())
}

/// Whether the image of a module with these functions has at most 1,024 words.
fn are_short(functions: &[Function]) -> bool
    ensures { IsTrue result ↔ (words_with functions.now ≤ LONGEST_IMAGE) }
{
    let mut left = LONGEST_IMAGE - HEAD_WORDS;
    for function in functions {
        match left_behind(left, function) {
            Some(rest) => left = rest,
            None => return false,
        }
    }
    true
}

/// Whether these are the functions of a module.
fn is_function_list(functions: &[Function]) -> bool
    ensures { IsTrue result ↔ AreFunctions functions.now }
{
    // No more than these are compared with one another.
    if functions.len() > MOST_FUNCTIONS {
        return false;
    }
    are_functions(functions) && are_apart(functions) && are_short(functions)
}

fn has_title(module: &Module) -> bool
    ensures { IsTrue result ↔ HasTitle «module».now }
{
    is_atom(module.name) && module.version >= 1 && module.version <= GREATEST_VERSION
}

/// Whether this is the module of some text. It takes no memory.
pub fn validate(module: &Module) -> bool
    ensures { IsTrue result ↔ IsModule «module».now }
{
    has_title(module) && is_function_list(module.functions.as_slice())
}
