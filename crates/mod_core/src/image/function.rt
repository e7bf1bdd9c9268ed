//! The words of functions: their instructions, one behind the other.

ghost use Rattle.std.specs.Prelude.{◌≡◌, ◌+◌, ◌≤◌, IfOk, OnOk, All, length, map, slice_index};
ghost use Rattle.std.specs.List.{range_with_len};
ghost use Rattle.mod_core.specs.Draft.{Wrote, next_place};
ghost use Rattle.mod_core.specs.Module.{IsFunction, IsInstrAmong};
ghost use Rattle.mod_core.specs.ModuleImage.{code_constants, code_len, code_words, constants_len, constants_of, function_len, function_words, functions_words, instr_constants, instr_words, place_from, place_in, placed};

use crate::code::{Function, Instr, LONGEST_IMAGE};
use crate::image::operand::{name_word, push_pair, push_single, push_words, register_word};
use crate::image::{Draft, instr_len};
use crate::layout::{
    ADD, CALL, CALL_EXT, ELEM, EQ, JUMP, LESS, MOVE, PGET, PGET_OR, PRINT, RET, SUB, YIELD,
};
use std::alloc::Global;
use term_core::{AtomId, NoMemory, Term, WordList};

/// The code of the functions in order, and the images of its constants.
pub fn push_functions(
    alloc: Global,
    functions: &[Function],
    draft: &mut Draft,
) -> Result<(), NoMemory>
    requires are_functions { All (IsFunction functions.now) functions.now }
    requires room { place_from (length draft.old.words) functions.now (length functions.now) ≤ LONGEST_IMAGE }
    requires constants { next_place draft.old + constants_len (constants_of functions.now) ≤ LONGEST_IMAGE }
    ensures { OnOk result (Wrote draft.old draft.new (functions_words (length draft.old.words) (next_place draft.old) functions.now) (constants_of functions.now)) }
{
    for function in functions {
        push_function(alloc, function, draft)?;
    }
    Ok(())
}

/// The code of a function, with the return at its end, and the images of its constants.
fn push_function(alloc: Global, function: &Function, draft: &mut Draft) -> Result<(), NoMemory>
    requires are_placed { All (IsInstrAmong (length function.now.code + 1)) function.now.code }
    requires room { length draft.old.words + function_len function.now ≤ LONGEST_IMAGE }
    requires constants { next_place draft.old + constants_len (code_constants function.now.code) ≤ LONGEST_IMAGE }
    ensures { OnOk result (Wrote draft.old draft.new (function_words (length draft.old.words) (next_place draft.old) function.now) (code_constants function.now.code)) }
{
    let code = function.code.as_slice();
    let places = places_from(alloc, draft.words.len() as u64, code)?;
    push_code(alloc, code, places.as_slice(), draft)?;
    draft.words.push(RET)?;
    draft.words.push(Term::Atom(AtomId::OK).word())
}

/// The place of each instruction of code that begins at a place, and of the end.
fn places_from(alloc: Global, start: u64, code: &[Instr]) -> Result<WordList, NoMemory>
    requires { start + code_len code.now ≤ LONGEST_IMAGE }
    ensures { IfOk result (λ places. places ≡ map (place_in start code.now) (range_with_len 0 (length code.now + 1))) }
{
    let mut places = WordList::new(alloc);
    let mut place = start;
    for instr in code {
        places.push(place)?;
        place += instr_len(instr);
    }
    places.push(place)?;
    Ok(places)
}

/// The words of instructions, whose targets stand at these places, and the images of their constants.
fn push_code(
    alloc: Global,
    code: &[Instr],
    places: &[u64],
    draft: &mut Draft,
) -> Result<(), NoMemory>
    requires are_placed { All (IsInstrAmong (length places.now)) code.now }
    requires constants { next_place draft.old + constants_len (code_constants code.now) ≤ LONGEST_IMAGE }
    ensures { OnOk result (Wrote draft.old draft.new (code_words (next_place draft.old) (map (placed (slice_index places.now)) code.now)) (code_constants code.now)) }
{
    for instr in code {
        push_instr(alloc, instr, places, draft)?;
    }
    Ok(())
}

/// The words of an instruction, whose target stands at one of these places, and the images of its constants.
fn push_instr(
    alloc: Global,
    instr: &Instr,
    places: &[u64],
    draft: &mut Draft,
) -> Result<(), NoMemory>
    requires is_placed { IsInstrAmong (length places.now) instr.now }
    requires constants { next_place draft.old + constants_len (instr_constants instr.now) ≤ LONGEST_IMAGE }
    ensures { OnOk result (Wrote draft.old draft.new (instr_words (next_place draft.old) (placed (slice_index places.now) instr.now)) (instr_constants instr.now)) }
{
    match instr {
        Instr::Move { from, to } => {
            push_single(alloc, &[MOVE], from, &[register_word(*to)], draft)
        }
        Instr::Add { a, b, to } => push_pair(alloc, ADD, a, b, register_word(*to), draft),
        Instr::Sub { a, b, to } => push_pair(alloc, SUB, a, b, register_word(*to), draft),
        Instr::Eq { a, b, target } => {
            push_pair(alloc, EQ, a, b, places[*target as usize], draft)
        }
        Instr::Less { a, b, target } => {
            push_pair(alloc, LESS, a, b, places[*target as usize], draft)
        }
        Instr::Jump { target } => push_words(&[JUMP, places[*target as usize]], draft),
        Instr::Call { function, at } => {
            push_words(&[CALL, u64::from(*function), register_word(*at)], draft)
        }
        Instr::CallExt { to, at } => {
            push_words(&[CALL_EXT, name_word(*to), register_word(*at)], draft)
        }
        Instr::Ret { value } => push_single(alloc, &[RET], value, &[], draft),
        Instr::Pget { key, to } => {
            push_words(&[PGET, Term::Atom(*key).word(), register_word(*to)], draft)
        }
        Instr::PgetOr { key, other, to } => push_single(
            alloc,
            &[PGET_OR, Term::Atom(*key).word()],
            other,
            &[register_word(*to)],
            draft,
        ),
        Instr::Elem { index, from, to } => {
            push_pair(alloc, ELEM, index, from, register_word(*to), draft)
        }
        Instr::Print { value } => push_single(alloc, &[PRINT], value, &[], draft),
        Instr::Yield => push_words(&[YIELD], draft),
    }
}
