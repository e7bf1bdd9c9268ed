//! The words of operands, and the images of constants.

ghost use Rattle.std.specs.Prelude.{◌≡◌, ◌+◌, ◌≤◌, ◌++◌, [], ◌∷◌, IfOk, OnOk};
ghost use Rattle.mod_core.specs.declared.code.Operand.TheVariants.{Const};
ghost use Rattle.mod_core.specs.Draft.{Wrote, next_place};
ghost use Rattle.mod_core.specs.Module.{IsConstant, IsOperand};
ghost use Rattle.mod_core.specs.ModuleImage.{constants_len, name_word, operand_constants, operand_word, operands_words, register_word};

use crate::code::{LONGEST_IMAGE, Operand};
use crate::image::Draft;
use crate::layout::{ARITY_ROOM, ATOM_ROOM, CONSTANT_TAG, REGISTER_TAG, TAG_COUNT};
use std::alloc::Global;
use term_core::{Mfa, NoMemory, Term, image};

/// The words of an instruction that has no constant.
pub fn push_words(words: &[u64], draft: &mut Draft) -> Result<(), NoMemory>
    ensures { OnOk result (Wrote draft.old draft.new words.now []) }
{
    draft.words.extend_from_slice(words)
}

/// The words of an instruction with one operand: those before it, its word, and those behind it.
pub fn push_single(
    alloc: Global,
    front: &[u64],
    value: &Operand,
    behind: &[u64],
    draft: &mut Draft,
) -> Result<(), NoMemory>
    requires is_operand { IsOperand value.now }
    requires constants { next_place draft.old + constants_len (operand_constants value.now) ≤ LONGEST_IMAGE }
    ensures { OnOk result (Wrote draft.old draft.new (front.now ++ operand_word (next_place draft.old) value.now ∷ behind.now) (operand_constants value.now)) }
{
    let word = place_operand(alloc, value, draft)?;
    draft.words.extend_from_slice(front)?;
    draft.words.push(word)?;
    draft.words.extend_from_slice(behind)
}

/// The words of an instruction with two operands, and a last word.
pub fn push_pair(
    alloc: Global,
    number: u64,
    a: &Operand,
    b: &Operand,
    last: u64,
    draft: &mut Draft,
) -> Result<(), NoMemory>
    requires first { IsOperand a.now }
    requires second { IsOperand b.now }
    requires constants { next_place draft.old + constants_len (operand_constants a.now ++ operand_constants b.now) ≤ LONGEST_IMAGE }
    ensures { OnOk result (Wrote draft.old draft.new (number ∷ (operands_words (next_place draft.old) a.now b.now ++ last ∷ [])) (operand_constants a.now ++ operand_constants b.now)) }
{
    let first = place_operand(alloc, a, draft)?;
    let second = place_operand(alloc, b, draft)?;
    draft
        .words
        .extend_from_slice(&[number, first, second, last])
}

/// The word of an operand. The image of a complex constant goes behind those before it.
fn place_operand(alloc: Global, operand: &Operand, draft: &mut Draft) -> Result<u64, NoMemory>
    requires is_operand { IsOperand operand.now }
    requires constants { next_place draft.old + constants_len (operand_constants operand.now) ≤ LONGEST_IMAGE }
    ensures word { IfOk result (λ word. word ≡ operand_word (next_place draft.old) operand.now) }
    ensures placed { OnOk result (Wrote draft.old draft.new [] (operand_constants operand.now)) }
{
    match operand {
        Operand::Reg(register) => Ok(register_word(*register)),
        Operand::Const(term) => place_constant(alloc, term, draft),
    }
}

/// The word of a constant. The image of a complex one goes behind those before it.
fn place_constant(alloc: Global, term: &Term, draft: &mut Draft) -> Result<u64, NoMemory>
    requires is_constant { IsConstant term.now }
    requires constants { next_place draft.old + constants_len (operand_constants (Const term.now)) ≤ LONGEST_IMAGE }
    ensures word { IfOk result (λ word. word ≡ operand_word (next_place draft.old) (Const term.now)) }
    ensures placed { OnOk result (Wrote draft.old draft.new [] (operand_constants (Const term.now))) }
{
    if term.is_immediate() {
        return Ok(term.word());
    }
    let place = draft.constants_start + draft.constants.len() as u64;
    let words = image(alloc, term)?;
    draft.constants.extend_from_slice(words.as_slice())?;
    Ok(place * TAG_COUNT + CONSTANT_TAG)
}

/// The word of a register: its number over the tag 6.
pub fn register_word(register: u32) -> u64
    ensures { result ≡ register_word register }
{
    u64::from(register) * TAG_COUNT + REGISTER_TAG
}

/// The word of an external function's name: the numbers of its atoms over its arity.
pub fn name_word(to: Mfa) -> u64
    ensures { result ≡ name_word to }
{
    (u64::from(to.module.0) * ATOM_ROOM + u64::from(to.name.0)) * ARITY_ROOM + u64::from(to.arity)
}
