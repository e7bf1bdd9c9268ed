//! Reading an instruction, its target still a place, from the words of an image.

ghost use Rattle.std.specs.Prelude.{◌≤◌, IsTrue, length, slice_index};
ghost use Rattle.term_core.specs.Gives.{GivesUnless};
ghost use Rattle.term_core.specs.Image.{IsImageAt};
ghost use Rattle.term_core.specs.Plain.{term_of};
ghost use Rattle.term_core.specs.PlainTerm.{PlainTerm};
ghost use Rattle.mod_core.specs.declared.code.TheConstants.{LONGEST_IMAGE};
ghost use Rattle.mod_core.specs.declared.code.Operand.{Operand};
ghost use Rattle.mod_core.specs.Decoding.{AreOperandsAt, IsWordOf, has_both, has_operand, instr_decoded};

use crate::code::{Instr, LONGEST_IMAGE, Operand};
use crate::layout::{
    ADD, CALL, CALL_EXT, CONSTANT_TAG, ELEM, EQ, JUMP, LESS, MOVE, PGET, PGET_OR, PRINT,
    REGISTER_TAG, RET, SUB, TAG_COUNT, YIELD,
};
use crate::words::{atom_from, name_from, number_from, word_at};
use std::alloc::Global;
use term_core::{ImageFault, Term, read_image};

/// The complex constant whose image stands at a place.
fn read_constant(alloc: Global, words: &[u64], place: u64) -> Result<Term, ImageFault>
    ensures { (t : PlainTerm) → IsImageAt words.now place t → GivesUnless ImageFault.NoMemory result (term_of t) }
{
    let at = place as usize;
    if at > words.len() {
        return Err(ImageFault::Bad);
    }
    read_image(alloc, words, at)
}

/// The operand that a word stands for.
fn read_operand(alloc: Global, words: &[u64], word: u64) -> Result<Operand, ImageFault>
    ensures { (operand : Operand) → IsWordOf words.now word operand → GivesUnless ImageFault.NoMemory result operand }
{
    match word % TAG_COUNT {
        REGISTER_TAG => Ok(Operand::Reg(number_from(word / TAG_COUNT))),
        CONSTANT_TAG => {
            let term = read_constant(alloc, words, word / TAG_COUNT)?;
            Ok(Operand::Const(term))
        }
        _ => Ok(Operand::Const(Term::of_word(word))),
    }
}

/// The instruction that begins at a place.
pub(crate) fn read_instr(alloc: Global, words: &[u64], at: usize) -> Result<Instr, ImageFault>
    requires short { length words.now ≤ LONGEST_IMAGE }
    requires within { at ≤ length words.now }
    ensures { (a b : Operand) → AreOperandsAt words.now at a b → GivesUnless ImageFault.NoMemory result (instr_decoded words.now at a b) }
{
    let first = word_at(words, at + 1);
    let second = word_at(words, at + 2);
    match word_at(words, at) {
        JUMP => Ok(Instr::Jump {
            target: number_from(first),
        }),
        CALL => Ok(Instr::Call {
            function: number_from(first),
            at: number_from(second / TAG_COUNT),
        }),
        CALL_EXT => Ok(Instr::CallExt {
            to: name_from(first),
            at: number_from(second / TAG_COUNT),
        }),
        PGET => Ok(Instr::Pget {
            key: atom_from(first),
            to: number_from(second / TAG_COUNT),
        }),
        YIELD => Ok(Instr::Yield),
        _ => read_single(alloc, words, at),
    }
}

/// The same of an instruction with one operand or two.
fn read_single(alloc: Global, words: &[u64], at: usize) -> Result<Instr, ImageFault>
    requires short { length words.now ≤ LONGEST_IMAGE }
    requires within { at ≤ length words.now }
    ensures { (a b : Operand) → AreOperandsAt words.now at a b → IsTrue (has_operand (slice_index words.now at)) → GivesUnless ImageFault.NoMemory result (instr_decoded words.now at a b) }
{
    let first = word_at(words, at + 1);
    let second = word_at(words, at + 2);
    match word_at(words, at) {
        MOVE => Ok(Instr::Move {
            from: read_operand(alloc, words, first)?,
            to: number_from(second / TAG_COUNT),
        }),
        RET => Ok(Instr::Ret {
            value: read_operand(alloc, words, first)?,
        }),
        PRINT => Ok(Instr::Print {
            value: read_operand(alloc, words, first)?,
        }),
        PGET_OR => Ok(Instr::PgetOr {
            key: atom_from(first),
            other: read_operand(alloc, words, second)?,
            to: number_from(word_at(words, at + 3) / TAG_COUNT),
        }),
        _ => read_double(alloc, words, at),
    }
}

/// The same of an instruction with two operands.
fn read_double(alloc: Global, words: &[u64], at: usize) -> Result<Instr, ImageFault>
    requires short { length words.now ≤ LONGEST_IMAGE }
    requires within { at ≤ length words.now }
    ensures { (a b : Operand) → AreOperandsAt words.now at a b → IsTrue (has_both (slice_index words.now at)) → GivesUnless ImageFault.NoMemory result (instr_decoded words.now at a b) }
{
    let a = read_operand(alloc, words, word_at(words, at + 1))?;
    let b = read_operand(alloc, words, word_at(words, at + 2))?;
    let third = word_at(words, at + 3);
    match word_at(words, at) {
        ADD => Ok(Instr::Add {
            a,
            b,
            to: number_from(third / TAG_COUNT),
        }),
        SUB => Ok(Instr::Sub {
            a,
            b,
            to: number_from(third / TAG_COUNT),
        }),
        EQ => Ok(Instr::Eq {
            a,
            b,
            target: number_from(third),
        }),
        LESS => Ok(Instr::Less {
            a,
            b,
            target: number_from(third),
        }),
        ELEM => Ok(Instr::Elem {
            index: a,
            from: b,
            to: number_from(third / TAG_COUNT),
        }),
        _ => Err(ImageFault::Bad),
    }
}
