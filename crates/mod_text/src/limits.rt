//! What a line may be, alone and behind another.

ghost use Rattle.std.specs.Prelude.{◌≡◌, ◌≤◌, not, false, All, IsTrue, option_map, nat_le};
ghost use Rattle.term_core.specs.Written.{is_integer_text, is_term_integer, integer_of};
ghost use Rattle.mod_text.specs.LineViews.{operand_form, integer_form, complex_form, instr_form, line_form, text_form, forms_of};
ghost use Rattle.term_core.specs.Text.Numbers.{is_number_text};
ghost use Rattle.mod_text.specs.ModuleLine.{is_operand_form, is_instr_form, is_line_form};
ghost use Rattle.mod_text.specs.LineFaults.{is_open, is_in_function, may_follow, is_high, has_high_operand, is_high_call, has_high_instr, has_high_register, is_wide_operand, has_wide_instr, has_wide_integer, is_long_operand, has_long_instr, has_long_term};
ghost use Rattle.mod_text.specs.Keeping.{IsKept, operand_form_words, instr_form_words, line_words, lines_words};

use crate::line::line_of;
use crate::written::{WrittenInstr, WrittenLine, WrittenOperand};
use mod_core::{LONGEST_IMAGE, REGISTERS};
use term_core::{
    GREATEST_INTEGER, LEAST_INTEGER, MOST_WORDS, is_wide_text, parsed_integer, small_number,
    text_words,
};

/// How many words of an image stand before the functions.
const HEAD_WORDS: usize = 4;

fn is_open(before: Option<&WrittenLine<'_>>) -> bool
    ensures { result ≡ is_open (option_map (λ line. line_form line.now) before.entry) }
{
    !matches!(before, None | Some(WrittenLine::End))
}

fn is_in_function(before: Option<&WrittenLine<'_>>) -> bool
    ensures { result ≡ is_in_function (option_map (λ line. line_form line.now) before.entry) }
{
    !matches!(
        before,
        None | Some(WrittenLine::End | WrittenLine::Title { .. })
    )
}

/// Whether a line may stand behind this one, or in front where there is none.
pub fn may_follow(before: Option<&WrittenLine<'_>>, line: &WrittenLine<'_>) -> bool
    ensures { result ≡ may_follow (option_map (λ line. line_form line.now) before.entry) (line_form line.now) }
{
    match line {
        WrittenLine::Title { .. } => before.is_none(),
        WrittenLine::Header { .. } | WrittenLine::End => is_open(before),
        WrittenLine::Label { .. } | WrittenLine::Instr(_) => is_in_function(before),
    }
}

fn is_high(digits: &[u8]) -> bool
    requires { IsTrue (is_number_text digits.now) }
    ensures { result ≡ is_high digits.now }
{
    match small_number(digits) {
        Some(register) => register >= REGISTERS,
        None => true,
    }
}

#[tactic(auto, using(crate::proofs::WrittenTerms::low_integer, crate::proofs::WrittenTerms::low_complex))]
fn is_high_operand(operand: &WrittenOperand<'_>) -> bool
    requires { IsTrue (is_operand_form (operand_form operand.now)) }
    ensures { result ≡ has_high_operand (operand_form operand.now) }
{
    match operand {
        WrittenOperand::Register(digits) => is_high(digits),
        WrittenOperand::Integer(_) | WrittenOperand::Atom(_) | WrittenOperand::Complex(_) => false,
    }
}

fn is_high_call(arity: &[u8], at: &[u8]) -> bool
    requires arity { IsTrue (is_number_text arity.now) }
    requires at { IsTrue (is_number_text at.now) }
    ensures { result ≡ is_high_call arity.now at.now }
{
    match (small_number(arity), small_number(at)) {
        (Some(arity), Some(at)) => at >= REGISTERS || arity > REGISTERS - at,
        _ => true,
    }
}

#[tactic(auto, using(std::proofs::lemmas::Bool::and_parts))]
fn is_high_instr(instr: &WrittenInstr<'_>) -> bool
    requires { IsTrue (is_instr_form (instr_form instr.now)) }
    ensures { result ≡ has_high_instr (instr_form instr.now) }
{
    match instr {
        WrittenInstr::Move { from, to } => is_high_operand(from) || is_high(to),
        WrittenInstr::Add { a, b, to } => {
            is_high_operand(a) || is_high_operand(b) || is_high(to)
        }
        WrittenInstr::Sub { a, b, to } => {
            is_high_operand(a) || is_high_operand(b) || is_high(to)
        }
        WrittenInstr::Eq { a, b, .. } => is_high_operand(a) || is_high_operand(b),
        WrittenInstr::Less { a, b, .. } => is_high_operand(a) || is_high_operand(b),
        WrittenInstr::Jump { .. } => false,
        WrittenInstr::Call { arity, at, .. } => is_high_call(arity, at),
        WrittenInstr::CallExt { arity, at, .. } => is_high_call(arity, at),
        WrittenInstr::Ret { value } => is_high_operand(value),
        WrittenInstr::Pget { to, .. } => is_high(to),
        WrittenInstr::PgetOr { other, to, .. } => is_high_operand(other) || is_high(to),
        WrittenInstr::Elem { index, from, to } => {
            is_high_operand(index) || is_high_operand(from) || is_high(to)
        }
        WrittenInstr::Print { value } => is_high_operand(value),
        WrittenInstr::Yield => false,
    }
}

/// Whether a line has a register over 15, or is a call whose arguments pass register 15.
pub fn has_high_register(line: &WrittenLine<'_>) -> bool
    requires { IsTrue (is_line_form (line_form line.now)) }
    ensures { result ≡ has_high_register (line_form line.now) }
{
    match line {
        WrittenLine::Instr(instr) => is_high_instr(instr),
        _ => false,
    }
}

/// Whether an integer's text says one of more than 60 bits.
fn passes_bounds(text: &[u8]) -> bool
    requires { IsTrue (is_integer_text text.now) }
    ensures { result ≡ not (is_term_integer (integer_of text.now)) }
{
    match parsed_integer(text) {
        Some(number) => number < LEAST_INTEGER || number > GREATEST_INTEGER,
        None => true,
    }
}

#[tactic(auto, using(crate::proofs::WrittenTerms::integer_if, crate::proofs::WrittenTerms::wide_integer))]
fn is_wide_integer(text: &[u8]) -> bool
    requires { IsTrue (is_operand_form (integer_form text.now)) }
    ensures { result ≡ is_wide_operand (integer_form text.now) }
{
    passes_bounds(text)
}

#[tactic(auto, using(crate::proofs::WrittenTerms::wide_is))]
fn is_wide_term(text: &[u8]) -> bool
    requires { IsTrue (is_operand_form (complex_form text.now)) }
    ensures { result ≡ is_wide_operand (complex_form text.now) }
{
    is_wide_text(text)
}

fn is_wide_operand(operand: &WrittenOperand<'_>) -> bool
    requires { IsTrue (is_operand_form (operand_form operand.now)) }
    ensures { result ≡ is_wide_operand (operand_form operand.now) }
{
    match operand {
        WrittenOperand::Integer(text) => is_wide_integer(text),
        WrittenOperand::Complex(text) => is_wide_term(text),
        WrittenOperand::Register(_) | WrittenOperand::Atom(_) => false,
    }
}

#[tactic(auto, using(std::proofs::lemmas::Bool::and_parts))]
fn has_wide_instr(instr: &WrittenInstr<'_>) -> bool
    requires { IsTrue (is_instr_form (instr_form instr.now)) }
    ensures { result ≡ has_wide_instr (instr_form instr.now) }
{
    match instr {
        WrittenInstr::Move { from, .. } => is_wide_operand(from),
        WrittenInstr::Add { a, b, .. } => is_wide_operand(a) || is_wide_operand(b),
        WrittenInstr::Sub { a, b, .. } => is_wide_operand(a) || is_wide_operand(b),
        WrittenInstr::Eq { a, b, .. } => is_wide_operand(a) || is_wide_operand(b),
        WrittenInstr::Less { a, b, .. } => is_wide_operand(a) || is_wide_operand(b),
        WrittenInstr::Ret { value } => is_wide_operand(value),
        WrittenInstr::PgetOr { other, .. } => is_wide_operand(other),
        WrittenInstr::Elem { index, from, .. } => is_wide_operand(index) || is_wide_operand(from),
        WrittenInstr::Print { value } => is_wide_operand(value),
        WrittenInstr::Jump { .. }
        | WrittenInstr::Call { .. }
        | WrittenInstr::CallExt { .. }
        | WrittenInstr::Pget { .. }
        | WrittenInstr::Yield => false,
    }
}

/// Whether a line has an integer of more than 60 bits.
pub fn has_wide_integer(line: &WrittenLine<'_>) -> bool
    requires { IsTrue (is_line_form (line_form line.now)) }
    ensures { result ≡ has_wide_integer (line_form line.now) }
{
    match line {
        WrittenLine::Instr(instr) => has_wide_instr(instr),
        _ => false,
    }
}

/// Whether a tuple or a list has more than 64 words.
#[tactic(auto, using(crate::proofs::WrittenTerms::long_is))]
fn is_long_term(text: &[u8]) -> bool
    requires { IsTrue (is_operand_form (complex_form text.now)) }
    ensures { result ≡ is_long_operand (complex_form text.now) }
{
    text_words(text) > MOST_WORDS
}

#[tactic(auto, using(crate::proofs::WrittenTerms::short_integer))]
fn is_long_operand(operand: &WrittenOperand<'_>) -> bool
    requires { IsTrue (is_operand_form (operand_form operand.now)) }
    ensures { result ≡ is_long_operand (operand_form operand.now) }
{
    match operand {
        WrittenOperand::Complex(text) => is_long_term(text),
        WrittenOperand::Register(_) | WrittenOperand::Integer(_) | WrittenOperand::Atom(_) => false,
    }
}

#[tactic(auto, using(std::proofs::lemmas::Bool::and_parts))]
fn has_long_instr(instr: &WrittenInstr<'_>) -> bool
    requires { IsTrue (is_instr_form (instr_form instr.now)) }
    ensures { result ≡ has_long_instr (instr_form instr.now) }
{
    match instr {
        WrittenInstr::Move { from, .. } => is_long_operand(from),
        WrittenInstr::Add { a, b, .. } => is_long_operand(a) || is_long_operand(b),
        WrittenInstr::Sub { a, b, .. } => is_long_operand(a) || is_long_operand(b),
        WrittenInstr::Eq { a, b, .. } => is_long_operand(a) || is_long_operand(b),
        WrittenInstr::Less { a, b, .. } => is_long_operand(a) || is_long_operand(b),
        WrittenInstr::Ret { value } => is_long_operand(value),
        WrittenInstr::PgetOr { other, .. } => is_long_operand(other),
        WrittenInstr::Elem { index, from, .. } => is_long_operand(index) || is_long_operand(from),
        WrittenInstr::Print { value } => is_long_operand(value),
        WrittenInstr::Jump { .. }
        | WrittenInstr::Call { .. }
        | WrittenInstr::CallExt { .. }
        | WrittenInstr::Pget { .. }
        | WrittenInstr::Yield => false,
    }
}

/// Whether a line has a term of more than 64 words.
pub fn has_long_term(line: &WrittenLine<'_>) -> bool
    requires { IsTrue (is_line_form (line_form line.now)) }
    ensures { result ≡ has_long_term (line_form line.now) }
{
    match line {
        WrittenLine::Instr(instr) => has_long_instr(instr),
        _ => false,
    }
}

#[tactic(auto, using(crate::proofs::WrittenTerms::words_are, crate::proofs::WrittenTerms::long_is))]
fn words_of_term(text: &[u8]) -> usize
    requires sound { IsTrue (is_operand_form (complex_form text.now)) }
    requires short { is_long_operand (complex_form text.now) ≡ false }
    ensures value { result ≡ operand_form_words (complex_form text.now) }
    ensures small { result ≤ MOST_WORDS }
{
    text_words(text)
}

#[tactic(auto, using(crate::proofs::WrittenTerms::integer_words))]
fn operand_words(operand: &WrittenOperand<'_>) -> usize
    requires sound { IsTrue (is_operand_form (operand_form operand.now)) }
    requires short { is_long_operand (operand_form operand.now) ≡ false }
    ensures value { result ≡ operand_form_words (operand_form operand.now) }
    ensures small { result ≤ MOST_WORDS }
{
    match operand {
        WrittenOperand::Complex(text) => words_of_term(text),
        WrittenOperand::Register(_) | WrittenOperand::Integer(_) | WrittenOperand::Atom(_) => 0,
    }
}

/// How many words of an image are those of an instruction: its own, and those of its tuples and lists behind the code.
#[tactic(auto, using(std::proofs::lemmas::Bool::and_parts, std::proofs::lemmas::Bool::or_parts))]
fn instr_words(instr: &WrittenInstr<'_>) -> usize
    requires sound { IsTrue (is_instr_form (instr_form instr.now)) }
    requires short { has_long_instr (instr_form instr.now) ≡ false }
    ensures { result ≡ instr_form_words (instr_form instr.now) }
{
    match instr {
        WrittenInstr::Yield => 1,
        WrittenInstr::Jump { .. } => 2,
        WrittenInstr::Ret { value } | WrittenInstr::Print { value } => 2 + operand_words(value),
        WrittenInstr::Call { .. } | WrittenInstr::CallExt { .. } | WrittenInstr::Pget { .. } => 3,
        WrittenInstr::Move { from, .. } => 3 + operand_words(from),
        WrittenInstr::PgetOr { other, .. } => 4 + operand_words(other),
        WrittenInstr::Add { a, b, .. }
        | WrittenInstr::Sub { a, b, .. }
        | WrittenInstr::Eq { a, b, .. }
        | WrittenInstr::Less { a, b, .. }
        | WrittenInstr::Elem {
            index: a,
            from: b,
            ..
        } => 4 + (operand_words(a) + operand_words(b)),
    }
}

/// How many words of an image are those of a line: a function has four of its own, and two of the return at its end.
fn line_words(line: &[u8]) -> usize
    requires { IsKept (text_form line.now) }
    ensures { result ≡ line_words (text_form line.now) }
{
    match line_of(line) {
        WrittenLine::Header { .. } => 6,
        WrittenLine::Instr(instr) => instr_words(&instr),
        WrittenLine::Title { .. } | WrittenLine::Label { .. } | WrittenLine::End => 0,
    }
}

/// Whether the image of the module that lines say has at most 1,024 words.
pub fn is_short(lines: &[&[u8]]) -> bool
    requires { All IsKept (forms_of lines.now) }
    ensures { result ≡ nat_le (lines_words (forms_of lines.now)) LONGEST_IMAGE }
{
    let mut left = LONGEST_IMAGE - HEAD_WORDS;
    for line in lines {
        let len = line_words(line);
        if len > left {
            return false;
        }
        left -= len;
    }
    true
}
