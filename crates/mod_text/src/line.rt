//! One line: its words, from left to right.

ghost use Rattle.std.specs.Prelude.{◌≡◌, ◌&&◌, true, option_map, IfOk, IfSome, IsTrue};
ghost use Rattle.mod_text.specs.LineViews.{operand_form, instr_form, line_form, text_form};
ghost use Rattle.term_core.specs.Text.Numbers.{is_number_text as is_number};
ghost use Rattle.mod_text.specs.ModuleLine.{is_version_text as is_version, is_arity_text as is_arity, is_line_form};
ghost use Rattle.term_core.specs.Text.Steps.{text_tested, numbered_reading};
ghost use Rattle.mod_text.specs.LineReading.{register_reading, constant_reading, operand_reading, sum_reading, branch_reading, move_reading, call_reading, call_ext_reading, add_reading, sub_reading, eq_reading, less_reading, jump_reading, ret_reading, pget_reading, pget_or_reading, elem_reading, print_reading, instr_reading, label_reading, title_reading, header_reading, instr_line_reading, lone_reading, keyed_reading, line_split, line_reading, is_sound_operand, has_sound_operands, has_sound_terms};
ghost use Rattle.term_core.specs.Names.{is_atom_text as is_atom};
ghost use Rattle.term_core.specs.TermForms.{is_bracketed};

use crate::words::{arity_of, version_of};
use crate::written::{WrittenInstr, WrittenLine, WrittenOperand};
use std::alloc::Global;
use term_core::{NoMemory, cut_at, is_atom_text, is_integer_text, is_number_text, is_term_text};

fn read_number(text: &[u8]) -> Option<&[u8]>
    ensures { option_map (λ digits. digits.now) result ≡ text_tested is_number text.now }
{
    if is_number_text(text) {
        Some(text)
    } else {
        None
    }
}

fn read_atom(text: &[u8]) -> Option<&[u8]>
    ensures { option_map (λ name. name.now) result ≡ text_tested is_atom text.now }
{
    if is_atom_text(text) { Some(text) } else { None }
}

fn read_register(text: &[u8]) -> Option<&[u8]>
    ensures { option_map (λ digits. digits.now) result ≡ register_reading text.now }
{
    match text {
        [b'$', digits @ ..] => read_number(digits),
        _ => None,
    }
}

fn is_bracketed(text: &[u8]) -> bool
    ensures { result ≡ is_bracketed text.now }
{
    matches!(text.first(), Some(b'{' | b'['))
}

#[tactic(auto, using(crate::proofs::WrittenTerms::integer_is, crate::proofs::WrittenTerms::complex_is))]
fn read_constant(text: &[u8]) -> Option<WrittenOperand<'_>>
    ensures { option_map operand_form result ≡ constant_reading text.now }
{
    if is_atom_text(text) {
        Some(WrittenOperand::Atom(text))
    } else if is_integer_text(text) {
        Some(WrittenOperand::Integer(text))
    } else if is_bracketed(text) {
        Some(WrittenOperand::Complex(text))
    } else {
        None
    }
}

fn read_operand(text: &[u8]) -> Option<WrittenOperand<'_>>
    ensures { option_map operand_form result ≡ operand_reading text.now }
{
    match text {
        [] => None,
        [b'$', digits @ ..] => {
            let digits = read_number(digits)?;
            Some(WrittenOperand::Register(digits))
        }
        _ => read_constant(text),
    }
}

/// A function's name and arity, as `main/0`.
fn read_function(text: &[u8]) -> Option<(&[u8], &[u8])>
    ensures { option_map (λ p. (p.0.now, p.1.now)) result ≡ numbered_reading 47 is_arity text.now }
{
    let (name, arity) = cut_at(text, b'/')?;
    let name = read_atom(name)?;
    let _number = arity_of(arity)?;
    Some((name, arity))
}

/// A module's name and version, as `m.1`.
fn read_title(text: &[u8]) -> Option<(&[u8], &[u8])>
    ensures { option_map (λ p. (p.0.now, p.1.now)) result ≡ numbered_reading 46 is_version text.now }
{
    let (name, version) = cut_at(text, b'.')?;
    let name = read_atom(name)?;
    let _number = version_of(version)?;
    Some((name, version))
}

/// Two operands and a register.
fn read_sum(words: &[u8]) -> Option<(WrittenOperand<'_>, WrittenOperand<'_>, &[u8])>
    ensures { option_map (λ p. (operand_form p.0, (operand_form p.1, p.2.now))) result ≡ sum_reading words.now }
{
    let (a, rest) = cut_at(words, b' ')?;
    let a = read_operand(a)?;
    let (b, to) = cut_at(rest, b' ')?;
    let b = read_operand(b)?;
    let to = read_register(to)?;
    Some((a, b, to))
}

/// Two operands and a label.
fn read_branch(words: &[u8]) -> Option<(WrittenOperand<'_>, WrittenOperand<'_>, &[u8])>
    ensures { option_map (λ p. (operand_form p.0, (operand_form p.1, p.2.now))) result ≡ branch_reading words.now }
{
    let (a, rest) = cut_at(words, b' ')?;
    let a = read_operand(a)?;
    let (b, target) = cut_at(rest, b' ')?;
    let b = read_operand(b)?;
    let target = read_atom(target)?;
    Some((a, b, target))
}

fn read_move(words: &[u8]) -> Option<WrittenInstr<'_>>
    ensures { option_map instr_form result ≡ move_reading words.now }
{
    let (from, to) = cut_at(words, b' ')?;
    let from = read_operand(from)?;
    let to = read_register(to)?;
    Some(WrittenInstr::Move { from, to })
}

fn read_call(words: &[u8]) -> Option<WrittenInstr<'_>>
    ensures { option_map instr_form result ≡ call_reading words.now }
{
    let (function, at) = cut_at(words, b' ')?;
    let (name, arity) = read_function(function)?;
    let at = read_register(at)?;
    Some(WrittenInstr::Call { name, arity, at })
}

fn read_call_ext(words: &[u8]) -> Option<WrittenInstr<'_>>
    ensures { option_map instr_form result ≡ call_ext_reading words.now }
{
    let (function, at) = cut_at(words, b' ')?;
    let (module, function) = cut_at(function, b':')?;
    let module = read_atom(module)?;
    let (name, arity) = read_function(function)?;
    let at = read_register(at)?;
    Some(WrittenInstr::CallExt {
        module,
        name,
        arity,
        at,
    })
}

fn read_add(words: &[u8]) -> Option<WrittenInstr<'_>>
    ensures { option_map instr_form result ≡ add_reading words.now }
{
    let (a, b, to) = read_sum(words)?;
    Some(WrittenInstr::Add { a, b, to })
}

fn read_sub(words: &[u8]) -> Option<WrittenInstr<'_>>
    ensures { option_map instr_form result ≡ sub_reading words.now }
{
    let (a, b, to) = read_sum(words)?;
    Some(WrittenInstr::Sub { a, b, to })
}

fn read_eq(words: &[u8]) -> Option<WrittenInstr<'_>>
    ensures { option_map instr_form result ≡ eq_reading words.now }
{
    let (a, b, target) = read_branch(words)?;
    Some(WrittenInstr::Eq { a, b, target })
}

fn read_less(words: &[u8]) -> Option<WrittenInstr<'_>>
    ensures { option_map instr_form result ≡ less_reading words.now }
{
    let (a, b, target) = read_branch(words)?;
    Some(WrittenInstr::Less { a, b, target })
}

fn read_jump(words: &[u8]) -> Option<WrittenInstr<'_>>
    ensures { option_map instr_form result ≡ jump_reading words.now }
{
    let target = read_atom(words)?;
    Some(WrittenInstr::Jump { target })
}

fn read_ret(words: &[u8]) -> Option<WrittenInstr<'_>>
    ensures { option_map instr_form result ≡ ret_reading words.now }
{
    let value = read_operand(words)?;
    Some(WrittenInstr::Ret { value })
}

fn read_pget(words: &[u8]) -> Option<WrittenInstr<'_>>
    ensures { option_map instr_form result ≡ pget_reading words.now }
{
    let (key, to) = cut_at(words, b' ')?;
    let key = read_atom(key)?;
    let to = read_register(to)?;
    Some(WrittenInstr::Pget { key, to })
}

fn read_pget_or(words: &[u8]) -> Option<WrittenInstr<'_>>
    ensures { option_map instr_form result ≡ pget_or_reading words.now }
{
    let (key, rest) = cut_at(words, b' ')?;
    let key = read_atom(key)?;
    let (other, to) = cut_at(rest, b' ')?;
    let other = read_operand(other)?;
    let to = read_register(to)?;
    Some(WrittenInstr::PgetOr { key, other, to })
}

fn read_elem(words: &[u8]) -> Option<WrittenInstr<'_>>
    ensures { option_map instr_form result ≡ elem_reading words.now }
{
    let (index, from, to) = read_sum(words)?;
    Some(WrittenInstr::Elem { index, from, to })
}

fn read_print(words: &[u8]) -> Option<WrittenInstr<'_>>
    ensures { option_map instr_form result ≡ print_reading words.now }
{
    let value = read_operand(words)?;
    Some(WrittenInstr::Print { value })
}

/// The instruction of this word.
fn read_instr<'a>(word: &[u8], rest: &'a [u8]) -> Option<WrittenInstr<'a>>
    ensures { option_map instr_form result ≡ instr_reading word.now rest.now }
{
    if word == b"move".as_slice() {
        read_move(rest)
    } else if word == b"add".as_slice() {
        read_add(rest)
    } else if word == b"sub".as_slice() {
        read_sub(rest)
    } else if word == b"eq".as_slice() {
        read_eq(rest)
    } else if word == b"less".as_slice() {
        read_less(rest)
    } else if word == b"jump".as_slice() {
        read_jump(rest)
    } else if word == b"call".as_slice() {
        read_call(rest)
    } else if word == b"call_ext".as_slice() {
        read_call_ext(rest)
    } else if word == b"ret".as_slice() {
        read_ret(rest)
    } else if word == b"pget".as_slice() {
        read_pget(rest)
    } else if word == b"pget_or".as_slice() {
        read_pget_or(rest)
    } else if word == b"elem".as_slice() {
        read_elem(rest)
    } else if word == b"print".as_slice() {
        read_print(rest)
    } else {
        None
    }
}

fn read_label(rest: &[u8]) -> Option<WrittenLine<'_>>
    ensures { option_map line_form result ≡ label_reading rest.now }
{
    let name = read_atom(rest)?;
    Some(WrittenLine::Label { name })
}

fn read_module_line(rest: &[u8]) -> Option<WrittenLine<'_>>
    ensures { option_map line_form result ≡ title_reading rest.now }
{
    let (name, version) = read_title(rest)?;
    Some(WrittenLine::Title { name, version })
}

fn read_header(exported: bool, rest: &[u8]) -> Option<WrittenLine<'_>>
    ensures { option_map line_form result ≡ header_reading exported rest.now }
{
    let (name, arity) = read_function(rest)?;
    Some(WrittenLine::Header {
        exported,
        name,
        arity,
    })
}

fn read_instr_line<'a>(word: &[u8], rest: &'a [u8]) -> Option<WrittenLine<'a>>
    ensures { option_map line_form result ≡ instr_line_reading word.now rest.now }
{
    let instr = read_instr(word, rest)?;
    Some(WrittenLine::Instr(instr))
}

/// The line of this word, and of what stands behind it.
fn read_keyed<'a>(word: &[u8], rest: &'a [u8]) -> Option<WrittenLine<'a>>
    ensures { option_map line_form result ≡ keyed_reading word.now rest.now }
{
    if word == b"label".as_slice() {
        read_label(rest)
    } else if word == b"module".as_slice() {
        read_module_line(rest)
    } else if word == b"export".as_slice() {
        read_header(true, rest)
    } else if word == b"local".as_slice() {
        read_header(false, rest)
    } else {
        read_instr_line(word, rest)
    }
}

/// The line of one word.
fn read_lone(word: &[u8]) -> Option<WrittenLine<'_>>
    ensures { option_map line_form result ≡ lone_reading word.now }
{
    if word == b"yield".as_slice() {
        Some(WrittenLine::Instr(WrittenInstr::Yield))
    } else if word == b"end".as_slice() {
        Some(WrittenLine::End)
    } else {
        None
    }
}

fn cut_line(text: &[u8]) -> Option<WrittenLine<'_>>
    ensures { option_map line_form result ≡ line_split text.now }
{
    match cut_at(text, b' ') {
        None => read_lone(text),
        Some((word, rest)) => read_keyed(word, rest),
    }
}

/// The line with this text. Of a tuple or a list its first bracket alone was looked at. It takes no memory.
pub fn split_line(text: &[u8]) -> Option<WrittenLine<'_>>
    ensures split { option_map line_form result ≡ line_split text.now }
    ensures sound { IfSome result (λ line. has_sound_terms (line_form line) ≡ true → IsTrue (is_line_form (line_form line))) }
{
    cut_line(text)
}

#[tactic(auto, using(crate::proofs::WrittenTerms::sound_integer, crate::proofs::WrittenTerms::sound_complex))]
fn is_sound_operand(alloc: Global, operand: &WrittenOperand<'_>) -> Result<bool, NoMemory>
    ensures { IfOk result (λ sound. sound ≡ is_sound_operand (operand_form operand.now)) }
{
    match operand {
        WrittenOperand::Complex(text) => is_term_text(alloc, text),
        WrittenOperand::Register(_) | WrittenOperand::Integer(_) | WrittenOperand::Atom(_) => {
            Ok(true)
        }
    }
}

fn are_sound_operands(
    alloc: Global,
    a: &WrittenOperand<'_>,
    b: &WrittenOperand<'_>,
) -> Result<bool, NoMemory>
    ensures { IfOk result (λ sound. sound ≡ (is_sound_operand (operand_form a.now) && is_sound_operand (operand_form b.now))) }
{
    let first = is_sound_operand(alloc, a)?;
    let second = is_sound_operand(alloc, b)?;
    Ok(first && second)
}

fn has_sound_operands(alloc: Global, instr: &WrittenInstr<'_>) -> Result<bool, NoMemory>
    ensures { IfOk result (λ sound. sound ≡ has_sound_operands (instr_form instr.now)) }
{
    match instr {
        WrittenInstr::Add { a, b, .. }
        | WrittenInstr::Sub { a, b, .. }
        | WrittenInstr::Eq { a, b, .. }
        | WrittenInstr::Less { a, b, .. }
        | WrittenInstr::Elem {
            index: a,
            from: b,
            ..
        } => are_sound_operands(alloc, a, b),
        WrittenInstr::Move { from: value, .. }
        | WrittenInstr::Ret { value }
        | WrittenInstr::PgetOr { other: value, .. }
        | WrittenInstr::Print { value } => is_sound_operand(alloc, value),
        WrittenInstr::Jump { .. }
        | WrittenInstr::Call { .. }
        | WrittenInstr::CallExt { .. }
        | WrittenInstr::Pget { .. }
        | WrittenInstr::Yield => Ok(true),
    }
}

fn has_sound_terms(alloc: Global, line: &WrittenLine<'_>) -> Result<bool, NoMemory>
    ensures { IfOk result (λ sound. sound ≡ has_sound_terms (line_form line.now)) }
{
    match line {
        WrittenLine::Instr(instr) => has_sound_operands(alloc, instr),
        _ => Ok(true),
    }
}

/// The line with this text.
///
/// It takes memory where the line has a tuple or a list.
pub fn read_line(alloc: Global, text: &[u8]) -> Result<Option<WrittenLine<'_>>, NoMemory>
    ensures read { IfOk result (λ line. option_map line_form line ≡ line_reading text.now) }
    ensures sound { IfOk result (λ line. IfSome line (λ line. IsTrue (is_line_form (line_form line)))) }
{
    match split_line(text) {
        None => Ok(None),
        Some(line) => {
            let sound = has_sound_terms(alloc, &line)?;
            Ok(if sound { Some(line) } else { None })
        }
    }
}

/// The line that this text was read as. Where it is that of none, `end`.
pub fn line_of(text: &[u8]) -> WrittenLine<'_>
    ensures { line_form result ≡ text_form text.now }
{
    match split_line(text) {
        Some(line) => line,
        None => WrittenLine::End,
    }
}
