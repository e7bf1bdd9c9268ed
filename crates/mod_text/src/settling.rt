//! The module that lines say: its targets are settled by the labels, its calls by the functions.

ghost use Rattle.std.specs.Prelude.{◌≡◌, ◌++◌, [], ◌∷◌, ◌+◌, ◌-◌, ◌^◌, ◌<◌, ◌≤◌, drop, ℕ, List, None, position, map, length, All, IfOk, IfErr, OnOk};
ghost use Rattle.std.specs.Bool.{OnTrue};
ghost use Rattle.mod_text.specs.LineViews.{operand_form, instr_form, text_form, forms_of, headers_of};
ghost use Rattle.mod_text.specs.ModuleLine.{LineForm, eq, less, jump, call};
ghost use Rattle.mod_text.specs.ModuleValue.{HeaderForm, is_header, headers_in, function_number, body_of, instrs_in, functions_in, instr_in, function_in, module_of, is_settled_line, unsettled_in, unsettled_below, first_unsettled, unsettled_line, title_of, IsTitled, IsMissing};
ghost use Rattle.mod_text.specs.Keeping.{IsKept, IsKeptInstr};
ghost use Rattle.mod_text.specs.Settling.{ArePlaces, settled_instr, is_body_line, function_at, IsUnsettled, IsUnsettledBelow, IsLater};

use crate::fault::FinishFault;
use crate::instrs::{move_of, operands_of, pget_of, pget_or_of, print_of, ret_of, sum_of};
use crate::labels::{Places, place_of, places_of};
use crate::line::line_of;
use crate::values::{atom_of, mfa_of, register_of, value_of};
use crate::written::{WrittenInstr, WrittenLine, WrittenOperand};
use mod_core::{Function, FunctionList, Instr, InstrList, Module};
use std::alloc::Global;
use term_core::{Names, NoMemory};

fn place_of_header(functions: &[(&[u8], &[u8])], name: &[u8], arity: &[u8]) -> Option<usize>
    ensures { result ≡ position (λ h. is_header name.now arity.now (h.0.now, h.1.now)) functions.now }
{
    functions
        .iter()
        .position(|function| function.0 == name && function.1 == arity)
}

/// The number of a function, if it is one of these.
fn number_of_function(functions: &[(&[u8], &[u8])], name: &[u8], arity: &[u8]) -> Option<u32>
    requires { length functions.now ≤ 16 }
    ensures { result ≡ function_number name.now arity.now (headers_of functions.now) }
{
    let number = place_of_header(functions, name, arity)?;
    Some(number as u32)
}

#[tactic(auto, using(std::proofs::lemmas::Bool::and_parts, std::proofs::lemmas::Bool::or_parts))]
fn eq_of(
    alloc: Global,
    names: &Names,
    places: &Places<'_>,
    a: &WrittenOperand<'_>,
    b: &WrittenOperand<'_>,
    target: &[u8],
) -> Result<Option<Instr>, NoMemory>
    requires { IsKeptInstr (eq (operand_form a.now) (operand_form b.now) target.now) }
    ensures { (headers : List HeaderForm) (body : List LineForm) → ArePlaces places.now body → IfOk result (λ i. i ≡ settled_instr names.now headers body (eq (operand_form a.now) (operand_form b.now) target.now)) }
{
    let Some(target) = place_of(places, target) else {
        return Ok(None);
    };
    let (a, b) = operands_of(alloc, names, a, b)?;
    Ok(Some(Instr::Eq { a, b, target }))
}

#[tactic(auto, using(std::proofs::lemmas::Bool::and_parts, std::proofs::lemmas::Bool::or_parts))]
fn less_of(
    alloc: Global,
    names: &Names,
    places: &Places<'_>,
    a: &WrittenOperand<'_>,
    b: &WrittenOperand<'_>,
    target: &[u8],
) -> Result<Option<Instr>, NoMemory>
    requires { IsKeptInstr (less (operand_form a.now) (operand_form b.now) target.now) }
    ensures { (headers : List HeaderForm) (body : List LineForm) → ArePlaces places.now body → IfOk result (λ i. i ≡ settled_instr names.now headers body (less (operand_form a.now) (operand_form b.now) target.now)) }
{
    let Some(target) = place_of(places, target) else {
        return Ok(None);
    };
    let (a, b) = operands_of(alloc, names, a, b)?;
    Ok(Some(Instr::Less { a, b, target }))
}

fn jump_of(places: &Places<'_>, target: &[u8]) -> Option<Instr>
    ensures { (names : List (List ℕ)) (headers : List HeaderForm) (body : List LineForm) → ArePlaces places.now body → result ≡ settled_instr names headers body (jump target.now) }
{
    let target = place_of(places, target)?;
    Some(Instr::Jump { target })
}

#[tactic(auto, using(std::proofs::lemmas::Bool::and_parts, std::proofs::lemmas::Bool::or_parts))]
fn call_of(functions: &[(&[u8], &[u8])], name: &[u8], arity: &[u8], at: &[u8]) -> Option<Instr>
    requires few { length functions.now ≤ 16 }
    requires kept { IsKeptInstr (call name.now arity.now at.now) }
    ensures { (names : List (List ℕ)) (body : List LineForm) → result ≡ settled_instr names (headers_of functions.now) body (call name.now arity.now at.now) }
{
    let function = number_of_function(functions, name, arity)?;
    let at = register_of(at);
    Some(Instr::Call { function, at })
}

/// The instruction that is written so, if its label or its local function is there.
#[tactic(auto, using(std::proofs::lemmas::Bool::and_parts, std::proofs::lemmas::Bool::or_parts))]
fn settled(
    alloc: Global,
    names: &Names,
    functions: &[(&[u8], &[u8])],
    places: &Places<'_>,
    instr: &WrittenInstr<'_>,
) -> Result<Option<Instr>, NoMemory>
    requires few { length functions.now ≤ 16 }
    requires kept { IsKeptInstr (instr_form instr.now) }
    ensures { (body : List LineForm) → ArePlaces places.now body → IfOk result (λ settled. settled ≡ settled_instr names.now (headers_of functions.now) body (instr_form instr.now)) }
{
    let settled = match instr {
        WrittenInstr::Eq { a, b, target } => return eq_of(alloc, names, places, a, b, target),
        WrittenInstr::Less { a, b, target } => return less_of(alloc, names, places, a, b, target),
        WrittenInstr::Jump { target } => return Ok(jump_of(places, target)),
        WrittenInstr::Call { name, arity, at } => return Ok(call_of(functions, name, arity, at)),
        WrittenInstr::Move { from, to } => move_of(alloc, names, from, to)?,
        WrittenInstr::Add { a, b, to } => {
            let (a, b, to) = sum_of(alloc, names, a, b, to)?;
            Instr::Add { a, b, to }
        }
        WrittenInstr::Sub { a, b, to } => {
            let (a, b, to) = sum_of(alloc, names, a, b, to)?;
            Instr::Sub { a, b, to }
        }
        WrittenInstr::CallExt {
            module,
            name,
            arity,
            at,
        } => Instr::CallExt {
            to: mfa_of(names, module, name, arity),
            at: register_of(at),
        },
        WrittenInstr::Ret { value } => ret_of(alloc, names, value)?,
        WrittenInstr::Pget { key, to } => pget_of(names, key, to),
        WrittenInstr::PgetOr { key, other, to } => pget_or_of(alloc, names, key, other, to)?,
        WrittenInstr::Elem { index, from, to } => {
            let (index, from, to) = sum_of(alloc, names, index, from, to)?;
            Instr::Elem { index, from, to }
        }
        WrittenInstr::Print { value } => print_of(alloc, names, value)?,
        WrittenInstr::Yield => Instr::Yield,
    };
    Ok(Some(settled))
}

fn is_body_line(line: &[u8]) -> bool
    ensures { result ≡ is_body_line (text_form line.now) }
{
    matches!(
        line_of(line),
        WrittenLine::Label { .. } | WrittenLine::Instr(_)
    )
}

/// The labels and instructions in front.
fn body_of<'b, 'c>(lines: &'b [&'c [u8]]) -> &'b [&'c [u8]]
    ensures body { forms_of result.now ≡ body_of (forms_of lines.now) }
    ensures within { length result.now ≤ length lines.now }
{
    for (place, line) in lines.iter().enumerate() {
        if !is_body_line(line) {
            return &lines[..place];
        }
    }
    lines
}

/// Appends the instruction of a line, if it is one, and says whether its label or its local function is there.
fn settle_line(
    alloc: Global,
    names: &Names,
    functions: &[(&[u8], &[u8])],
    places: &Places<'_>,
    line: &[u8],
    code: &mut InstrList,
) -> Result<bool, FinishFault>
    requires few { length functions.now ≤ 16 }
    requires kept { IsKept (text_form line.now) }
    ensures settled { (body : List LineForm) → ArePlaces places.now body → IfOk result (λ yes. yes ≡ is_settled_line (headers_of functions.now) body (text_form line.now)) }
    ensures code { (body : List LineForm) → ArePlaces places.now body → IfOk result (λ yes. OnTrue yes (code.new ≡ code.old ++ map (instr_in names.now (headers_of functions.now) body) (instrs_in (text_form line.now ∷ [])))) }
    ensures err { IfErr result (λ fault. fault ≡ FinishFault.NoMemory) }
{
    let WrittenLine::Instr(instr) = line_of(line) else {
        return Ok(true);
    };
    let settled = settled(alloc, names, functions, places, &instr)?;
    match settled {
        None => Ok(false),
        Some(instr) => {
            code.push(instr)?;
            Ok(true)
        }
    }
}

/// The code of a function with this body.
fn settled_code(
    alloc: Global,
    names: &Names,
    functions: &[(&[u8], &[u8])],
    body: &[&[u8]],
) -> Result<InstrList, FinishFault>
    requires few { length functions.now ≤ 16 }
    requires kept { All IsKept (forms_of body.now) }
    ensures ok { IfOk result (λ code. code ≡ map (instr_in names.now (headers_of functions.now) (forms_of body.now)) (instrs_in (forms_of body.now))) }
    ensures settled { OnOk result (unsettled_in (headers_of functions.now) (forms_of body.now) ≡ None) }
    ensures missing { IfErr result (IsUnsettled (unsettled_in (headers_of functions.now) (forms_of body.now))) }
    ensures within { IfErr result (IsUnsettledBelow (length body.now)) }
{
    let places = places_of(alloc, body)?;
    let mut code = InstrList::new(alloc);
    for (number, line) in body.iter().enumerate() {
        if !settle_line(alloc, names, functions, &places, line, &mut code)? {
            return Err(FinishFault::Missing { number });
        }
    }
    Ok(code)
}

/// Appends the function that a line begins, if it is a header, before the lines behind it.
fn settle_function(
    alloc: Global,
    names: &Names,
    functions: &[(&[u8], &[u8])],
    line: &[u8],
    behind: &[&[u8]],
    settled: &mut FunctionList,
) -> Result<(), FinishFault>
    requires few { length functions.now ≤ 16 }
    requires kept { IsKept (text_form line.now) }
    requires each { All IsKept (forms_of behind.now) }
    ensures ok { OnOk result (settled.new ≡ settled.old ++ map (function_in names.now (headers_of functions.now)) (function_at (text_form line.now) (forms_of behind.now))) }
    ensures settled { OnOk result (unsettled_below (headers_of functions.now) (text_form line.now) (forms_of behind.now) ≡ None) }
    ensures missing { IfErr result (IsUnsettled (unsettled_below (headers_of functions.now) (text_form line.now) (forms_of behind.now))) }
    ensures within { IfErr result (IsUnsettledBelow (length behind.now)) }
{
    let WrittenLine::Header {
        exported,
        name,
        arity,
    } = line_of(line)
    else {
        return Ok(());
    };
    let code = settled_code(alloc, names, functions, body_of(behind))?;
    settled.push(Function {
        name: atom_of(names, name),
        arity: value_of(arity),
        exported,
        code,
    })?;
    Ok(())
}

/// The fault of a line that stands so many lines later.
fn later(fault: FinishFault, lines: usize) -> FinishFault
    requires { IsUnsettledBelow (2 ^ 64 - lines) fault }
    ensures { IsLater lines fault result }
{
    match fault {
        FinishFault::Missing { number } => FinishFault::Missing {
            number: lines + number,
        },
        FinishFault::NoMemory => FinishFault::NoMemory,
    }
}

/// The lines behind a place.
fn lines_behind<'b, 'c>(lines: &'b [&'c [u8]], place: usize) -> &'b [&'c [u8]]
    requires { place < length lines.now }
    ensures { result.now ≡ drop (place + 1) lines.now }
{
    &lines[place + 1..]
}

/// The functions that lines say.
fn settled_functions(
    alloc: Global,
    names: &Names,
    functions: &[(&[u8], &[u8])],
    lines: &[&[u8]],
) -> Result<FunctionList, FinishFault>
    requires few { length functions.now ≤ 16 }
    requires kept { All IsKept (forms_of lines.now) }
    ensures ok { IfOk result (λ fs. fs ≡ map (function_in names.now (headers_of functions.now)) (functions_in (forms_of lines.now))) }
    ensures settled { OnOk result (first_unsettled (headers_of functions.now) (forms_of lines.now) ≡ None) }
    ensures missing { IfErr result (IsUnsettled (first_unsettled (headers_of functions.now) (forms_of lines.now))) }
{
    let mut list = FunctionList::new(alloc);
    for (number, line) in lines.iter().enumerate() {
        let behind = lines_behind(lines, number);
        match settle_function(alloc, names, functions, line, behind, &mut list) {
            Ok(()) => {}
            Err(fault) => return Err(later(fault, number + 1)),
        }
    }
    Ok(list)
}

/// The name and version of the module whose title has this text.
fn title_words(line: &[u8]) -> (&[u8], &[u8])
    ensures name { result.0.now ≡ (title_of (text_form line.now ∷ [])).0 }
    ensures version { result.1.now ≡ (title_of (text_form line.now ∷ [])).1 }
{
    match line_of(line) {
        WrittenLine::Title { name, version } => (name, version),
        _ => (b"".as_slice(), b"".as_slice()),
    }
}

/// The name and version of the module whose text begins so.
pub fn title_of<'b>(lines: &[&'b [u8]]) -> (&'b [u8], &'b [u8])
    ensures name { result.0.now ≡ (title_of (forms_of lines.now)).0 }
    ensures version { result.1.now ≡ (title_of (forms_of lines.now)).1 }
{
    match lines {
        [first, ..] => title_words(first),
        [] => (b"".as_slice(), b"".as_slice()),
    }
}

/// The module that lines say, whose functions have these names and arities.
pub fn settled_module(
    alloc: Global,
    names: &Names,
    functions: &[(&[u8], &[u8])],
    lines: &[&[u8]],
) -> Result<Module, FinishFault>
    requires few { length functions.now ≤ 16 }
    requires kept { All IsKept (forms_of lines.now) }
    requires headers { headers_of functions.now ≡ headers_in (forms_of lines.now) }
    requires titled { IsTitled (forms_of lines.now) }
    ensures ok { IfOk result (λ m. m ≡ module_of names.now (forms_of lines.now)) }
    ensures settled { OnOk result (unsettled_line (forms_of lines.now) ≡ None) }
    ensures missing { IfErr result (IsMissing (forms_of lines.now)) }
{
    let (name, version) = title_of(lines);
    let functions = settled_functions(alloc, names, functions, lines)?;
    Ok(Module {
        name: atom_of(names, name),
        version: value_of(version),
        functions,
    })
}
