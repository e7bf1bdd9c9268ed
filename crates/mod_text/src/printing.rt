//! The canonical text of a module.

ghost use Rattle.std.specs.Prelude.{◌≡◌, [], ◌∷◌, ◌++◌, ◌<◌, ℕ, List, length, All, OnOk, OnErr, decimal, option_copied};
ghost use Rattle.std.specs.Io.{StartsWith};
ghost use Rattle.std.specs.List.{flat_map};
ghost use Rattle.term_core.specs.Names.{IsNames};
ghost use Rattle.term_core.specs.Plain.{plain};
ghost use Rattle.term_core.specs.TermText.{atom_text};
ghost use Rattle.term_core.specs.Written.{written};
ghost use Rattle.mod_text.specs.declared.targets.TheConstants.{MOST_PLACES};
ghost use Rattle.mod_core.specs.declared.code.Module.{Module as ModuleValue};
ghost use Rattle.mod_text.specs.Canonical.{canonical, function_lines, lines_from, labels_where, label_text, written_instr, written_operand, term_form, written_call, callee_text};
ghost use Rattle.mod_core.specs.HeldNames.{IsModuleHeld};
ghost use Rattle.mod_core.specs.Module.{IsModule};
ghost use Rattle.mod_text.specs.ModuleLine.{title, header, instr as instr_line, move, jump, call_ext, pget, pget_or, spaced, register_written, operand_written, function_written, instr_written, header_word, line_bytes, lines_written};
ghost use Rattle.mod_text.specs.ModuleText.{ModuleText};

use crate::targets::targets_of;
use mod_core::{Function, Instr, Module, Operand};
use term_core::{
    AtomId, ByteList, Mfa, Names, NoMemory, Term, print_atom, print_number, print_term,
};

/// Appends the canonical text of a module, whose label before the instruction number N of a function is `lN`, and stands
/// exactly where the function goes to it. Where memory is refused, nothing is appended.
pub fn print_module(names: &Names, module: &Module, out: &mut ByteList) -> Result<(), NoMemory>
    requires valid { IsModule «module».now }
    requires held { IsModuleHeld names.now «module».now }
    ensures ok { OnOk result (out.new ≡ out.old ++ lines_written (canonical names.now «module».now)) }
    ensures err { OnErr result (out.new ≡ out.old) }
{
    let start = out.len();
    let written = write_module(names, module, out);
    if written.is_err() {
        out.truncate(start);
    }
    written
}

/// A law: the canonical text of a module whose atoms are held is a text of that module, and names no new atom.
pub fn canonical_text_reads_back()
    ensures { (names : List (List ℕ)) (m : ModuleValue) → IsNames names → IsModule m → IsModuleHeld names m → ModuleText names (lines_written (canonical names m)) m names }
{}

// Each function below appends a part of the text after a refusal.

fn write_module(names: &Names, module: &Module, out: &mut ByteList) -> Result<(), NoMemory>
    requires valid { IsModule «module».now }
    ensures ok { OnOk result (out.new ≡ out.old ++ lines_written (canonical names.now «module».now)) }
    ensures kept { StartsWith out.new out.old }
{
    write_title(names, module, out)?;
    write_functions(names, module.functions.as_slice(), out)?;
    out.extend_from_slice(b"end\n")
}

fn write_title(names: &Names, module: &Module, out: &mut ByteList) -> Result<(), NoMemory>
    ensures ok { OnOk result (out.new ≡ out.old ++ line_bytes (title (atom_text names.now «module».now.name.0) (decimal «module».now.version))) }
    ensures kept { StartsWith out.new out.old }
{
    out.extend_from_slice(b"module ")?;
    print_atom(names, module.name, out)?;
    out.push(b'.')?;
    print_number(u64::from(module.version), out)?;
    out.push(b'\n')
}

fn write_functions(
    names: &Names,
    functions: &[Function],
    out: &mut ByteList,
) -> Result<(), NoMemory>
    requires short { All (λ f. length f.code < MOST_PLACES) functions.now }
    ensures ok { OnOk result (out.new ≡ out.old ++ flat_map (λ f. lines_written (function_lines names.now functions.now f)) functions.now) }
    ensures kept { StartsWith out.new out.old }
{
    for function in functions {
        write_function(names, functions, function, out)?;
    }
    Ok(())
}

fn write_function(
    names: &Names,
    functions: &[Function],
    function: &Function,
    out: &mut ByteList,
) -> Result<(), NoMemory>
    requires short { length function.now.code < MOST_PLACES }
    ensures ok { OnOk result (out.new ≡ out.old ++ lines_written (function_lines names.now functions.now function.now)) }
    ensures kept { StartsWith out.new out.old }
{
    write_header(names, function, out)?;
    write_code(names, functions, function.code.as_slice(), out)
}

fn write_header(names: &Names, function: &Function, out: &mut ByteList) -> Result<(), NoMemory>
    ensures ok { OnOk result (out.new ≡ out.old ++ line_bytes (header function.now.exported (atom_text names.now function.now.name.0) (decimal function.now.arity))) }
    ensures kept { StartsWith out.new out.old }
{
    write_header_word(function.exported, out)?;
    write_name(names, function.name, function.arity, out)?;
    out.push(b'\n')
}

fn write_header_word(exported: bool, out: &mut ByteList) -> Result<(), NoMemory>
    ensures ok { OnOk result (out.new ≡ out.old ++ header_word exported ++ 32 ∷ []) }
    ensures err { OnErr result (out.new ≡ out.old) }
{
    if exported {
        out.extend_from_slice(b"export ")
    } else {
        out.extend_from_slice(b"local ")
    }
}

/// A function's name and arity.
fn write_name(names: &Names, name: AtomId, arity: u32, out: &mut ByteList) -> Result<(), NoMemory>
    ensures ok { OnOk result (out.new ≡ out.old ++ function_written (atom_text names.now name.0) (decimal arity)) }
    ensures kept { StartsWith out.new out.old }
{
    print_atom(names, name, out)?;
    out.push(b'/')?;
    print_number(u64::from(arity), out)
}

fn write_code(
    names: &Names,
    functions: &[Function],
    code: &[Instr],
    out: &mut ByteList,
) -> Result<(), NoMemory>
    requires short { length code.now < MOST_PLACES }
    ensures ok { OnOk result (out.new ≡ out.old ++ lines_written (lines_from names.now functions.now code.now 0 code.now)) }
    ensures kept { StartsWith out.new out.old }
{
    let targets = targets_of(code);
    for (number, instr) in code.iter().enumerate() {
        write_place(targets[number], number, out)?;
        write_line(names, functions, instr, out)?;
    }
    write_place(targets[code.len()], code.len(), out)
}

/// The label of a place, if the code goes to it.
fn write_place(is_target: bool, number: usize, out: &mut ByteList) -> Result<(), NoMemory>
    ensures ok { OnOk result (out.new ≡ out.old ++ lines_written (labels_where is_target number)) }
    ensures kept { StartsWith out.new out.old }
{
    if !is_target {
        return Ok(());
    }
    out.extend_from_slice(b"label ")?;
    write_label(number as u64, out)?;
    out.push(b'\n')
}

fn write_label(number: u64, out: &mut ByteList) -> Result<(), NoMemory>
    ensures ok { OnOk result (out.new ≡ out.old ++ label_text number) }
    ensures kept { StartsWith out.new out.old }
{
    out.push(b'l')?;
    print_number(number, out)
}

fn write_line(
    names: &Names,
    functions: &[Function],
    instr: &Instr,
    out: &mut ByteList,
) -> Result<(), NoMemory>
    ensures ok { OnOk result (out.new ≡ out.old ++ line_bytes (instr_line (written_instr names.now functions.now instr.now))) }
    ensures kept { StartsWith out.new out.old }
{
    write_instr(names, functions, instr, out)?;
    out.push(b'\n')
}

fn write_register(number: u32, out: &mut ByteList) -> Result<(), NoMemory>
    ensures ok { OnOk result (out.new ≡ out.old ++ register_written (decimal number)) }
    ensures kept { StartsWith out.new out.old }
{
    out.push(b'$')?;
    print_number(u64::from(number), out)
}

fn write_operand(names: &Names, operand: &Operand, out: &mut ByteList) -> Result<(), NoMemory>
    ensures ok { OnOk result (out.new ≡ out.old ++ operand_written (written_operand names.now operand.now)) }
    ensures kept { StartsWith out.new out.old }
{
    match operand {
        Operand::Reg(number) => write_register(*number, out),
        Operand::Const(term) => write_constant(names, term, out),
    }
}

fn write_constant(names: &Names, term: &Term, out: &mut ByteList) -> Result<(), NoMemory>
    ensures ok { OnOk result (out.new ≡ out.old ++ written (term_form names.now (plain term.now))) }
    ensures err { OnErr result (out.new ≡ out.old) }
{
    print_term(names, term, out)
}

/// A space and an operand.
fn write_next(names: &Names, operand: &Operand, out: &mut ByteList) -> Result<(), NoMemory>
    ensures ok { OnOk result (out.new ≡ out.old ++ 32 ∷ operand_written (written_operand names.now operand.now)) }
    ensures kept { StartsWith out.new out.old }
{
    out.push(b' ')?;
    write_operand(names, operand, out)
}

/// A space and a register.
fn write_last(number: u32, out: &mut ByteList) -> Result<(), NoMemory>
    ensures ok { OnOk result (out.new ≡ out.old ++ 32 ∷ register_written (decimal number)) }
    ensures kept { StartsWith out.new out.old }
{
    out.push(b' ')?;
    write_register(number, out)
}

/// A space and a label.
fn write_target(number: u32, out: &mut ByteList) -> Result<(), NoMemory>
    ensures ok { OnOk result (out.new ≡ out.old ++ 32 ∷ label_text number) }
    ensures kept { StartsWith out.new out.old }
{
    out.push(b' ')?;
    write_label(u64::from(number), out)
}

/// A word, two operands and a register.
fn write_sum(
    names: &Names,
    word: &[u8],
    a: &Operand,
    b: &Operand,
    to: u32,
    out: &mut ByteList,
) -> Result<(), NoMemory>
    ensures ok { OnOk result (out.new ≡ out.old ++ spaced word.now (spaced (operand_written (written_operand names.now a.now)) (spaced (operand_written (written_operand names.now b.now)) (register_written (decimal to))))) }
    ensures kept { StartsWith out.new out.old }
{
    write_two(names, word, a, b, out)?;
    write_last(to, out)
}

/// A word, two operands and a label.
fn write_branch(
    names: &Names,
    word: &[u8],
    a: &Operand,
    b: &Operand,
    target: u32,
    out: &mut ByteList,
) -> Result<(), NoMemory>
    ensures ok { OnOk result (out.new ≡ out.old ++ spaced word.now (spaced (operand_written (written_operand names.now a.now)) (spaced (operand_written (written_operand names.now b.now)) (label_text target)))) }
    ensures kept { StartsWith out.new out.old }
{
    write_two(names, word, a, b, out)?;
    write_target(target, out)
}

/// A word and two operands.
fn write_two(
    names: &Names,
    word: &[u8],
    a: &Operand,
    b: &Operand,
    out: &mut ByteList,
) -> Result<(), NoMemory>
    ensures ok { OnOk result (out.new ≡ out.old ++ (word.now ++ 32 ∷ operand_written (written_operand names.now a.now) ++ 32 ∷ operand_written (written_operand names.now b.now))) }
    ensures kept { StartsWith out.new out.old }
{
    out.extend_from_slice(word)?;
    write_next(names, a, out)?;
    write_next(names, b, out)
}

fn write_move(names: &Names, from: &Operand, to: u32, out: &mut ByteList) -> Result<(), NoMemory>
    ensures ok { OnOk result (out.new ≡ out.old ++ instr_written (move (written_operand names.now from.now) (decimal to))) }
    ensures kept { StartsWith out.new out.old }
{
    out.extend_from_slice(b"move")?;
    write_next(names, from, out)?;
    write_last(to, out)
}

fn write_jump(target: u32, out: &mut ByteList) -> Result<(), NoMemory>
    ensures ok { OnOk result (out.new ≡ out.old ++ instr_written (jump (label_text target))) }
    ensures kept { StartsWith out.new out.old }
{
    out.extend_from_slice(b"jump")?;
    write_target(target, out)
}

/// A word and an operand.
fn write_one(
    names: &Names,
    word: &[u8],
    value: &Operand,
    out: &mut ByteList,
) -> Result<(), NoMemory>
    ensures ok { OnOk result (out.new ≡ out.old ++ spaced word.now (operand_written (written_operand names.now value.now))) }
    ensures kept { StartsWith out.new out.old }
{
    out.extend_from_slice(word)?;
    write_next(names, value, out)
}

fn write_call(
    names: &Names,
    callee: Option<&Function>,
    at: u32,
    out: &mut ByteList,
) -> Result<(), NoMemory>
    ensures ok { OnOk result (out.new ≡ out.old ++ instr_written (written_call names.now (option_copied callee.entry) at)) }
    ensures kept { StartsWith out.new out.old }
{
    out.extend_from_slice(b"call ")?;
    write_callee(names, callee, out)?;
    write_last(at, out)
}

fn write_callee(
    names: &Names,
    callee: Option<&Function>,
    out: &mut ByteList,
) -> Result<(), NoMemory>
    ensures ok { OnOk result (out.new ≡ out.old ++ callee_text names.now (option_copied callee.entry)) }
    ensures kept { StartsWith out.new out.old }
{
    match callee {
        None => out.push(b'/'),
        Some(function) => write_name(names, function.name, function.arity, out),
    }
}

fn write_call_ext(names: &Names, to: &Mfa, at: u32, out: &mut ByteList) -> Result<(), NoMemory>
    ensures ok { OnOk result (out.new ≡ out.old ++ instr_written (call_ext (atom_text names.now to.now.«module».0) (atom_text names.now to.now.name.0) (decimal to.now.arity) (decimal at))) }
    ensures kept { StartsWith out.new out.old }
{
    out.extend_from_slice(b"call_ext ")?;
    print_atom(names, to.module, out)?;
    out.push(b':')?;
    write_name(names, to.name, to.arity, out)?;
    write_last(at, out)
}

fn write_pget(names: &Names, key: AtomId, to: u32, out: &mut ByteList) -> Result<(), NoMemory>
    ensures ok { OnOk result (out.new ≡ out.old ++ instr_written (pget (atom_text names.now key.0) (decimal to))) }
    ensures kept { StartsWith out.new out.old }
{
    out.extend_from_slice(b"pget ")?;
    print_atom(names, key, out)?;
    write_last(to, out)
}

fn write_pget_or(
    names: &Names,
    key: AtomId,
    other: &Operand,
    to: u32,
    out: &mut ByteList,
) -> Result<(), NoMemory>
    ensures ok { OnOk result (out.new ≡ out.old ++ instr_written (pget_or (atom_text names.now key.0) (written_operand names.now other.now) (decimal to))) }
    ensures kept { StartsWith out.new out.old }
{
    out.extend_from_slice(b"pget_or ")?;
    print_atom(names, key, out)?;
    write_next(names, other, out)?;
    write_last(to, out)
}

fn write_instr(
    names: &Names,
    functions: &[Function],
    instr: &Instr,
    out: &mut ByteList,
) -> Result<(), NoMemory>
    ensures ok { OnOk result (out.new ≡ out.old ++ instr_written (written_instr names.now functions.now instr.now)) }
    ensures kept { StartsWith out.new out.old }
{
    match instr {
        Instr::Move { from, to } => write_move(names, from, *to, out),
        Instr::Add { a, b, to } => write_sum(names, b"add", a, b, *to, out),
        Instr::Sub { a, b, to } => write_sum(names, b"sub", a, b, *to, out),
        Instr::Eq { a, b, target } => write_branch(names, b"eq", a, b, *target, out),
        Instr::Less { a, b, target } => write_branch(names, b"less", a, b, *target, out),
        Instr::Jump { target } => write_jump(*target, out),
        Instr::Call { function, at } => {
            write_call(names, functions.get(*function as usize), *at, out)
        }
        Instr::CallExt { to, at } => write_call_ext(names, to, *at, out),
        Instr::Ret { value } => write_one(names, b"ret", value, out),
        Instr::Pget { key, to } => write_pget(names, *key, *to, out),
        Instr::PgetOr { key, other, to } => write_pget_or(names, *key, other, *to, out),
        Instr::Elem { index, from, to } => write_sum(names, b"elem", index, from, *to, out),
        Instr::Print { value } => write_one(names, b"print", value, out),
        Instr::Yield => out.extend_from_slice(b"yield"),
    }
}
