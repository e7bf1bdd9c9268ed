//! The module texts of a made script.

ghost use Rattle.std.specs.Prelude.{◌≡◌, ◌++◌, IfOk, OnOk};
ghost use Rattle.script_maker.specs.MadeScript.{made_module, main_code, made_versions, subject_of};

use crate::subject::Subject;
use mod_core::{Function, FunctionList, Instr, InstrList, Module, ModuleList, Operand};
use std::alloc::Global;
use term_core::{NoMemory, Term};

/// How many versions each module has, from 1 on.
pub const VERSIONS: u32 = 8;

/// So many times each process prints a line and ends its turn.
pub const PRINTS: i64 = 8;

/// The code of `main/0`.
fn main_code(alloc: Global, about: Subject) -> Result<InstrList, NoMemory>
    ensures { IfOk result (λ code. code ≡ main_code about) }
{
    let mut code = InstrList::new(alloc);
    code.push(Instr::CallExt {
        to: about.version(),
        at: 1,
    })?;
    code.push(Instr::Print {
        value: Operand::Reg(1),
    })?;
    code.push(Instr::PgetOr {
        key: about.key,
        other: Operand::Const(Term::Int(0)),
        to: 2,
    })?;
    code.push(Instr::Yield)?;
    code.push(Instr::Add {
        a: Operand::Reg(0),
        b: Operand::Const(Term::Int(1)),
        to: 0,
    })?;
    code.push(Instr::Less {
        a: Operand::Reg(0),
        b: Operand::Const(Term::Int(PRINTS)),
        target: 0,
    })?;
    Ok(code)
}

/// A version of a module.
fn made_module(alloc: Global, about: Subject, version: u32) -> Result<Module, NoMemory>
    ensures { IfOk result (λ made. made ≡ made_module about version) }
{
    let mut told = InstrList::new(alloc);
    told.push(Instr::Ret {
        value: Operand::Const(Term::Int(i64::from(version))),
    })?;
    let mut functions = FunctionList::new(alloc);
    functions.push(Function {
        name: about.main().name,
        arity: 0,
        exported: true,
        code: main_code(alloc, about)?,
    })?;
    functions.push(Function {
        name: about.version().name,
        arity: 0,
        exported: true,
        code: told,
    })?;
    Ok(Module {
        name: about.module,
        version,
        functions,
    })
}

/// Appends the versions of a module, the first one first.
fn add_versions(alloc: Global, about: Subject, modules: &mut ModuleList) -> Result<(), NoMemory>
    ensures { OnOk result (modules.new ≡ modules.old ++ made_versions about) }
{
    for earlier in 0..VERSIONS {
        modules.push(made_module(alloc, about, earlier + 1)?)?;
    }
    Ok(())
}

/// All versions of both modules.
pub(crate) fn made_modules(alloc: Global) -> Result<ModuleList, NoMemory>
    ensures { IfOk result (λ modules. modules ≡ made_versions (subject_of 0) ++ made_versions (subject_of 1)) }
{
    let mut modules = ModuleList::new(alloc);
    add_versions(alloc, Subject::of_loader(0), &mut modules)?;
    add_versions(alloc, Subject::of_loader(1), &mut modules)?;
    Ok(modules)
}
