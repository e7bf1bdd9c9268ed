//! Commands, and texts to load from, short enough for rows of tables.

ghost use Rattle.std.specs.Prelude.{◌≡◌, ◌<◌, ◌≤◌, IfOk};
ghost use Rattle.term_core.specs.Plain.{plain};
ghost use Rattle.mod_core.specs.Module.{IsModule};
ghost use Rattle.server_core.specs.CommandTable.{AreTexts, IsOfText};
ghost use Rattle.server_core.specs.ServerState.{IsShortTerm};

use mod_core::{Function, FunctionList, Instr, InstrList, Module, ModuleList, Operand};
use server_core::{Cmd, Linger, ModRef, RefList};
use std::alloc::Global;
use term_core::{AtomId, Mfa, NoMemory, Term, TermList};

const MAIN: AtomId = AtomId(900);

/// A module of one function, `main/1`.
fn text(alloc: Global, name: u32, version: u32, exported: bool) -> Result<Module, NoMemory>
    requires numbered { name < 4096 }
    requires least { 1 ≤ version }
    requires greatest { version ≤ 999999 }
    ensures sound { IfOk result IsModule }
    ensures named { IfOk result (λ m. m.name.0 ≡ name) }
    ensures version { IfOk result (λ m. m.version ≡ version) }
{
    let mut code = InstrList::new(alloc);
    code.push(Instr::Print {
        value: Operand::Reg(0),
    })?;
    let mut functions = FunctionList::new(alloc);
    functions.push(Function {
        name: MAIN,
        arity: 1,
        exported,
        code,
    })?;
    Ok(Module {
        name: AtomId(name),
        version,
        functions,
    })
}

/// The versions 1, 2 and 3 of the modules whose atoms have the numbers 3, 4, 5 and so on. `main/1` is
/// local in version 3, and exported in the others.
pub fn texts(alloc: Global, count: u32) -> Result<ModuleList, NoMemory>
    requires { count < 1000 }
    ensures { IfOk result AreTexts }
{
    let mut texts = ModuleList::new(alloc);
    for k in 0..count {
        texts.push(text(alloc, 3 + k / 3, 1 + k % 3, k % 3 != 2)?)?;
    }
    Ok(texts)
}

/// A term to put.
#[derive(Clone, Copy, Debug)]
pub enum Value {
    Seven,
    EmptyTuple,
    EmptyList,
    /// a tuple of 7 alone
    TupleOfSeven,
}

/// A command on the module or the key whose atom has the number, short enough for a row of a table.
#[derive(Clone, Copy, Debug)]
pub enum Step {
    Load(u32, u32),
    /// a load of the versions 1 and 2 of a module
    LoadBoth(u32),
    Delete(u32),
    SoftPurge(u32),
    /// the soft purge that found process 7 in its third turn
    Linger(u32),
    Doom(u32),
    Purge(u32),
    /// the purge that killed a process
    Kill(u32),
    CheckOld(u32),
    Put(u32, Value),
    Erase(u32),
    /// a breakpoint at `main/1`
    Trace(u32),
    Untrace(u32),
    Spawn(u32),
    Release(u64),
}

fn term_of(alloc: Global, value: Value) -> Result<Term, NoMemory>
    ensures { IfOk result (λ term. IsShortTerm (plain term)) }
{
    match value {
        Value::Seven => Ok(Term::Int(7)),
        Value::EmptyTuple => Ok(Term::Tuple(TermList::new(alloc))),
        Value::EmptyList => Ok(Term::List(TermList::new(alloc))),
        Value::TupleOfSeven => tuple_of_seven(alloc),
    }
}

fn tuple_of_seven(alloc: Global) -> Result<Term, NoMemory>
    ensures { IfOk result (λ term. IsShortTerm (plain term)) }
{
    let mut terms = TermList::new(alloc);
    terms.push(Term::Int(7))?;
    Ok(Term::Tuple(terms))
}

pub fn command_of(alloc: Global, step: Step) -> Result<Cmd, NoMemory>
    ensures { IfOk result IsOfText }
{
    let cmd = match step {
        Step::Load(name, version) => load_of(alloc, &[(name, version)])?,
        Step::LoadBoth(name) => load_of(alloc, &[(name, 1), (name, 2)])?,
        Step::Delete(name) => Cmd::Delete(AtomId(name)),
        Step::SoftPurge(name) => Cmd::SoftPurge {
            module: AtomId(name),
            lingers: None,
        },
        Step::Linger(name) => Cmd::SoftPurge {
            module: AtomId(name),
            lingers: Some(Linger {
                process: 7,
                turn: 2,
            }),
        },
        Step::Doom(name) => Cmd::Doom(AtomId(name)),
        Step::Purge(name) => purge_of(name, false),
        Step::Kill(name) => purge_of(name, true),
        Step::CheckOld(name) => Cmd::CheckOld(AtomId(name)),
        Step::Put(key, value) => Cmd::Put {
            key: AtomId(key),
            term: term_of(alloc, value)?,
        },
        Step::Erase(key) => Cmd::Erase(AtomId(key)),
        Step::Trace(name) => trace_of(name, true),
        Step::Untrace(name) => trace_of(name, false),
        Step::Spawn(name) => Cmd::Spawn {
            target: main_of(name),
            args: TermList::new(alloc),
        },
        Step::Release(serial) => Cmd::Release(serial),
    };
    Ok(cmd)
}

fn load_of(alloc: Global, versions: &[(u32, u32)]) -> Result<Cmd, NoMemory>
    ensures { IfOk result IsOfText }
{
    let mut refs = RefList::new(alloc);
    for (name, version) in versions {
        refs.push(ModRef {
            name: AtomId(*name),
            version: *version,
        })?;
    }
    Ok(Cmd::Load(refs))
}

fn purge_of(name: u32, killed: bool) -> Cmd
    ensures { IsOfText result }
{
    Cmd::Purge {
        module: AtomId(name),
        killed,
    }
}

fn trace_of(name: u32, on: bool) -> Cmd
    ensures { IsOfText result }
{
    Cmd::Trace {
        target: main_of(name),
        on,
    }
}

pub fn main_of(name: u32) -> Mfa {
    Mfa {
        module: AtomId(name),
        name: MAIN,
        arity: 1,
    }
}
