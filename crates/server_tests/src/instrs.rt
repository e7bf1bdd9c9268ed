//! Terms and instructions, short enough for rows of tables.

use machine_core::{Line, LineList};
use mod_core::{Instr, InstrList, Operand};
use std::alloc::Global;
use term_core::{AtomId, NoMemory, Term, TermList};

/// A term of an instruction, of an argument or of a line.
#[derive(Clone, Copy)]
pub enum Arg {
    Reg(u32),
    Int(i64),
    /// `{1}`
    One,
    /// `{3,{1}}`
    Nested,
}

/// An instruction, short enough for a row of a table.
#[derive(Clone, Copy)]
pub enum Step {
    Move(Arg, u32),
    Add(Arg, Arg, u32),
    Pget(u32, u32),
    PgetOr(u32, Arg, u32),
    Elem(Arg, Arg, u32),
    Print(Arg),
    Yield,
}

/// `{1}`.
fn one(alloc: Global) -> Result<Term, NoMemory> {
    let mut terms = TermList::new(alloc);
    terms.push(Term::Int(1))?;
    Ok(Term::Tuple(terms))
}

/// `{3,{1}}`.
fn nested(alloc: Global) -> Result<Term, NoMemory> {
    let mut terms = TermList::new(alloc);
    terms.push(Term::Int(3))?;
    terms.push(one(alloc)?)?;
    Ok(Term::Tuple(terms))
}

fn term_of(arg: Arg, alloc: Global) -> Result<Term, NoMemory> {
    match arg {
        Arg::Int(number) => Ok(Term::Int(number)),
        Arg::One => one(alloc),
        Arg::Nested => nested(alloc),
        Arg::Reg(_) => Ok(Term::Atom(AtomId::OK)),
    }
}

fn operand_of(arg: Arg, alloc: Global) -> Result<Operand, NoMemory> {
    match arg {
        Arg::Reg(register) => Ok(Operand::Reg(register)),
        _ => Ok(Operand::Const(term_of(arg, alloc)?)),
    }
}

fn instr_of(step: Step, alloc: Global) -> Result<Instr, NoMemory> {
    match step {
        Step::Move(from, to) => Ok(Instr::Move {
            from: operand_of(from, alloc)?,
            to,
        }),
        Step::Add(a, b, to) => Ok(Instr::Add {
            a: operand_of(a, alloc)?,
            b: operand_of(b, alloc)?,
            to,
        }),
        Step::Pget(key, to) => Ok(Instr::Pget {
            key: AtomId(key),
            to,
        }),
        Step::PgetOr(key, other, to) => Ok(Instr::PgetOr {
            key: AtomId(key),
            other: operand_of(other, alloc)?,
            to,
        }),
        Step::Elem(index, from, to) => Ok(Instr::Elem {
            index: operand_of(index, alloc)?,
            from: operand_of(from, alloc)?,
            to,
        }),
        Step::Print(value) => Ok(Instr::Print {
            value: operand_of(value, alloc)?,
        }),
        Step::Yield => Ok(Instr::Yield),
    }
}

pub fn code_of(steps: &[Step], alloc: Global) -> Result<InstrList, NoMemory> {
    let mut code = InstrList::new(alloc);
    for step in steps {
        code.push(instr_of(*step, alloc)?)?;
    }
    Ok(code)
}

pub fn args_of(args: &[Arg], alloc: Global) -> Result<TermList, NoMemory> {
    let mut terms = TermList::new(alloc);
    for arg in args {
        terms.push(term_of(*arg, alloc)?)?;
    }
    Ok(terms)
}

pub fn lines_of(prints: &[Arg], alloc: Global) -> Result<LineList, NoMemory> {
    let mut lines = LineList::new(alloc);
    for arg in prints {
        lines.push(Line::Print(term_of(*arg, alloc)?))?;
    }
    Ok(lines)
}
