//! The atoms of a line, which get numbers in the order of the line.

ghost use Rattle.std.specs.Prelude.{[], ◌∷◌, ◌++◌, IsTrue};
ghost use Rattle.term_core.specs.Names.{IsNames, Extends, is_atom_text};
ghost use Rattle.mod_text.specs.LineViews.{operand_form, complex_form, instr_form, line_form};
ghost use Rattle.mod_text.specs.ModuleLine.{is_operand_form, is_instr_form, is_line_form};
ghost use Rattle.mod_text.specs.LineFaults.{operand_atoms, instr_atoms, line_atoms};
ghost use Rattle.mod_text.specs.Keeping.{naming};
ghost use Rattle.mod_text.specs.Reading.{Gives};

use crate::fault::LineFault;
use crate::written::{WrittenInstr, WrittenLine, WrittenOperand};
use term_core::{AtomId, NameFault, Names, name_atoms};

// Each function below may leave more names after a fault.

fn add_none(names: &mut Names) -> Result<(), LineFault>
    ensures named { Gives (λ _. names.new) result (naming names.old []) }
    ensures grown { Extends names.old names.new }
    ensures sound { IsNames names.new }
{
    // So the proof knows what a table keeps.
    let _ = names.text(AtomId::TRUE);
    Ok(())
}

fn add_atom(names: &mut Names, text: &[u8]) -> Result<(), LineFault>
    requires { IsTrue (is_atom_text text.now) }
    ensures named { Gives (λ _. names.new) result (naming names.old (text.now ∷ [])) }
    ensures grown { Extends names.old names.new }
    ensures sound { IsNames names.new }
{
    match names.add(text) {
        Ok(_) => Ok(()),
        Err(NameFault::Full) => Err(LineFault::Names),
        Err(NameFault::NoMemory) => Err(LineFault::NoMemory),
    }
}

/// The atoms of a tuple or a list.
#[tactic(auto, using(crate::proofs::WrittenTerms::atoms_are))]
fn add_term(names: &mut Names, text: &[u8]) -> Result<(), LineFault>
    requires { IsTrue (is_operand_form (complex_form text.now)) }
    ensures named { Gives (λ _. names.new) result (naming names.old (operand_atoms (complex_form text.now))) }
    ensures grown { Extends names.old names.new }
    ensures sound { IsNames names.new }
{
    match name_atoms(names, text) {
        Ok(()) => Ok(()),
        Err(NameFault::Full) => Err(LineFault::Names),
        Err(NameFault::NoMemory) => Err(LineFault::NoMemory),
    }
}

#[tactic(auto, using(crate::proofs::WrittenTerms::integer_atoms))]
fn add_operand(names: &mut Names, operand: &WrittenOperand<'_>) -> Result<(), LineFault>
    requires { IsTrue (is_operand_form (operand_form operand.now)) }
    ensures named { Gives (λ _. names.new) result (naming names.old (operand_atoms (operand_form operand.now))) }
    ensures grown { Extends names.old names.new }
    ensures sound { IsNames names.new }
{
    match operand {
        WrittenOperand::Atom(text) => add_atom(names, text),
        WrittenOperand::Complex(text) => add_term(names, text),
        WrittenOperand::Register(_) | WrittenOperand::Integer(_) => add_none(names),
    }
}

fn add_operands(
    names: &mut Names,
    a: &WrittenOperand<'_>,
    b: &WrittenOperand<'_>,
) -> Result<(), LineFault>
    requires first { IsTrue (is_operand_form (operand_form a.now)) }
    requires second { IsTrue (is_operand_form (operand_form b.now)) }
    ensures named { Gives (λ _. names.new) result (naming names.old (operand_atoms (operand_form a.now) ++ operand_atoms (operand_form b.now))) }
    ensures grown { Extends names.old names.new }
    ensures sound { IsNames names.new }
{
    add_operand(names, a)?;
    add_operand(names, b)
}

fn add_keyed(names: &mut Names, key: &[u8], other: &WrittenOperand<'_>) -> Result<(), LineFault>
    requires first { IsTrue (is_atom_text key.now) }
    requires second { IsTrue (is_operand_form (operand_form other.now)) }
    ensures named { Gives (λ _. names.new) result (naming names.old (key.now ∷ operand_atoms (operand_form other.now))) }
    ensures grown { Extends names.old names.new }
    ensures sound { IsNames names.new }
{
    add_atom(names, key)?;
    add_operand(names, other)
}

#[tactic(auto, using(std::proofs::lemmas::Bool::and_parts))]
fn add_instr(names: &mut Names, instr: &WrittenInstr<'_>) -> Result<(), LineFault>
    requires { IsTrue (is_instr_form (instr_form instr.now)) }
    ensures named { Gives (λ _. names.new) result (naming names.old (instr_atoms (instr_form instr.now))) }
    ensures grown { Extends names.old names.new }
    ensures sound { IsNames names.new }
{
    match instr {
        WrittenInstr::Move { from, .. } => add_operand(names, from),
        WrittenInstr::Add { a, b, .. } => add_operands(names, a, b),
        WrittenInstr::Sub { a, b, .. } => add_operands(names, a, b),
        WrittenInstr::Eq { a, b, .. } => add_operands(names, a, b),
        WrittenInstr::Less { a, b, .. } => add_operands(names, a, b),
        WrittenInstr::Call { name, .. } => add_atom(names, name),
        WrittenInstr::CallExt { module, name, .. } => {
            add_atom(names, module)?;
            add_atom(names, name)
        }
        WrittenInstr::Ret { value } => add_operand(names, value),
        WrittenInstr::Pget { key, .. } => add_atom(names, key),
        WrittenInstr::PgetOr { key, other, .. } => add_keyed(names, key, other),
        WrittenInstr::Elem { index, from, .. } => add_operands(names, index, from),
        WrittenInstr::Print { value } => add_operand(names, value),
        WrittenInstr::Jump { .. } | WrittenInstr::Yield => add_none(names),
    }
}

/// Gives numbers to the atoms of a line. After a fault the names may be more.
#[tactic(auto, using(std::proofs::lemmas::Bool::and_parts))]
pub fn add_atoms(names: &mut Names, line: &WrittenLine<'_>) -> Result<(), LineFault>
    requires { IsTrue (is_line_form (line_form line.now)) }
    ensures named { Gives (λ _. names.new) result (naming names.old (line_atoms (line_form line.now))) }
    ensures grown { Extends names.old names.new }
    ensures sound { IsNames names.new }
{
    match line {
        WrittenLine::Title { name, .. } => add_atom(names, name),
        WrittenLine::Header { name, .. } => add_atom(names, name),
        WrittenLine::Instr(instr) => add_instr(names, instr),
        WrittenLine::Label { .. } | WrittenLine::End => add_none(names),
    }
}
