//! Instructions that go to no label and call no local function, by their words.

ghost use Rattle.std.specs.Prelude.{◌≡◌, false, IfOk, IsTrue};
ghost use Rattle.mod_core.specs.declared.code.Instr.TheVariants.{Move, Ret, Pget, PgetOr, Print};
ghost use Rattle.mod_text.specs.LineViews.{operand_form};
ghost use Rattle.term_core.specs.Text.Numbers.{is_number_text, number_value};
ghost use Rattle.mod_text.specs.ModuleLine.{move, ret, pget, pget_or, print};
ghost use Rattle.mod_text.specs.ModuleValue.{atom_in, operand_in};
ghost use Rattle.mod_text.specs.LineFaults.{is_high};
ghost use Rattle.mod_text.specs.Keeping.{IsKeptInstr, IsKeptOperand};

use crate::values::{atom_of, operand_of, register_of};
use crate::written::WrittenOperand;
use mod_core::{Instr, Operand};
use std::alloc::Global;
use term_core::{Names, NoMemory};

/// Two operands that are written so.
pub fn operands_of(
    alloc: Global,
    names: &Names,
    a: &WrittenOperand<'_>,
    b: &WrittenOperand<'_>,
) -> Result<(Operand, Operand), NoMemory>
    requires first { IsKeptOperand (operand_form a.now) }
    requires second { IsKeptOperand (operand_form b.now) }
    ensures { IfOk result (λ both. both ≡ (operand_in names.now (operand_form a.now), operand_in names.now (operand_form b.now))) }
{
    let first = operand_of(alloc, names, a)?;
    let second = operand_of(alloc, names, b)?;
    Ok((first, second))
}

/// A `move` of an operand to a register that are written so.
#[tactic(auto, using(std::proofs::lemmas::Bool::and_parts, std::proofs::lemmas::Bool::or_parts))]
pub fn move_of(
    alloc: Global,
    names: &Names,
    from: &WrittenOperand<'_>,
    to: &[u8],
) -> Result<Instr, NoMemory>
    requires { IsKeptInstr (move (operand_form from.now) to.now) }
    ensures { IfOk result (λ i. i ≡ Move (operand_in names.now (operand_form from.now)) (number_value to.now)) }
{
    let from = operand_of(alloc, names, from)?;
    let to = register_of(to);
    Ok(Instr::Move { from, to })
}

/// Two operands and a register that are written so.
pub fn sum_of(
    alloc: Global,
    names: &Names,
    a: &WrittenOperand<'_>,
    b: &WrittenOperand<'_>,
    to: &[u8],
) -> Result<(Operand, Operand, u32), NoMemory>
    requires first { IsKeptOperand (operand_form a.now) }
    requires second { IsKeptOperand (operand_form b.now) }
    requires number { IsTrue (is_number_text to.now) }
    requires low { is_high to.now ≡ false }
    ensures { IfOk result (λ sum. sum ≡ (operand_in names.now (operand_form a.now), operand_in names.now (operand_form b.now), number_value to.now)) }
{
    let (first, second) = operands_of(alloc, names, a, b)?;
    Ok((first, second, register_of(to)))
}

/// A `ret` of an operand that is written so.
pub fn ret_of(alloc: Global, names: &Names, value: &WrittenOperand<'_>) -> Result<Instr, NoMemory>
    requires { IsKeptInstr (ret (operand_form value.now)) }
    ensures { IfOk result (λ i. i ≡ Ret (operand_in names.now (operand_form value.now))) }
{
    let value = operand_of(alloc, names, value)?;
    Ok(Instr::Ret { value })
}

/// A `pget` of a key to a register that are written so.
#[tactic(auto, using(std::proofs::lemmas::Bool::and_parts, std::proofs::lemmas::Bool::or_parts))]
pub fn pget_of(names: &Names, key: &[u8], to: &[u8]) -> Instr
    requires { IsKeptInstr (pget key.now to.now) }
    ensures { result ≡ Pget (atom_in names.now key.now) (number_value to.now) }
{
    let key = atom_of(names, key);
    let to = register_of(to);
    Instr::Pget { key, to }
}

/// A `pget_or` of a key, what stands in for it, and a register that are written so.
#[tactic(auto, using(std::proofs::lemmas::Bool::and_parts, std::proofs::lemmas::Bool::or_parts))]
pub fn pget_or_of(
    alloc: Global,
    names: &Names,
    key: &[u8],
    other: &WrittenOperand<'_>,
    to: &[u8],
) -> Result<Instr, NoMemory>
    requires { IsKeptInstr (pget_or key.now (operand_form other.now) to.now) }
    ensures { IfOk result (λ i. i ≡ PgetOr (atom_in names.now key.now) (operand_in names.now (operand_form other.now)) (number_value to.now)) }
{
    let other = operand_of(alloc, names, other)?;
    let key = atom_of(names, key);
    let to = register_of(to);
    Ok(Instr::PgetOr { key, other, to })
}

/// A `print` of an operand that is written so.
pub fn print_of(alloc: Global, names: &Names, value: &WrittenOperand<'_>) -> Result<Instr, NoMemory>
    requires { IsKeptInstr (print (operand_form value.now)) }
    ensures { IfOk result (λ i. i ≡ Print (operand_in names.now (operand_form value.now))) }
{
    let value = operand_of(alloc, names, value)?;
    Ok(Instr::Print { value })
}
