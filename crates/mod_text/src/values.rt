//! What the words of a line say.

ghost use Rattle.std.specs.Prelude.{◌≡◌, ◌^◌, ◌<◌, false, IfOk, IsTrue};
ghost use Rattle.term_core.specs.Written.{IsTermInteger, is_integer_text, integer_of as integer_in};
ghost use Rattle.mod_text.specs.LineFaults.{is_high, has_high_operand, is_wide_operand};
ghost use Rattle.mod_text.specs.LineViews.{operand_form, integer_form, complex_form};
ghost use Rattle.term_core.specs.Text.Numbers.{is_number_text, number_value};
ghost use Rattle.mod_text.specs.ModuleLine.{is_arity_text, is_operand_form};
ghost use Rattle.mod_text.specs.ModuleValue.{atom_in, mfa_in, operand_in};

use crate::written::WrittenOperand;
use mod_core::Operand;
use std::alloc::Global;
use term_core::{AtomId, Mfa, Names, NoMemory, Term, parsed_integer, small_number, term_in};

/// The atom with this text, which the names hold.
pub fn atom_of(names: &Names, text: &[u8]) -> AtomId
    ensures { result ≡ atom_in names.now text.now }
{
    match names.get(text) {
        Some(atom) => atom,
        None => AtomId(0),
    }
}

/// The number that digits write, which has 32 bits.
pub fn value_of(digits: &[u8]) -> u32
    requires number { IsTrue (is_number_text digits.now) }
    requires small { number_value digits.now < 2 ^ 32 }
    ensures { result ≡ number_value digits.now }
{
    small_number(digits).unwrap()
}

/// The register that digits write.
pub fn register_of(digits: &[u8]) -> u32
    requires number { IsTrue (is_number_text digits.now) }
    requires low { is_high digits.now ≡ false }
    ensures { result ≡ number_value digits.now }
{
    value_of(digits)
}

fn integer_value(text: &[u8]) -> i64
    requires form { IsTrue (is_integer_text text.now) }
    requires narrow { IsTermInteger (integer_in text.now) }
    ensures { result ≡ integer_in text.now }
{
    parsed_integer(text).unwrap()
}

/// The constant that an integer's text says.
#[tactic(auto, using(crate::proofs::WrittenTerms::integer_if, crate::proofs::WrittenTerms::integer_says))]
fn integer_of(names: &Names, text: &[u8]) -> Operand
    requires form { IsTrue (is_operand_form (integer_form text.now)) }
    requires narrow { is_wide_operand (integer_form text.now) ≡ false }
    ensures { result ≡ operand_in names.now (integer_form text.now) }
{
    Operand::Const(Term::Int(integer_value(text)))
}

/// The constant that a tuple's or a list's text says.
fn complex_of(alloc: Global, names: &Names, text: &[u8]) -> Result<Operand, NoMemory>
    requires form { IsTrue (is_operand_form (complex_form text.now)) }
    requires narrow { is_wide_operand (complex_form text.now) ≡ false }
    ensures { IfOk result (λ operand. operand ≡ operand_in names.now (complex_form text.now)) }
{
    let term = term_in(alloc, names, text)?;
    Ok(Operand::Const(term))
}

/// The operand that is written so.
///
/// It takes memory where the operand is a tuple or a list.
pub fn operand_of(
    alloc: Global,
    names: &Names,
    operand: &WrittenOperand<'_>,
) -> Result<Operand, NoMemory>
    requires sound { IsTrue (is_operand_form (operand_form operand.now)) }
    requires low { has_high_operand (operand_form operand.now) ≡ false }
    requires narrow { is_wide_operand (operand_form operand.now) ≡ false }
    ensures { IfOk result (λ o. o ≡ operand_in names.now (operand_form operand.now)) }
{
    match operand {
        WrittenOperand::Register(digits) => Ok(Operand::Reg(register_of(digits))),
        WrittenOperand::Integer(text) => Ok(integer_of(names, text)),
        WrittenOperand::Atom(text) => Ok(Operand::Const(Term::Atom(atom_of(names, text)))),
        WrittenOperand::Complex(text) => complex_of(alloc, names, text),
    }
}

/// The name of an external function that is written so.
pub fn mfa_of(names: &Names, module: &[u8], name: &[u8], arity: &[u8]) -> Mfa
    requires { IsTrue (is_arity_text arity.now) }
    ensures { result ≡ mfa_in names.now «module».now name.now arity.now }
{
    Mfa {
        module: atom_of(names, module),
        name: atom_of(names, name),
        arity: value_of(arity),
    }
}
