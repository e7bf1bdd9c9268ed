//! The words of a function table.

ghost use Rattle.std.specs.Prelude.{◌≡◌, ◌≤◌, ◌++◌, IfOk, OnOk};
ghost use Rattle.mod_core.specs.ModuleImage.{code_start, constants_start, function_head, function_heads, function_len};

use crate::code::{Function, Instr, LONGEST_IMAGE, Operand};
use crate::image::instr_len;
use crate::layout::HEAD_WORDS;
use term_core::{AtomId, NoMemory, Term, WordList};

/// The entry word of a function with no breakpoint.
const ENTER: u64 = 0;

/// The table of functions, each with the place of its first instruction. Answers the place behind all their code.
pub fn push_heads(functions: &[Function], words: &mut WordList) -> Result<u64, NoMemory>
    requires { constants_start functions.now ≤ LONGEST_IMAGE }
    ensures table { OnOk result (words.new ≡ words.old ++ function_heads (code_start functions.now) functions.now) }
    ensures end { IfOk result (λ end. end ≡ constants_start functions.now) }
{
    let mut place = (HEAD_WORDS + HEAD_WORDS * functions.len()) as u64;
    for function in functions {
        push_head(function, place, words)?;
        place += function_len(function);
    }
    Ok(place)
}

/// The four words of a function in the table of functions.
fn push_head(function: &Function, place: u64, words: &mut WordList) -> Result<(), NoMemory>
    ensures { OnOk result (words.new ≡ words.old ++ function_head function.now place) }
{
    words.push(u64::from(function.name.0))?;
    words.push(u64::from(function.arity) * 2 + u64::from(function.exported))?;
    words.push(ENTER)?;
    words.push(place)
}

/// How many words the code of a function has, with the return at its end.
fn function_len(function: &Function) -> u64
    requires { function_len function.now ≤ LONGEST_IMAGE }
    ensures { result ≡ function_len function.now }
{
    let mut len = instr_len(&Instr::Ret {
        value: Operand::Const(Term::Atom(AtomId::OK)),
    });
    for instr in function.code.as_slice() {
        len += instr_len(instr);
    }
    len
}
