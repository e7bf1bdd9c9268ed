ghost use Rattle.std.specs.Prelude.{◌≡◌, ◌++◌, [], ◌∷◌, IfOk, OnOk, length};
ghost use Rattle.mod_core.specs.Module.{IsModule};
ghost use Rattle.mod_core.specs.ModuleImage.{instr_len, module_image};

mod function;
mod head;
mod operand;

use crate::code::{Instr, Module};
use crate::image::function::push_functions;
use crate::image::head::push_heads;
use std::alloc::Global;
use term_core::{NoMemory, WordList};

/// The serial of an image that is no instance yet.
const NO_SERIAL: u64 = 0;

/// An image that is being written: the words up to the end of its code, and the images of its constants.
#[derive(Drop)]
pub struct Draft {
    words: WordList,
    constants: WordList,
    /// Where the images of the constants begin, behind the code.
    constants_start: u64,
}

/// The image of an instance of the module, with serial 0 and no breakpoint set.
///
/// At most 1,024 words; places count words from 0. It takes memory. Layout: docs/FORMATS.md.
pub fn encode(alloc: Global, module: &Module) -> Result<WordList, NoMemory>
    requires { IsModule «module».now }
    ensures { IfOk result (λ words. words ≡ module_image «module».now) }
{
    let functions = module.functions.as_slice();
    let mut words = WordList::new(alloc);
    push_title(module, &mut words)?;
    let constants_start = push_heads(functions, &mut words)?;
    let mut draft = Draft {
        words,
        constants: WordList::new(alloc),
        constants_start,
    };
    push_functions(alloc, functions, &mut draft)?;
    close(draft)
}

/// The words up to the end of the code, and the images of the constants behind them.
fn close(draft: Draft) -> Result<WordList, NoMemory>
    ensures { IfOk result (λ words. words ≡ draft.words ++ draft.constants) }
{
    let Draft {
        mut words,
        constants,
        ..
    } = draft;
    words.extend_from_slice(constants.as_slice())?;
    Ok(words)
}

/// The four words before the table of functions. The serial is 0.
fn push_title(module: &Module, words: &mut WordList) -> Result<(), NoMemory>
    ensures { OnOk result (words.new ≡ words.old ++ (0 ∷ «module».now.name.0 ∷ «module».now.version ∷ length «module».now.functions ∷ [])) }
{
    words.push(NO_SERIAL)?;
    words.push(u64::from(module.name.0))?;
    words.push(u64::from(module.version))?;
    words.push(module.functions.len() as u64)
}

/// How many words an instruction has.
pub(crate) fn instr_len(instr: &Instr) -> u64
    ensures { result ≡ instr_len instr.now }
{
    match instr {
        Instr::Yield => 1,
        Instr::Jump { .. } | Instr::Ret { .. } | Instr::Print { .. } => 2,
        Instr::Move { .. } | Instr::Call { .. } | Instr::CallExt { .. } | Instr::Pget { .. } => 3,
        Instr::Add { .. }
        | Instr::Sub { .. }
        | Instr::Eq { .. }
        | Instr::Less { .. }
        | Instr::PgetOr { .. }
        | Instr::Elem { .. } => 4,
    }
}
