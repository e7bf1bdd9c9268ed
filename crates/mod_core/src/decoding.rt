//! Reading a module from the words of an image.

ghost use Rattle.std.specs.Prelude.{◌≡◌, ◌+◌, ◌<◌, ◌≤◌, ◌↔◌, IfOk, IsErrOf, IsTrue, OnOk, if◌then◌else◌, length};
ghost use Rattle.term_core.specs.Gives.{GivesUnless};
ghost use Rattle.mod_core.specs.declared.code.TheConstants.{LONGEST_IMAGE, MOST_FUNCTIONS};
ghost use Rattle.mod_core.specs.declared.code.Function.{Function};
ghost use Rattle.mod_core.specs.declared.code.Module.{Module};
ghost use Rattle.mod_core.specs.Decoding.{IsFunctionIn, IsLeft, IsUnmarked, is_mark};
ghost use Rattle.mod_core.specs.Module.{IsModule};
ghost use Rattle.mod_core.specs.ModuleImage.{IsImageOfModule, module_image};

use crate::code::{Function, FunctionList, LONGEST_IMAGE, MOST_FUNCTIONS, Module};
use crate::code_reading::read_code;
use crate::image::encode;
use crate::layout::{COUNT_PLACE, FIRST_ENTRY, HEAD_WORDS};
use crate::validity::validate;
use crate::words::{number_from, word_at};
use std::alloc::Global;
use term_core::{AtomId, ImageFault, NoMemory, WordList};

/// Reads the module whose image the words are, whatever serial and entry words they carry.
///
/// It takes memory, and keeps that of the module. `ImageFault::Bad` where the words are the image of no module.
pub fn decode(alloc: Global, words: &[u64]) -> Result<Module, ImageFault>
    ensures ok { IfOk result (λ m. IsModule m × IsImageOfModule m words.now) }
    ensures only { (m : Module) → IsModule m → IsImageOfModule m words.now → GivesUnless ImageFault.NoMemory result m }
    ensures cause { IsErrOf result ImageFault.Bad → (m : Module) → IsModule m → IsImageOfModule m words.now → ⊥ }
{
    if words.len() > LONGEST_IMAGE {
        return Err(ImageFault::Bad);
    }
    let unmarked = without_marks(alloc, words)?;
    decode_unmarked(alloc, unmarked.as_slice())
}

/// Reads the module whose image the words are, as `encode` gives it.
fn decode_unmarked(alloc: Global, words: &[u64]) -> Result<Module, ImageFault>
    requires { length words.now ≤ LONGEST_IMAGE }
    ensures ok { IfOk result (λ m. IsModule m × (words.now ≡ module_image m)) }
    ensures only { (m : Module) → IsModule m → words.now ≡ module_image m → GivesUnless ImageFault.NoMemory result m }
{
    let module = read_module(alloc, words)?;
    if !is_image_of(alloc, words, &module)? {
        return Err(ImageFault::Bad);
    }
    Ok(module)
}

/// Whether this is a module, and the words its image.
fn is_image_of(alloc: Global, words: &[u64], module: &Module) -> Result<bool, NoMemory>
    ensures { IfOk result (λ yes. IsTrue yes ↔ (IsModule «module».now × (words.now ≡ module_image «module».now))) }
{
    if !validate(module) {
        return Ok(false);
    }
    let image = encode(alloc, module)?;
    Ok(words == image.as_slice())
}

/// Whether an image with so many functions has its serial or an entry word at a place.
fn is_mark(count: u64, at: usize) -> bool
    ensures { result ≡ is_mark count at }
{
    if at < FIRST_ENTRY {
        return at == 0;
    }
    let behind = at - FIRST_ENTRY;
    behind % HEAD_WORDS == 0 && ((behind / HEAD_WORDS) as u64) < count
}

/// The word at a place, or 0 where that is the serial's or an entry word's.
fn without_mark(count: u64, at: usize, word: u64) -> u64
    ensures { result ≡ (if is_mark count at then 0 else word) }
{
    if is_mark(count, at) { 0 } else { word }
}

/// A copy of the words in which the serial and the entry words are 0.
fn without_marks(alloc: Global, words: &[u64]) -> Result<WordList, NoMemory>
    ensures { IfOk result (λ copy. IsUnmarked words.now copy) }
{
    let count = word_at(words, COUNT_PLACE);
    let mut copy = WordList::new(alloc);
    for (at, word) in words.iter().enumerate() {
        copy.push(without_mark(count, at, *word))?;
    }
    Ok(copy)
}

/// Reads a module from the words of an image. Other words give some module, which has another image, or a fault.
fn read_module(alloc: Global, words: &[u64]) -> Result<Module, ImageFault>
    requires { length words.now ≤ LONGEST_IMAGE }
    ensures { (m : Module) → IsModule m → words.now ≡ module_image m → GivesUnless ImageFault.NoMemory result m }
{
    let functions = read_functions(alloc, words)?;
    Ok(Module {
        name: AtomId(number_from(word_at(words, 1))),
        version: number_from(word_at(words, 2)),
        functions,
    })
}

/// Reads the functions, and leaves out those that are too many.
fn read_functions(alloc: Global, words: &[u64]) -> Result<FunctionList, ImageFault>
    requires { length words.now ≤ LONGEST_IMAGE }
    ensures { (m : Module) → IsModule m → words.now ≡ module_image m → GivesUnless ImageFault.NoMemory result m.functions }
{
    let count = word_at(words, COUNT_PLACE);
    let mut functions = FunctionList::new(alloc);
    let mut left = words.len();
    for number in 0..MOST_FUNCTIONS {
        if number as u64 >= count {
            return Ok(functions);
        }
        let function = read_function(alloc, words, number, &mut left)?;
        functions.push(function)?;
    }
    Ok(functions)
}

/// Reads the function with a number. So many words are left without the constants of those before it, and then without its
/// own.
fn read_function(
    alloc: Global,
    words: &[u64],
    number: usize,
    left: &mut usize,
) -> Result<Function, ImageFault>
    requires short { length words.now ≤ LONGEST_IMAGE }
    requires number { number < MOST_FUNCTIONS }
    ensures function { (m : Module) (f : Function) → IsFunctionIn words.now m number f → IsLeft m number left.old → GivesUnless ImageFault.NoMemory result f }
    ensures left { (m : Module) (f : Function) → IsFunctionIn words.now m number f → IsLeft m number left.old → OnOk result (IsLeft m (number + 1) left.new) }
{
    let head = HEAD_WORDS + HEAD_WORDS * number;
    let name = number_from(word_at(words, head));
    let arity = word_at(words, head + 1);
    let code = read_code(alloc, words, number, left)?;
    Ok(Function {
        name: AtomId(name),
        arity: number_from(arity / 2),
        exported: arity % 2 == 1,
        code,
    })
}
