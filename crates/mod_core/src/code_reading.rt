//! Reading the code of a function from the words of an image.

ghost use Rattle.std.specs.Prelude.{◌≡◌, ℕ, ◌+◌, ◌*◌, ◌<◌, ◌≤◌, ◌↔◌, IfOk, IsTrue, OnErr, OnOk, length, map, slice_index};
ghost use Rattle.term_core.specs.Gives.{GivesUnless};
ghost use Rattle.mod_core.specs.ModuleImage.{constants_len, instr_constants, placed};
ghost use Rattle.mod_core.specs.declared.code.TheConstants.{LONGEST_IMAGE, MOST_FUNCTIONS};
ghost use Rattle.mod_core.specs.declared.code.Function.{Function};
ghost use Rattle.mod_core.specs.declared.code.Module.{Module};
ghost use Rattle.mod_core.specs.Decoding.{code_end, IsFunctionIn, IsLeft, IsRow, IsWholeRow, ReadsWords, ReadsTo, number_at};

use crate::code::{Instr, InstrList};
use crate::image::instr_len;
use crate::instr_reading::read_instr;
use crate::layout::{COUNT_PLACE, HEAD_WORDS, RETURN_WORDS};
use crate::validity::left_behind_constants;
use crate::words::{number_from, word_at};
use std::alloc::Global;
use term_core::{ImageFault, WordList};

/// What has been read of a function's code.
#[derive(Drop)]
pub(crate) struct Row {
    /// The instructions, whose targets are places still.
    pub(crate) instrs: Vec<Instr>,
    /// The place of each.
    pub(crate) places: WordList,
    /// Where the next instruction stands.
    pub(crate) place: usize,
    /// How many words of the image are left without those of the constants so far.
    pub(crate) left: usize,
}

/// How many of so many words are left without those of an instruction's constants.
fn left_without(left: usize, instr: &Instr) -> Result<usize, ImageFault>
    ensures ok { IfOk result (λ rest. rest + constants_len (instr_constants instr.now) ≡ left) }
    ensures err { OnErr result (left < constants_len (instr_constants instr.now)) }
{
    match left_behind_constants(left, instr) {
        Some(rest) => Ok(rest),
        None => Err(ImageFault::Bad),
    }
}

/// Reads one instruction more.
fn read_next(alloc: Global, words: &[u64], row: &mut Row) -> Result<(), ImageFault>
    requires short { length words.now ≤ LONGEST_IMAGE }
    requires within { row.old.place < length words.now }
    ensures goes_on { OnOk result (row.old.place < row.new.place) }
    ensures reads { (m : Module) (number : ℕ) (f : Function) → IsFunctionIn words.now m number f → (r : IsRow m number f row.old) → r.count < length f.code → ReadsWords result (IsRow m number f row.new) }
{
    let instr = read_instr(alloc, words, row.place)?;
    row.left = left_without(row.left, &instr)?;
    row.places.push(row.place as u64)?;
    row.place += instr_len(&instr) as usize;
    row.instrs.push(instr)?;
    Ok(())
}

/// Where the table of functions tells that the code of a function begins.
fn told_place(words: &[u64], number: usize) -> u64
    requires { number ≤ MOST_FUNCTIONS }
    ensures { result ≡ slice_index words.now (4 + 4 * number + 3) }
{
    word_at(words, HEAD_WORDS + HEAD_WORDS * number + 3)
}

/// Where the code of a function, with the return at its end, has ended: at the next function or, behind the last one,
/// where so many words are left.
fn code_end(words: &[u64], number: usize, left: usize) -> u64
    requires { number < MOST_FUNCTIONS }
    ensures { result ≡ code_end words.now number left }
{
    if number as u64 + 1 < word_at(words, COUNT_PLACE) {
        told_place(words, number + 1)
    } else {
        left as u64
    }
}

/// Whether the function with a number has an instruction more.
fn has_more(words: &[u64], number: usize, row: &Row) -> bool
    requires short { length words.now ≤ LONGEST_IMAGE }
    requires number { number < MOST_FUNCTIONS }
    ensures within { IsTrue result → row.now.place < length words.now }
    ensures exact { (m : Module) (f : Function) → IsFunctionIn words.now m number f → (r : IsRow m number f row.now) → IsTrue result ↔ (r.count < length f.code) }
{
    let end = code_end(words, number, row.left);
    row.place < words.len() && ((row.place + RETURN_WORDS) as u64) < end
}

/// Reads the instructions of the function with a number. So many words are left without the constants of those before it.
fn read_row(alloc: Global, words: &[u64], number: usize, left: usize) -> Result<Row, ImageFault>
    requires short { length words.now ≤ LONGEST_IMAGE }
    requires number { number < MOST_FUNCTIONS }
    ensures { (m : Module) (f : Function) → IsFunctionIn words.now m number f → IsLeft m number left → ReadsTo result (IsWholeRow m number f) }
{
    let mut row = Row {
        instrs: Vec::new(alloc),
        places: WordList::new(alloc),
        place: told_place(words, number) as usize,
        left,
    };
    while has_more(words, number, &row) {
        read_next(alloc, words, &mut row)?;
    }
    row.places.push(row.place as u64)?;
    Ok(row)
}

/// How many places are before this one: the number of the instruction there.
fn number_at(places: &[u64], place: u32) -> u32
    ensures { result ≡ number_at places.now place }
{
    let before = places
        .iter()
        .filter(|other| **other < u64::from(place))
        .count();
    number_from(before as u64)
}

/// Makes the place of a target the number of the instruction there.
fn set_target(instr: &mut Instr, places: &[u64])
    ensures { instr.new ≡ placed (number_at places.now) instr.old }
{
    match instr {
        Instr::Eq { target, .. } => *target = number_at(places, *target),
        Instr::Less { target, .. } => *target = number_at(places, *target),
        Instr::Jump { target } => *target = number_at(places, *target),
        _ => {}
    }
}

/// Makes the places of all targets numbers.
fn set_targets(instrs: &mut [Instr], places: &[u64])
    ensures { instrs.new ≡ map (placed (number_at places.now)) instrs.old }
{
    for instr in instrs.iter_mut() {
        set_target(instr, places);
    }
}

/// The instructions, whose targets are numbers now.
fn numbered(mut instrs: Vec<Instr>, places: &[u64]) -> InstrList
    ensures { result ≡ map (placed (number_at places.now)) instrs.items }
{
    set_targets(&mut instrs, places);
    InstrList::from_vec(instrs)
}

/// Reads the code of the function with a number. So many words are left without the constants of those before it, and
/// then without its own.
pub(crate) fn read_code(
    alloc: Global,
    words: &[u64],
    number: usize,
    left: &mut usize,
) -> Result<InstrList, ImageFault>
    requires short { length words.now ≤ LONGEST_IMAGE }
    requires number { number < MOST_FUNCTIONS }
    ensures code { (m : Module) (f : Function) → IsFunctionIn words.now m number f → IsLeft m number left.old → GivesUnless ImageFault.NoMemory result f.code }
    ensures left { (m : Module) (f : Function) → IsFunctionIn words.now m number f → IsLeft m number left.old → OnOk result (IsLeft m (number + 1) left.new) }
{
    let row = read_row(alloc, words, number, *left)?;
    *left = row.left;
    Ok(numbered(row.instrs, row.places.as_slice()))
}
