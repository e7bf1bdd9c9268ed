//! A whole text, line by line.

ghost use Rattle.std.specs.Prelude.{◌≡◌, ℕ, ◌+◌, ◌<◌, ◌≤◌, List, [], Ok, length, ◌==◌, ◌&&◌, not, bytes_eq, codes, IfOk, IfErr, IfSome};
ghost use Rattle.term_core.specs.Gives.{GivesUnless, RefusesUnless};
ghost use Rattle.term_core.specs.Names.{IsNames, Extends};
ghost use Rattle.term_core.specs.declared.names.TheConstants.{MOST_NAMES};
ghost use Rattle.mod_core.specs.declared.code.Module.{Module as ModuleValue};
ghost use Rattle.mod_text.specs.declared.fault.LineFault.{LineFault as LineFaultValue};
ghost use Rattle.mod_core.specs.HeldNames.{IsModuleHeld};
ghost use Rattle.mod_text.specs.Ending.{Ends, IsFaultOr, IsLabelFault};
ghost use Rattle.mod_core.specs.Module.{IsModule};
ghost use Rattle.mod_text.specs.Reading.{bytes_on, read_behind, StopsSo};
ghost use Rattle.mod_text.specs.ModuleText.{ModuleText, FirstFault, MissingAt, HasModFault, mod_fault};

use crate::fault::{FinishFault, LineFault, LineStop, ModFault};
use crate::reader::ModuleReader;
use mod_core::Module;
use std::alloc::Global;
use term_core::{AtomId, Names, cut_at};

fn syntax_at(number: usize) -> LineStop
    ensures { result ≡ record { number = number; fault = LineFault.Syntax } }
{
    LineStop {
        number,
        fault: LineFault::Syntax,
    }
}

/// Whether the text stops behind a line that is not `end`.
fn stops_behind(text: &[u8], behind: &[u8]) -> bool
    ensures { result ≡ ((length behind.now == 0) && not (bytes_eq text.now (codes "end"))) }
{
    behind.is_empty() && text != b"end".as_slice()
}

/// Reads the line at the front of the bytes, and says what is behind it.
fn read_one<'a>(
    reader: &mut ModuleReader<'a>,
    names: &mut Names,
    bytes: &'a [u8],
) -> Result<&'a [u8], LineStop>
    ensures ok { IfOk result (λ behind. bytes_on names.old reader.old bytes.now ≡ read_behind names.new reader.new behind.now) }
    ensures shorter { IfOk result (λ behind. length behind.now < length bytes.now) }
    ensures stop { IfErr result (StopsSo (bytes_on names.old reader.old bytes.now)) }
    ensures grown { Extends names.old names.new }
    ensures sound { IsNames names.new }
{
    // So the proof knows what a table keeps.
    let _ = names.text(AtomId::TRUE);
    let number = reader.len();
    match cut_at(bytes, b'\n') {
        None => Err(syntax_at(number)),
        Some((text, behind)) => {
            if stops_behind(text, behind) {
                return Err(syntax_at(number));
            }
            match reader.line(names, text) {
                Ok(()) => Ok(behind),
                Err(fault) => Err(LineStop { number, fault }),
            }
        }
    }
}

/// Reads the lines of a text, up to `end`.
fn read_lines<'a>(
    alloc: Global,
    names: &mut Names,
    bytes: &'a [u8],
) -> Result<ModuleReader<'a>, LineStop>
    ensures ok { IfOk result (λ reader. bytes_on names.old [] bytes.now ≡ Ok (names.new, reader)) }
    ensures stop { IfErr result (StopsSo (bytes_on names.old [] bytes.now)) }
    ensures grown { Extends names.old names.new }
    ensures sound { IsNames names.new }
{
    let mut reader = ModuleReader::new(alloc);
    let mut rest = bytes;
    'lines: loop {
        let behind = read_one(&mut reader, names, rest)?;
        if behind.is_empty() {
            return Ok(reader);
        }
        rest = behind;
    }
}

/// The number of a line, if a `u32` counts so far.
fn line_number(first: u32, number: usize) -> Option<u32>
    ensures { IfSome result (λ line. line ≡ first + number) }
{
    let number = u32::try_from(number).ok()?;
    first.checked_add(number)
}

fn fault_at(line: u32, fault: LineFault) -> ModFault
    ensures { result ≡ mod_fault line fault }
{
    match fault {
        LineFault::Syntax => ModFault::Syntax { line },
        LineFault::Register => ModFault::Register { line },
        LineFault::Int => ModFault::Int { line },
        LineFault::Term => ModFault::Term { line },
        LineFault::Names => ModFault::Names { line },
        LineFault::TooManyFunctions => ModFault::TooManyFunctions { line },
        LineFault::TooLong => ModFault::TooLong { line },
        LineFault::Duplicate => ModFault::Duplicate { line },
        LineFault::NoMemory => ModFault::NoMemory,
    }
}

fn stopped(first: u32, stop: LineStop) -> ModFault
    ensures { IsFaultOr result (mod_fault (first + stop.number) stop.fault) }
{
    match line_number(first, stop.number) {
        Some(line) => fault_at(line, stop.fault),
        None => ModFault::NoMemory,
    }
}

fn unsettled(first: u32, fault: FinishFault) -> ModFault
    ensures { IsLabelFault first fault result }
{
    match fault {
        FinishFault::NoMemory => ModFault::NoMemory,
        FinishFault::Missing { number } => match line_number(first, number) {
            Some(line) => ModFault::Label { line },
            None => ModFault::NoMemory,
        },
    }
}

/// Reads a whole text.
fn read_text(alloc: Global, names: &mut Names, lines: &[u8], first: u32) -> Result<Module, ModFault>
    ensures ends { Ends names.old lines.now first names.new result }
    ensures room { length names.old ≤ MOST_NAMES }
    ensures grown { Extends names.old names.new }
    ensures sound { IsNames names.new }
{
    // So the proof knows what a table keeps.
    let _ = names.text(AtomId::TRUE);
    match read_lines(alloc, names, lines) {
        Err(stop) => Err(stopped(first, stop)),
        Ok(reader) => match reader.finish(alloc, names) {
            Ok(module) => Ok(module),
            Err(fault) => Err(unsettled(first, fault)),
        },
    }
}

/// Reads the lines from `module NAME.VERSION` to `end`, whose first one has the number `first`. New atoms get the next
/// numbers, in order.
///
/// It takes memory. A fault at a line whose number is over the greatest `u32` is answered as want of memory. After a fault
/// the names may be more than before.
pub fn read_module(
    alloc: Global,
    names: &mut Names,
    lines: &[u8],
    first: u32,
) -> Result<Module, ModFault>
    // What is read is the text of this module, and each text of a module is read.
    ensures ok { IfOk result (λ m. ModuleText names.old lines.now m names.new) }
    ensures only { (m : ModuleValue) (after : List (List ℕ)) → ModuleText names.old lines.now m after → GivesUnless ModFault.NoMemory result m }
    ensures sound { IfOk result IsModule }
    ensures held { IfOk result (IsModuleHeld names.new) }

    // Each refusal has its cause, and each cause its refusal.
    ensures cause { IfErr result (HasModFault names.old lines.now first) }
    ensures fault { (number : ℕ) (fault : LineFaultValue) → FirstFault names.old lines.now number fault → RefusesUnless ModFault.NoMemory result (mod_fault (first + number) fault) }
    ensures missing { (number : ℕ) → MissingAt names.old lines.now number → RefusesUnless ModFault.NoMemory result (ModFault.Label (first + number)) }

    ensures grown { Extends names.old names.new }
    ensures named { IsNames names.new }
{
    read_text(alloc, names, lines, first)
}
