//! Reading a script: one pass over the lines of its text.

mod adding;
mod cause;
mod line;
mod naming;
mod reader;
mod sets;
pub(crate) mod words;
mod written;

ghost use Rattle.std.specs.Prelude.{◌≡◌, ◌≤◌, ◌⊎◌, length, IfOk, IfErr};
ghost use Rattle.term_core.specs.Gives.{GivesUnless, RefusesUnless};
ghost use Rattle.script_core.specs.declared.script.Script.{Script as ScriptValue};
ghost use Rattle.script_text.specs.declared.fault.ScriptFault.{ScriptFault as FaultValue};
ghost use Rattle.script_text.specs.ScriptText.{ScriptText, FaultOf};
ghost use Rattle.script_core.specs.Sound.{IsScript};
ghost use Rattle.script_text.specs.Causes.{GivesText};
ghost use Rattle.script_text.specs.Reading.{opening, bytes_on, script_reading};

use crate::fault::ScriptFault;
use crate::reading::reader::ScriptReader;
use script_core::{LONGEST_SCRIPT, Script};
use std::alloc::Global;
use term_core::cut_at;

/// The lines of a text, one after another.
fn read_lines(alloc: Global, text: &[u8]) -> Result<Script, ScriptFault>
    requires short { length text.now ≤ LONGEST_SCRIPT }
    ensures { GivesText (λ s. s) result (bytes_on opening 1 text.now) }
{
    let mut reader = ScriptReader::new(alloc)?;
    let mut rest = text;
    let mut number = 1u32;
    'lines: while let Some((line, behind)) = cut_at(rest, b'\n') {
        reader.judge_line(alloc, line, number, behind.is_empty())?;
        number += 1;
        rest = behind;
    }
    reader.end_text(rest, number)
}

/// What a text is read as.
fn read_text(alloc: Global, text: &[u8]) -> Result<Script, ScriptFault>
    ensures { GivesText (λ s. s) result (script_reading text.now) }
{
    if text.len() > LONGEST_SCRIPT {
        return Err(ScriptFault::FileTooLong);
    }
    read_lines(alloc, text)
}

/// Reads a script, all of the text. It takes memory, and goes over the bytes a fixed number of times.
///
/// The form of the text: docs/FORMATS.md, "Scripts".
pub fn read_script(alloc: Global, text: &[u8]) -> Result<Script, ScriptFault>
    // What is read is the script of this text.
    ensures found { IfOk result (λ s. ScriptText text.now s) }
    // What a text is the text of is read, unless memory runs out.
    ensures only { (s : ScriptValue) → ScriptText text.now s → GivesUnless ScriptFault.NoMemory result s }

    // What is refused has this one fault, and what has a fault is refused with it, unless memory runs out.
    ensures fault { IfErr result (λ f. FaultOf text.now f ⊎ (f ≡ ScriptFault.NoMemory)) }
    ensures refused { (f : FaultValue) → FaultOf text.now f → RefusesUnless ScriptFault.NoMemory result f }

    // What every script has, for those who run it.
    ensures sound { IfOk result IsScript }
{
    read_text(alloc, text)
}
