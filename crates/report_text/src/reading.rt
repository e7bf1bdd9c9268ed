//! Reading a report: one pass over its lines.

ghost use Rattle.std.specs.Prelude.{◌≡◌, ◌+◌, ◌<◌, ◌≤◌, ◌^◌, ◌⊎◌, length, IfOk, IfErr};
ghost use Rattle.term_core.specs.Gives.{GivesUnless, RefusesUnless};
ghost use Rattle.term_core.specs.Names.{IsNames};
ghost use Rattle.run_log.specs.declared.logs.RunLog.{RunLog as LogValue};
ghost use Rattle.run_log.specs.Report.{rendering_of};
ghost use Rattle.run_log.specs.WellFormed.{IsWellFormed};
ghost use Rattle.report_text.specs.declared.fault.ReportFault.{ReportFault as FaultValue};
ghost use Rattle.report_text.specs.ReportText.{FaultOf};
ghost use Rattle.report_text.specs.WordReading.{ReadsWord};
ghost use Rattle.report_text.specs.Taking.{report_opening};
ghost use Rattle.report_text.specs.Reading.{Gives, line_taken, numbered, ended_log, last_number, text_ended, bytes_on};

use crate::fault::ReportFault;
use crate::line::read_line;
use crate::line_fault::LineFault;
use crate::state::{ReportState, Stage, opening, take_line};
use run_log::RunLog;
use std::alloc::Global;
use term_core::{AtomId, Names, cut_at};

/// The state behind a line of the text.
fn take_text(
    alloc: Global,
    names: &Names,
    state: ReportState,
    text: &[u8],
) -> Result<ReportState, LineFault>
    ensures { ReadsWord (λ state. state) result (line_taken names.now state text.now) }
{
    let line = read_line(alloc, names, text)?;
    take_line(alloc, state, line)
}

/// The state behind the line of this number.
fn take_numbered(
    alloc: Global,
    names: &Names,
    state: ReportState,
    text: &[u8],
    number: u64,
) -> Result<ReportState, ReportFault>
    requires { number < 2 ^ 32 }
    ensures { Gives (λ state. state) result (numbered number (line_taken names.now state text.now)) }
{
    match take_text(alloc, names, state, text) {
        Ok(next) => Ok(next),
        Err(LineFault::Form) => Err(ReportFault::Syntax {
            line: number as u32,
        }),
        Err(LineFault::NoMemory) => Err(ReportFault::NoMemory),
    }
}

/// The log behind the last line, which has this number, where the report has ended.
fn end_log(state: ReportState, number: u64) -> Result<RunLog, ReportFault>
    requires { number < 2 ^ 32 }
    ensures { Gives (λ log. log) result (ended_log number state.log state.stage) }
{
    let ReportState { log, stage } = state;
    match stage {
        Stage::Done => Ok(log),
        _ => Err(ReportFault::Syntax {
            line: number as u32,
        }),
    }
}

/// The number of the last line where the next one would have this number, or 1 where there is none.
fn last_number(next: u64) -> u64
    ensures { result ≡ last_number next }
{
    if next > 1 { next - 1 } else { 1 }
}

/// The log behind the lines that have ended. The next one would have this number; bytes without a line feed are a last line.
fn end_text(state: ReportState, tail: &[u8], next: u64) -> Result<RunLog, ReportFault>
    requires { next + length tail.now ≤ 2 ^ 32 }
    ensures { Gives (λ log. log) result (text_ended next state tail.now) }
{
    if tail.is_empty() {
        end_log(state, last_number(next))
    } else {
        Err(ReportFault::Syntax { line: next as u32 })
    }
}

/// The log of a text, line by line.
fn read_lines(alloc: Global, names: &Names, text: &[u8]) -> Result<RunLog, ReportFault>
    requires { length text.now < 2 ^ 32 }
    ensures { Gives (λ log. log) result (bytes_on names.now report_opening 1 text.now) }
{
    let mut state = opening(alloc);
    let mut rest = text;
    let mut number = 1u64;
    'lines: while let Some((line, behind)) = cut_at(rest, b'\n') {
        state = take_numbered(alloc, names, state, line, number)?;
        number += 1;
        rest = behind;
    }
    end_text(state, rest, number)
}

/// The names are a table, as each look-up tells.
fn are_names(names: &Names)
    ensures { IsNames names.now }
{
    let _first = names.text(AtomId::TRUE);
}

/// The same of a text whose lines can be counted by a `u32`.
fn read_counted(alloc: Global, names: &Names, text: &[u8]) -> Result<RunLog, ReportFault>
    requires { length text.now < 2 ^ 32 }
    ensures found { IfOk result (λ log. IsWellFormed names.now log × (rendering_of names.now log ≡ text.now)) }
    ensures only { (log : LogValue) → IsWellFormed names.now log → rendering_of names.now log ≡ text.now → GivesUnless ReportFault.NoMemory result log }
    ensures fault { IfErr result (λ f. FaultOf names.now text.now f ⊎ (f ≡ ReportFault.NoMemory)) }
    ensures refused { (f : FaultValue) → FaultOf names.now text.now f → RefusesUnless ReportFault.NoMemory result f }
{
    are_names(names);
    read_lines(alloc, names, text)
}

/// Reads a report, all of the text. The names are those of the script. It takes memory, and goes over the bytes a fixed number of times.
///
/// A text of 2^32 bytes or more is answered as want of memory, since a line of it may have no number. The form of the text:
/// docs/FORMATS.md, "Reports".
pub fn read_report(alloc: Global, names: &Names, text: &[u8]) -> Result<RunLog, ReportFault>
    // What is read is the log whose report the text is.
    ensures found { IfOk result (λ log. IsWellFormed names.now log × (rendering_of names.now log ≡ text.now)) }
    // What a text is the report of is read, unless memory runs out.
    ensures only { (log : LogValue) → IsWellFormed names.now log → rendering_of names.now log ≡ text.now → GivesUnless ReportFault.NoMemory result log }

    // What is refused has this one fault, and what has a fault is refused with it, unless memory runs out.
    ensures fault { IfErr result (λ f. FaultOf names.now text.now f ⊎ (f ≡ ReportFault.NoMemory)) }
    ensures refused { (f : FaultValue) → FaultOf names.now text.now f → RefusesUnless ReportFault.NoMemory result f }
{
    if text.len() >= 1 << 32 {
        return Err(ReportFault::NoMemory);
    }
    read_counted(alloc, names, text)
}
