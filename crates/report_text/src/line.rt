//! The lines of a report.

ghost use Rattle.std.specs.Prelude.{◌≡◌};
ghost use Rattle.report_text.specs.WordReading.{ReadsWord};
ghost use Rattle.report_text.specs.LineReading.{end_reading, longer_end, worded_end, process_reading, span_reading, export_reading, trace_line_reading, number_line, plain_line, worded_line, longer_line, line_reading};

use crate::entry::read_entry;
use crate::line_fault::LineFault;
use crate::terms::{function_of, read_call, read_term};
use machine_core::{End, Line};
use run_log::Entry;
use std::alloc::Global;
use term_core::{Mfa, Names, TermList, cut_at, number_of};

/// A line of a report.
#[derive(Debug, Drop)]
pub enum ReportLine {
    /// The first line.
    Head,
    /// How many generations the entries publish.
    Generations(u64),
    Entry(Entry),
    /// A process begins, by its number.
    Process {
        number: u64,
        target: Mfa,
        args: TermList,
    },
    /// So many turns under a generation.
    Span {
        generation: u64,
        turns: u64,
    },
    /// What a process showed.
    Shown(Line),
    /// A process ended.
    End(End),
    /// An observer begins, by its number.
    Observer(u64),
    /// What an observer saw of a generation begins.
    Snapshot(u64),
    /// An exported function, and the serial of its instance.
    Export(Mfa, u64),
    /// The last line.
    Close,
}

fn worded_end(names: &Names, word: &[u8], text: &[u8]) -> Option<End>
    ensures { result ≡ worded_end names.now word.now text.now }
{
    if word == b"undef".as_slice() {
        Some(End::Undef(function_of(names, text)?))
    } else if word == b"killed".as_slice() {
        Some(End::Killed(number_of(text)?))
    } else {
        None
    }
}

fn longer_end(names: &Names, text: &[u8]) -> Option<End>
    ensures { result ≡ longer_end names.now text.now }
{
    let (word, rest) = cut_at(text, b' ')?;
    worded_end(names, word, rest)
}

fn end_of(names: &Names, text: &[u8]) -> Option<End>
    ensures { result ≡ end_reading names.now text.now }
{
    if text == b"normal".as_slice() {
        Some(End::Normal)
    } else if text == b"badarg".as_slice() {
        Some(End::Badarg)
    } else if text == b"badarith".as_slice() {
        Some(End::Badarith)
    } else if text == b"system_limit".as_slice() {
        Some(End::SystemLimit)
    } else {
        longer_end(names, text)
    }
}

fn read_process(alloc: Global, names: &Names, text: &[u8]) -> Result<ReportLine, LineFault>
    ensures { ReadsWord (λ line. line) result (process_reading names.now text.now) }
{
    let (number, rest) = cut_at(text, b' ').ok_or(LineFault::Form)?;
    let number = number_of(number).ok_or(LineFault::Form)?;
    let call = read_call(alloc, names, rest)?;
    Ok(ReportLine::Process {
        number,
        target: call.target,
        args: call.args,
    })
}

fn read_span(text: &[u8]) -> Option<ReportLine>
    ensures { result ≡ span_reading text.now }
{
    let (generation, turns) = cut_at(text, b' ')?;
    let generation = number_of(generation)?;
    let turns = number_of(turns)?;
    Some(ReportLine::Span { generation, turns })
}

fn read_export(names: &Names, text: &[u8]) -> Option<ReportLine>
    ensures { result ≡ export_reading names.now text.now }
{
    let (function, serial) = cut_at(text, b' ')?;
    let function = function_of(names, function)?;
    let serial = number_of(serial)?;
    Some(ReportLine::Export(function, serial))
}

fn read_trace(alloc: Global, names: &Names, text: &[u8]) -> Result<ReportLine, LineFault>
    ensures { ReadsWord (λ line. line) result (trace_line_reading names.now text.now) }
{
    let call = read_call(alloc, names, text)?;
    Ok(ReportLine::Shown(Line::Trace {
        to: call.target,
        args: call.args,
    }))
}

/// A line of a word and a number.
fn number_line(word: &[u8], text: &[u8]) -> Option<ReportLine>
    ensures { result ≡ number_line word.now text.now }
{
    let number = number_of(text)?;
    if word == b"generations".as_slice() {
        Some(ReportLine::Generations(number))
    } else if word == b"observer".as_slice() {
        Some(ReportLine::Observer(number))
    } else if word == b"snapshot".as_slice() {
        Some(ReportLine::Snapshot(number))
    } else {
        None
    }
}

/// A line without terms, by its word.
fn plain_line(names: &Names, word: &[u8], text: &[u8]) -> Option<ReportLine>
    ensures { result ≡ plain_line names.now word.now text.now }
{
    if word == b"span".as_slice() {
        read_span(text)
    } else if word == b"end".as_slice() {
        Some(ReportLine::End(end_of(names, text)?))
    } else if word == b"export".as_slice() {
        read_export(names, text)
    } else {
        number_line(word, text)
    }
}

fn worded_line(
    alloc: Global,
    names: &Names,
    word: &[u8],
    text: &[u8],
) -> Result<ReportLine, LineFault>
    ensures { ReadsWord (λ line. line) result (worded_line names.now word.now text.now) }
{
    if word == b"entry".as_slice() {
        Ok(ReportLine::Entry(read_entry(alloc, names, text)?))
    } else if word == b"process".as_slice() {
        read_process(alloc, names, text)
    } else if word == b"print".as_slice() {
        Ok(ReportLine::Shown(Line::Print(read_term(alloc, names, text)?)))
    } else if word == b"trace".as_slice() {
        read_trace(alloc, names, text)
    } else {
        plain_line(names, word, text).ok_or(LineFault::Form)
    }
}

fn longer_line(alloc: Global, names: &Names, text: &[u8]) -> Result<ReportLine, LineFault>
    ensures { ReadsWord (λ line. line) result (longer_line names.now text.now) }
{
    let (word, rest) = cut_at(text, b' ').ok_or(LineFault::Form)?;
    worded_line(alloc, names, word, rest)
}

/// A line, without its line feed.
pub fn read_line(alloc: Global, names: &Names, text: &[u8]) -> Result<ReportLine, LineFault>
    ensures { ReadsWord (λ line. line) result (line_reading names.now text.now) }
{
    if text == b"beam report 1".as_slice() {
        Ok(ReportLine::Head)
    } else if text == b"end report".as_slice() {
        Ok(ReportLine::Close)
    } else {
        longer_line(alloc, names, text)
    }
}
