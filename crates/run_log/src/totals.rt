ghost use Rattle.std.specs.Prelude.{◌≡◌, ◌++◌, ◌+◌, IfOk, OnOk, OnErr, decimal};
ghost use Rattle.std.specs.Io.{StartsWith};
ghost use Rattle.std.specs.List.{count_by};
ghost use Rattle.run_log.specs.Summary.{command_count, is_print, is_normal, prints_of, print_count, summary_of};

use crate::logs::{ProcessLog, RunLog, Span};
use machine_core::{End, Line};
use script_core::{CommandList, Script};
use term_core::{ByteList, NoMemory, print_number};

/// Appends the summary of a script's run: how many commands the script has, how many processes the log, how many lines
/// they printed, and how many ended as normal.
///
/// Where memory is refused, nothing is appended. Layout: docs/FORMATS.md.
pub fn summary(script: &Script, log: &RunLog, out: &mut ByteList) -> Result<(), NoMemory>
    ensures ok { OnOk result (out.new ≡ out.old ++ summary_of script.now log.now) }
    ensures err { OnErr result (out.new ≡ out.old) }
{
    let start = out.len();
    let written = write_summary(script, log, out);
    if written.is_err() {
        out.truncate(start);
    }
    written
}

// After a refusal a part of the text is appended.
fn write_summary(script: &Script, log: &RunLog, out: &mut ByteList) -> Result<(), NoMemory>
    ensures ok { OnOk result (out.new ≡ out.old ++ summary_of script.now log.now) }
    ensures kept { StartsWith out.new out.old }
{
    let processes = log.processes.as_slice();
    write_count(b"commands ", command_count(script.loaders.as_slice())?, out)?;
    write_count(b" processes ", processes.len() as u64, out)?;
    write_count(b" prints ", print_count(processes)?, out)?;
    write_count(b" normal ", normal_count(processes), out)?;
    out.push(b'\n')
}

/// A word and a number behind it.
fn write_count(word: &[u8], count: u64, out: &mut ByteList) -> Result<(), NoMemory>
    ensures ok { OnOk result (out.new ≡ out.old ++ (word.now ++ decimal count)) }
    ensures kept { StartsWith out.new out.old }
{
    out.extend_from_slice(word)?;
    print_number(count, out)
}

/// So many more. A count of 64 bits always suffices, since memory has no room for what would pass it.
fn more(count: u64, items: usize) -> Result<u64, NoMemory>
    ensures { IfOk result (λ sum. sum ≡ count + items) }
{
    count.checked_add(items as u64).ok_or(NoMemory)
}

fn command_count(loaders: &[CommandList]) -> Result<u64, NoMemory>
    ensures { IfOk result (λ count. count ≡ command_count loaders.now) }
{
    let mut count = 0;
    for commands in loaders {
        count = more(count, commands.len())?;
    }
    Ok(count)
}

fn print_count(processes: &[ProcessLog]) -> Result<u64, NoMemory>
    ensures { IfOk result (λ count. count ≡ print_count processes.now) }
{
    let mut count = 0;
    for log in processes {
        count = with_prints(count, log.spans.as_slice())?;
    }
    Ok(count)
}

/// The count with the prints of these spans.
fn with_prints(count: u64, spans: &[Span]) -> Result<u64, NoMemory>
    ensures { IfOk result (λ sum. sum ≡ count + prints_of spans.now) }
{
    let mut sum = count;
    for span in spans {
        sum = more(sum, prints_in(span.lines.as_slice()))?;
    }
    Ok(sum)
}

fn prints_in(lines: &[Line]) -> usize
    ensures { result ≡ count_by is_print lines.now }
{
    lines.iter().filter(|line| is_print(line)).count()
}

fn is_print(line: &Line) -> bool
    ensures { result ≡ is_print line.now }
{
    match line {
        Line::Print(_) => true,
        Line::Trace { .. } => false,
    }
}

fn normal_count(processes: &[ProcessLog]) -> u64
    ensures { result ≡ count_by is_normal processes.now }
{
    processes.iter().filter(|log| is_normal(log)).count() as u64
}

fn is_normal(log: &ProcessLog) -> bool
    ensures { result ≡ is_normal log.now }
{
    match log.fin {
        End::Normal => true,
        _ => false,
    }
}
