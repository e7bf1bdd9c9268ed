//! The text of what processes did.

ghost use Rattle.std.specs.Prelude.{◌≡◌, ◌++◌, OnOk, codes};
ghost use Rattle.std.specs.List.{flat_map};
ghost use Rattle.std.specs.Fmt.{decimal};
ghost use Rattle.std.specs.Io.{StartsWith};
ghost use Rattle.run_log.specs.Report.{line_of, call_text, shown_text, span_text, end_text, process_text, processes_text};

use crate::logs::{ProcessLog, ProcessLogList, Span, SpanList};
use crate::rendering::name::{write_call, write_mfa};
use machine_core::{End, Line, LineList};
use term_core::{ByteList, Mfa, Names, NoMemory, TermList, print_number, print_term};

/// Appends the lines of all processes. After a refusal a part of them may stand.
pub fn write_processes(
    names: &Names,
    logs: &ProcessLogList,
    out: &mut ByteList,
) -> Result<(), NoMemory>
    ensures ok { OnOk result (out.new ≡ out.old ++ processes_text names.now 0 logs.now) }
    ensures kept { StartsWith out.new out.old }
{
    for (number, log) in logs.as_slice().iter().enumerate() {
        write_process(names, number as u64, log, out)?;
    }
    Ok(())
}

fn write_process(
    names: &Names,
    number: u64,
    log: &ProcessLog,
    out: &mut ByteList,
) -> Result<(), NoMemory>
    ensures ok { OnOk result (out.new ≡ out.old ++ process_text names.now number log.now) }
    ensures kept { StartsWith out.new out.old }
{
    write_process_line(names, number, log, out)?;
    write_spans(names, &log.spans, out)?;
    write_end_line(names, log.fin, out)
}

fn write_process_line(
    names: &Names,
    number: u64,
    log: &ProcessLog,
    out: &mut ByteList,
) -> Result<(), NoMemory>
    ensures ok { OnOk result (out.new ≡ out.old ++ line_of (codes "process " ++ decimal number ++ codes " " ++ call_text names.now log.now.target log.now.args)) }
    ensures kept { StartsWith out.new out.old }
{
    out.extend_from_slice(b"process ")?;
    print_number(number, out)?;
    out.push(b' ')?;
    write_call(names, log.target, &log.args, out)?;
    out.push(b'\n')
}

fn write_spans(names: &Names, spans: &SpanList, out: &mut ByteList) -> Result<(), NoMemory>
    ensures ok { OnOk result (out.new ≡ out.old ++ flat_map (span_text names.now) spans.now) }
    ensures kept { StartsWith out.new out.old }
{
    for span in spans.as_slice() {
        write_span(names, span, out)?;
    }
    Ok(())
}

fn write_span(names: &Names, span: &Span, out: &mut ByteList) -> Result<(), NoMemory>
    ensures ok { OnOk result (out.new ≡ out.old ++ span_text names.now span.now) }
    ensures kept { StartsWith out.new out.old }
{
    out.extend_from_slice(b"span ")?;
    print_number(span.generation, out)?;
    out.push(b' ')?;
    print_number(span.turns, out)?;
    out.push(b'\n')?;
    write_lines(names, &span.lines, out)
}

fn write_lines(names: &Names, lines: &LineList, out: &mut ByteList) -> Result<(), NoMemory>
    ensures ok { OnOk result (out.new ≡ out.old ++ flat_map (shown_text names.now) lines.now) }
    ensures kept { StartsWith out.new out.old }
{
    for line in lines.as_slice() {
        write_line(names, line, out)?;
    }
    Ok(())
}

fn write_line(names: &Names, line: &Line, out: &mut ByteList) -> Result<(), NoMemory>
    ensures ok { OnOk result (out.new ≡ out.old ++ shown_text names.now line.now) }
    ensures kept { StartsWith out.new out.old }
{
    match line {
        Line::Print(term) => {
            out.extend_from_slice(b"print ")?;
            print_term(names, term, out)?;
            out.push(b'\n')
        }
        Line::Trace { to, args } => write_trace_line(names, *to, args, out),
    }
}

fn write_trace_line(
    names: &Names,
    to: Mfa,
    args: &TermList,
    out: &mut ByteList,
) -> Result<(), NoMemory>
    ensures ok { OnOk result (out.new ≡ out.old ++ shown_text names.now (Line.Trace to args.now)) }
    ensures kept { StartsWith out.new out.old }
{
    out.extend_from_slice(b"trace ")?;
    write_call(names, to, args, out)?;
    out.push(b'\n')
}

fn write_end_line(names: &Names, end: End, out: &mut ByteList) -> Result<(), NoMemory>
    ensures ok { OnOk result (out.new ≡ out.old ++ line_of (codes "end " ++ end_text names.now end)) }
    ensures kept { StartsWith out.new out.old }
{
    out.extend_from_slice(b"end ")?;
    write_end(names, end, out)?;
    out.push(b'\n')
}

fn write_end(names: &Names, end: End, out: &mut ByteList) -> Result<(), NoMemory>
    ensures ok { OnOk result (out.new ≡ out.old ++ end_text names.now end) }
    ensures kept { StartsWith out.new out.old }
{
    match end {
        End::Normal => out.extend_from_slice(b"normal"),
        End::Undef(to) => {
            out.extend_from_slice(b"undef ")?;
            write_mfa(names, to, out)
        }
        End::Badarg => out.extend_from_slice(b"badarg"),
        End::Badarith => out.extend_from_slice(b"badarith"),
        End::SystemLimit => out.extend_from_slice(b"system_limit"),
        End::Killed(serial) => {
            out.extend_from_slice(b"killed ")?;
            print_number(serial, out)
        }
    }
}
