// Values as a report shows them: each is put into a small log, and the line of its report is quoted.
use crate::expected::Expected;
use machine_core::{End, LineList};
use run_log::{Entry, ProcessLog, Snapshot, SnapshotList, Span, SpanList, Who, render};
use script_core::ScriptCmd;
use server_core::{Applied, Cmd, RefList, Reply};
use std::alloc::Global;
use term_core::{AtomId, ByteList, Mfa, Names, NoMemory, TermList, cut_at};

/// The line of the first entry, and of the first process where there is no entry.
const FIRST_ENTRY: usize = 3;

/// The line of the first thing behind the head of a first span or of a first snapshot.
const FIRST_LINE: usize = 5;

/// What stands before the answer to a release by the runtime of the area with serial 0.
const ANSWER_FRONT: &[u8] = b"entry rt release 0 = ";

/// What stands before and behind a command that the runtime made with the answer `ok`.
const ENTRY_FRONT: &[u8] = b"entry rt ";

const ENTRY_BACK: &[u8] = b" = ok -";

/// What stands before the call of the first process.
const PROCESS_FRONT: &[u8] = b"process 0 ";

/// Says an answer: the reply and the generation, as they stand behind `= ` in an entry.
pub fn say_answer(
    alloc: Global,
    names: &Names,
    answer: Applied,
    expected: &mut Expected,
) -> Result<(), NoMemory> {
    expected.page.journal.push(Entry {
        who: Who::Runtime,
        cmd: Cmd::Release(0),
        reply: answer.reply,
        published: answer.published,
    })?;
    expected.say(b"the answer ")?;
    quote(alloc, names, FIRST_ENTRY, ANSWER_FRONT, b"", expected)
}

/// Quotes a command, as its line in a script.
pub fn quote_command(
    alloc: Global,
    names: &Names,
    command: &ScriptCmd,
    expected: &mut Expected,
) -> Result<(), NoMemory> {
    let cmd = cmd_of(alloc, command)?;
    expected.page.journal.push(Entry {
        who: Who::Runtime,
        cmd,
        reply: Reply::Ok,
        published: None,
    })?;
    quote(alloc, names, FIRST_ENTRY, ENTRY_FRONT, ENTRY_BACK, expected)
}

/// The command of the server that ends a command of a script.
fn cmd_of(alloc: Global, command: &ScriptCmd) -> Result<Cmd, NoMemory> {
    Ok(match command {
        ScriptCmd::Load(refs) => Cmd::Load(RefList::from_slice(alloc, refs.as_slice())?),
        ScriptCmd::Delete(module) => Cmd::Delete(*module),
        ScriptCmd::SoftPurge(module) => Cmd::SoftPurge {
            module: *module,
            lingers: None,
        },
        ScriptCmd::Purge(module) => Cmd::Purge {
            module: *module,
            killed: false,
        },
        ScriptCmd::CheckOld(module) => Cmd::CheckOld(*module),
        ScriptCmd::Put { key, term } => Cmd::Put {
            key: *key,
            term: term.copy(alloc)?,
        },
        ScriptCmd::Erase(key) => Cmd::Erase(*key),
        ScriptCmd::Trace { target, on } => Cmd::Trace {
            target: *target,
            on: *on,
        },
        ScriptCmd::Spawn { target, args } => Cmd::Spawn {
            target: *target,
            args: args.copy(alloc)?,
        },
    })
}

/// Quotes a function with the arguments that a process enters it with, as in the line of a process.
pub fn quote_call(
    alloc: Global,
    names: &Names,
    target: Mfa,
    args: &TermList,
    expected: &mut Expected,
) -> Result<(), NoMemory> {
    let args = args.copy(alloc)?;
    expected.page.processes.push(ProcessLog {
        target,
        args,
        spans: SpanList::new(alloc),
        fin: End::Normal,
    })?;
    quote(alloc, names, FIRST_ENTRY, PROCESS_FRONT, b"", expected)
}

/// Quotes the line of a process at this place of these, counted from 0.
pub fn quote_line(
    alloc: Global,
    names: &Names,
    lines: LineList,
    place: usize,
    expected: &mut Expected,
) -> Result<(), NoMemory> {
    let spans = one_span(alloc, lines)?;
    quote_process(alloc, names, spans, End::Normal, place, expected)
}

/// Quotes the line of the end of a process.
pub fn quote_end(
    alloc: Global,
    names: &Names,
    end: End,
    expected: &mut Expected,
) -> Result<(), NoMemory> {
    let spans = one_span(alloc, LineList::new(alloc))?;
    quote_process(alloc, names, spans, end, 0, expected)
}

/// A span with these lines.
fn one_span(alloc: Global, lines: LineList) -> Result<SpanList, NoMemory> {
    let mut spans = SpanList::new(alloc);
    spans.push(Span {
        generation: 1,
        turns: 1,
        lines,
    })?;
    Ok(spans)
}

/// Quotes the line at a place behind the head of the first span of a process.
fn quote_process(
    alloc: Global,
    names: &Names,
    spans: SpanList,
    fin: End,
    place: usize,
    expected: &mut Expected,
) -> Result<(), NoMemory> {
    expected.page.processes.push(ProcessLog {
        target: Mfa {
            module: AtomId::OK,
            name: AtomId::OK,
            arity: 0,
        },
        args: TermList::new(alloc),
        spans,
        fin,
    })?;
    let line = FIRST_LINE.saturating_add(place);
    quote(alloc, names, line, b"", b"", expected)
}

/// Quotes the line of an export of a snapshot, by its place, counted from 0.
pub fn quote_export(
    alloc: Global,
    names: &Names,
    shot: Snapshot,
    place: usize,
    expected: &mut Expected,
) -> Result<(), NoMemory> {
    let mut shots = SnapshotList::new(alloc);
    shots.push(shot)?;
    expected.page.observers.push(shots)?;
    let line = FIRST_LINE.saturating_add(place);
    quote(alloc, names, line, b"", b"", expected)
}

/// Quotes what stands in a line of the small log's report, counted from 1, between such a front and such a back.
fn quote(
    alloc: Global,
    names: &Names,
    number: usize,
    front: &[u8],
    back: &[u8],
    expected: &mut Expected,
) -> Result<(), NoMemory> {
    let mut report = ByteList::new(alloc);
    render(names, &expected.page, &mut report)?;
    let line = line_at(report.as_slice(), number);
    let end = line.len().saturating_sub(back.len());
    expected.say(b"`")?;
    expected.say(line.get(front.len()..end).unwrap_or(line))?;
    expected.say(b"`")
}

/// The line of a text with this number, counted from 1 and without its line feed. Nothing where it has fewer lines.
fn line_at(text: &[u8], number: usize) -> &[u8] {
    let mut rest = text;
    for _ in 1..number {
        match cut_at(rest, b'\n') {
            Some((_, behind)) => rest = behind,
            None => return b"".as_slice(),
        }
    }
    match cut_at(rest, b'\n') {
        Some((line, _)) => line,
        None => b"".as_slice(),
    }
}
