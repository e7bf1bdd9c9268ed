use crate::top::beam_top;
use outside::{MemSink, MemSource, SureSink, SureSource};
use shared_words::Closed;
use std::alloc::{AllocError, Global};
use std::process::Abort;
use std::sync::Wait;
use std::test::Fail;
use std::thread::Threads;
use term_core::{ByteList, CountList, NoMemory};
use write_permit::{Gate, NoGate};

/// The words of a run.
pub const RUN: &[&str] = &["run", "--schedulers", "1"];

/// The words of runs by one, by two and by sixteen schedulers.
const RUNS: [&[&str]; 3] = [
    RUN,
    &["run", "--schedulers", "2"],
    &["run", "--schedulers", "16"],
];

/// The words of a check.
pub const CHECK: &[&str] = &["check"];

/// The first script.
pub const FIRST: &str =
    "beam script 1\nmodule m.1\nexport main/0\nadd 1 2 $0\nprint $0\nend\nloader\nload m.1\nspawn m:main()\ngo\n";

/// The report of the first script, 143 bytes.
pub const FIRST_REPORT: &str =
    "beam report 1\ngenerations 1\nentry L0 load m.1 = ok @1\nentry L0 spawn m:main() = ok -\nprocess 0 m:main()\nspan 1 1\nprint 3\nend normal\nend report\n";

/// A module whose third version is loaded while there is old code.
const THREE_VERSIONS: &str =
    "beam script 1\nmodule m.1\nend\nmodule m.2\nend\nmodule m.3\nend\nloader\nload m.1\nload m.2\nload m.3\ngo\n";

/// Its report.
const THREE_VERSIONS_REPORT: &str =
    "beam report 1\ngenerations 2\nentry L0 load m.1 = ok @1\nentry L0 load m.2 = ok @2\nentry L0 load m.3 = not_purged [m] -\nend report\n";

/// How a source and a sink are handed in: the bytes of a call of each, and the call that fails, if it is made.
#[derive(Clone, Copy)]
pub struct Outside {
    pub read_piece: usize,
    pub read_fails: u64,
    pub write_piece: usize,
    pub write_fails: u64,
}

pub const CALM: Outside = Outside {
    read_piece: 65_536,
    read_fails: 0,
    write_piece: 65_536,
    write_fails: 0,
};

/// What a call came to: its status, whether it made a log, what its table published, what the sink got, and how often the source was read.
#[derive(Drop)]
pub struct Outcome {
    pub status: u8,
    pub logged: bool,
    /// How many generations the closed table of a run has published.
    pub published: Option<u64>,
    pub got: ByteList,
    pub reads: u64,
}

fn words_of(alloc: Global, words: &[&str]) -> Result<Vec<String>, AllocError> {
    let mut strings = Vec::new(alloc);
    for word in words {
        strings.push(String::from_str(alloc, word)?)?;
    }
    Ok(strings)
}

fn failing(alloc: Global, call: u64) -> Result<CountList, NoMemory> {
    CountList::from_slice(alloc, &[call])
}

/// What a call came to. The report of each run is checked behind its script: it must be lawful.
pub fn outcome_of<R: Threads + Wait + Sync + AllocGlobal + Abort>(
    rt: &R,
    words: &[&str],
    input: &[u8],
    outside: Outside,
) -> Result<Outcome, NoMemory> {
    let outcome = called(rt, words, input, outside)?;
    if !words.is_empty() && words[0] == "run" && outcome.status == 0 {
        let lawful = is_lawful(rt, input, outcome.got.as_slice())?;
        assert!(rt; lawful, "the check of a run");
    }
    Ok(outcome)
}

/// Whether a check answers that the report behind this script is lawful.
pub fn is_lawful<R: Threads + Wait + Sync + AllocGlobal>(
    rt: &R,
    script: &[u8],
    report: &[u8],
) -> Result<bool, NoMemory> {
    let mut both = ByteList::from_slice(rt.alloc(), script)?;
    both.extend_from_slice(report)?;
    let check = called(rt, CHECK, both.as_slice(), CALM)?;
    Ok(check.got.as_slice() == b"lawful\n".as_slice())
}

/// How many generations a table has published.
fn published_of(closed: &Option<Closed>) -> Option<u64> {
    match closed {
        Some(closed) => Some(closed.published()),
        None => None,
    }
}

fn called<R: Threads + Wait + Sync + AllocGlobal>(
    rt: &R,
    words: &[&str],
    input: &[u8],
    outside: Outside,
) -> Result<Outcome, NoMemory> {
    called_through(rt, words, input, outside, &NoGate)
}

/// What a call came to whose run passes a gate.
pub fn called_through<R: Threads + Wait + Sync + AllocGlobal, G: Gate>(
    rt: &R,
    words: &[&str],
    input: &[u8],
    outside: Outside,
    gate: &G,
) -> Result<Outcome, NoMemory> {
    let alloc = rt.alloc();
    let words = words_of(alloc, words)?;
    let mut source = MemSource {
        bytes: ByteList::from_slice(alloc, input)?,
        at: 0,
        piece: outside.read_piece,
        fails: failing(alloc, outside.read_fails)?,
        calls: 0,
        faults: 0,
    };
    let mut sink = MemSink {
        got: ByteList::new(alloc),
        piece: outside.write_piece,
        fails: failing(alloc, outside.write_fails)?,
        calls: 0,
        faults: 0,
    };
    let finish = beam_top(rt, alloc, words.as_slice(), &mut source, &mut sink, gate);
    Ok(Outcome {
        status: finish.status,
        logged: finish.log.is_some(),
        published: published_of(&finish.closed),
        got: sink.got,
        reads: source.calls,
    })
}

#[test]
fn a_script_runs_by_any_number_of_schedulers(rt: HostRuntime) -> Result<(), Fail> {
    let rows = [
        (FIRST, FIRST_REPORT),
        (THREE_VERSIONS, THREE_VERSIONS_REPORT),
    ];
    for words in RUNS {
        for (script, report) in rows {
            let run = outcome_of(&rt, words, script.as_bytes(), CALM)?;
            assert_eq!(rt; run.got.as_slice(), report.as_bytes(), "at {words:?}");
            assert_eq!(rt; run.status, 0);
            assert!(rt; run.logged);
        }
    }
    Ok(())
}

/// A run that keeps its server in plain memory alone has no such table.
#[test]
fn closed_table(rt: HostRuntime) -> Result<(), Fail> {
    for words in RUNS {
        for (script, published) in [(FIRST, 1), (THREE_VERSIONS, 2)] {
            let run = outcome_of(&rt, words, script.as_bytes(), CALM)?;
            assert_eq!(rt; run.published, Some(published), "at {words:?}");
        }
    }
    let both = format!(in rt.alloc(); "{FIRST}{FIRST_REPORT}")?;
    let check = outcome_of(&rt, CHECK, both.as_bytes(), CALM)?;
    assert_eq!(rt; (check.status, check.published), (0, None));
    let make = &["make", "--seed", "1", "--size", "6"];
    let made = outcome_of(&rt, make, b"", CALM)?;
    assert_eq!(rt; (made.status, made.published), (0, None));
    Ok(())
}

#[test]
fn same_words(rt: HostRuntime) -> Result<(), Fail> {
    let words = &["trial", "--seed", "9", "--size", "500", "--schedulers", "4"];
    let first = outcome_of(&rt, words, b"", CALM)?;
    let second = outcome_of(&rt, words, b"", CALM)?;
    assert_eq!(rt; first.got.as_slice(), second.got.as_slice());
    assert_eq!(rt; first.status, 0);
    Ok(())
}

#[test]
fn words_of_no_form_are_not_understood(rt: HostRuntime) -> Result<(), Fail> {
    let cases: [&[&str]; 3] = [
        &[],
        &["run", "--schedulers", "0"],
        &["run", "--schedulers", "01"],
    ];
    for words in cases {
        let call = outcome_of(&rt, words, FIRST.as_bytes(), CALM)?;
        assert_eq!(rt; call.status, 2, "at {words:?}");
        assert_eq!(rt; call.got.as_slice(), b"words not understood\n".as_slice());
        assert_eq!(rt; call.reads, 0, "at {words:?}");
    }
    Ok(())
}

#[test]
fn the_report_of_the_empty_script_is_cut(rt: HostRuntime) -> Result<(), Fail> {
    let outside = Outside {
        write_piece: 8,
        write_fails: 3,
        ..CALM
    };
    let run = outcome_of(&rt, &["run"], b"beam script 1\ngo\n", outside)?;
    assert_eq!(rt; run.status, 5);
    assert_eq!(rt; run.got.as_slice(), b"beam report 1\nge".as_slice());
    Ok(())
}

#[test]
fn a_sure_source_and_sink_are_served(rt: HostRuntime) -> Result<(), Fail> {
    let alloc = rt.alloc();
    let words = words_of(alloc, RUN)?;
    let mut source = SureSource {
        bytes: ByteList::from_slice(alloc, FIRST.as_bytes())?,
        at: 0,
    };
    let finish = beam_top(
        &rt,
        alloc,
        words.as_slice(),
        &mut source,
        &mut SureSink,
        &NoGate,
    );
    assert_eq!(rt; finish.status, 0);
    Ok(())
}
