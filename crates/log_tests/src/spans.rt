ghost use Rattle.span_check.specs.Watches.{AreInOrder};

use crate::loaded::{Look, is_shown};
use machine_core::{End, Line, LineList};
use run_log::{ProcessLog, Span, SpanList};
use server_core::Server;
use span_check::{Standing, Watch, take_spans};
use std::alloc::Global;
use std::process::Abort;
use std::test::Fail;
use term_core::{AtomId, Mfa, NoMemory, Term, TermList};

/// A process that prints in two turns. Its atoms are `m` and `main`, numbered from 3 on.
const TWO_TURNS: &str = "beam script 1
module m.1
export main/0
print 1
yield
print 2
end
go
";

const MAIN: Mfa = Mfa {
    module: AtomId(3),
    name: AtomId(4),
    arity: 0,
};

/// The lines of a process that prints 1 and a number.
fn printed(alloc: Global, number: i64) -> Result<LineList, NoMemory> {
    let mut lines = LineList::new(alloc);
    lines.push(Line::Print(Term::Int(1)))?;
    lines.push(Line::Print(Term::Int(number)))?;
    Ok(lines)
}

/// Whether the process prints so in two turns under the newest generation, ends as normal, and is where the watches see it.
pub fn is_so(
    alloc: Global,
    server: &Server,
    number: i64,
    watches: &[Watch],
) -> Result<bool, NoMemory>
    requires { AreInOrder watches.now }
{
    let mut spans = SpanList::new(alloc);
    spans.push(Span {
        generation: server.generation(),
        turns: 2,
        lines: printed(alloc, number)?,
    })?;
    let log = ProcessLog {
        target: MAIN,
        args: TermList::new(alloc),
        spans,
        fin: End::Normal,
    };
    let mut standing = Standing::new(alloc, 0, &log)?;
    take_spans(alloc, server, &log, watches, &mut standing)
}

#[test]
fn a_process_stands_before_its_spans_at_first(rt: HostRuntime) -> Result<(), Fail> {
    let alloc = rt.alloc();
    let log = ProcessLog {
        target: MAIN,
        args: TermList::new(alloc),
        spans: SpanList::new(alloc),
        fin: End::Normal,
    };
    let standing = Standing::new(alloc, 0, &log)?;
    assert_eq!(rt; standing.gone, 0);
    assert!(rt; !standing.ended);
    Ok(())
}

/// Whether the process prints 1 and this number, and its frame is of the instance after so many turns, if one is told.
fn follows(rt: &(impl AllocGlobal + Abort), number: i64, stands: Option<(u32, u64)>) -> bool {
    is_shown(rt, TWO_TURNS, 1, Look::Turns(number, stands))
}

#[test]
fn turns_are_held_against_a_span(rt: HostRuntime) {
    assert!(rt; follows(&rt, 2, None));
    assert!(rt; !follows(&rt, 3, None));
}

#[test]
fn watches_look_after_their_turns(rt: HostRuntime) {
    assert!(rt; follows(&rt, 2, Some((1, 1))));
    assert!(rt; !follows(&rt, 2, Some((2, 1))));
    assert!(rt; !follows(&rt, 2, Some((0, 1))));
    assert!(rt; !follows(&rt, 2, Some((1, 2))));
}
