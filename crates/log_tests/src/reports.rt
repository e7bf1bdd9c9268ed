//! Reports, each read and written again.

use report_text::*;
use run_log::{RunLog, render};
use server_core::{Cmd, Linger};
use std::alloc::Global;
use std::test::Fail;
use term_core::{ByteList, NameFault, Names};

fn some_names(alloc: Global) -> Result<Names, NameFault> {
    let mut names = Names::new(alloc)?;
    names.add(b"m")?;
    names.add(b"n")?;
    names.add(b"main")?;
    Ok(names)
}

/// A journal with each command and each reply; the lines are written by hand.
const JOURNAL: &str = "beam report 1
generations 13
entry L0 load m.1 n.20 = ok @1
entry L7 load m.1 = duplicated m -
entry L0 load n.1 = not_purged [n,m] -
entry L0 load m.1 n.999999 m.1 = ok -
entry L1 load m.2 = system_limit instances -
entry L10 spawn m:n([1],-7) = ok -
entry L0 spawn m:main({1,2},[],n) = ok -
entry L3 put m {1} = ok @10
entry L3 put m n = system_limit keys -
entry L3 put n [1] = system_limit areas -
entry L0 put m [{1,[-576460752303423488]},ok,[]] = duplicated n -
entry L3 erase m = true @11
entry L0 erase m = system_limit areas -
entry L0 delete n = true @2
entry L0 delete m = false -
entry L4294967295 delete m = false 4294967295 0 -
entry L2 soft_purge m = false 3 12 -
entry rt soft_purge n = false 3 12 -
entry L2 soft_purge m = true @3
entry L1 doom n = ok @4
entry L0 doom n = not_purged [] -
entry L0 check_old n = true -
entry L0 check_old m = not_purged [n,m,ok] -
entry L1 purge n = true @5
entry L0 purge n = true -
entry L1 doom m = ok @6
entry L1 purge m = false @7
entry L0 check_old n = false -
entry L0 trace m:n/2 on = true @8
entry L0 trace m:n/2 off = true @9
entry L0 trace m:main/15 on = system_limit instances -
entry L0 trace n:m/0 off = true -
entry L0 delete m = true @0
entry L0 delete m = true @18446744073709551615
entry rt release 18446744073709551615 = ok -
end report
";

/// Processes with each line and each end, and observers behind them; the lines are written by hand.
const PROCESSES: &str = "beam report 1
generations 1
entry L0 load m.1 = ok @1
entry L0 spawn m:main() = ok -
process 0 m:n([1],-7)
span 0 2
print {1}
trace m:n([1],-7)
print n
span 1 1
end undef m:n/2
process 1 n:m(1,[2,n])
span 0 18446744073709551615
span 1 1
trace m:main({})
print [1]
span 0 1
end undef m:n/3
process 2 m:n([1],-7)
end normal
process 3 m:n()
end badarg
process 4 m:n()
span 0 1
end badarith
process 5 m:n([1],-7)
end system_limit
process 6 n:m()
span 4 1
trace n:m()
end killed 7
observer 0
snapshot 0
snapshot 12
export m:n/2 1
export n:m/0 18446744073709551615
observer 1
snapshot 3
snapshot 3
export n:m/0 40
export m:main/0 18446744073709551615
export m:main/0 1
snapshot 0
observer 2
end report
";

/// No process stands before the observer.
const OBSERVER: &str = "beam report 1
generations 0
observer 0
snapshot 1
export m:n/0 4
end report
";

fn report_of(alloc: Global, names: &Names, log: &RunLog) -> Result<ByteList, Fail> {
    let mut report = ByteList::new(alloc);
    render(names, log, &mut report)?;
    Ok(report)
}

fn written_with(alloc: Global, names: &Names, text: &str) -> Result<ByteList, Fail> {
    let log = read_report(alloc, names, text.as_bytes())?;
    report_of(alloc, names, &log)
}

/// The report of the log that the text is read as.
fn written_again(alloc: Global, text: &str) -> Result<ByteList, Fail> {
    let names = some_names(alloc)?;
    written_with(alloc, &names, text)
}

#[test]
fn reports_in_form(rt: HostRuntime) -> Result<(), Fail> {
    let empty = "beam report 1\ngenerations 0\nend report\n";
    for text in [empty, JOURNAL, PROCESSES, OBSERVER] {
        let report = written_again(rt.alloc(), text)?;
        assert!(rt; report.as_slice() == text.as_bytes(), "at {text}");
    }
    Ok(())
}

fn fault(alloc: Global, text: &str) -> Result<Option<ReportFault>, NameFault> {
    let names = some_names(alloc)?;
    Ok(read_report(alloc, &names, text.as_bytes()).err())
}

#[test]
fn other_texts_are_refused(rt: HostRuntime) -> Result<(), Fail> {
    let cases = [
        ("beam report 1\ngenerations 0\n", 2),
        ("beam report 1\ngenerations 0\nend report\n ", 4),
    ];
    for (text, line) in cases {
        let fault = fault(rt.alloc(), text)?;
        assert!(rt; fault == Some(ReportFault::Syntax { line }), "at {text}");
    }
    Ok(())
}

/// What the first entry of a log says that its command has of processes.
fn first_lingers(log: &RunLog) -> Option<Linger> {
    match log.journal.as_slice().first() {
        Some(entry) => match &entry.cmd {
            Cmd::SoftPurge { lingers, .. } => *lingers,
            _ => None,
        },
        None => None,
    }
}

fn lingers_with(alloc: Global, names: &Names, text: &str) -> Result<Option<Linger>, Fail> {
    let log = read_report(alloc, names, text.as_bytes())?;
    Ok(first_lingers(&log))
}

/// The same of the log that a text is read as.
fn lingers_in(alloc: Global, text: &str) -> Result<Option<Linger>, Fail> {
    let names = some_names(alloc)?;
    lingers_with(alloc, &names, text)
}

#[test]
fn replies_tell_of_processes(rt: HostRuntime) -> Result<(), Fail> {
    let text = "beam report 1\ngenerations 0\nentry L0 soft_purge m = false 3 12 -\nend report\n";
    let lingers = Linger {
        process: 3,
        turn: 12,
    };
    assert_eq!(rt; lingers_in(rt.alloc(), text)?, Some(lingers));
    let text = "beam report 1\ngenerations 0\nentry L0 soft_purge m = true -\nend report\n";
    assert_eq!(rt; lingers_in(rt.alloc(), text)?, None);
    Ok(())
}
