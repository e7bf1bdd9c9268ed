//! What the judge of logs, and each part of it, says of a report behind its script.

ghost use Rattle.script_core.specs.Sound.{IsScript};

use legality::{
    Clause, first_breach, has_commands_in_order, is_complete, is_killed, killed_serials, legal,
    snapshots_fit, spans_rise, spawns_come_first,
};
use report_text::read_report;
use run_log::RunLog;
use script_core::Script;
use script_text::read_script;
use std::alloc::Global;
use std::test::Fail;
use term_core::Names;

/// Two loaders, each of which spawns a process, and an observer.
const SCRIPT: &str = "beam script 1
module m.1
export main/1
end
observer 2
loader
put k {1}
spawn m:main(1)
loader
load m.1
purge m
spawn m:main([1])
go
";

/// A lawful report of it.
const REPORT: &str = "beam report 1
generations 2
entry L0 put k {1} = ok @1
entry L1 load m.1 = ok @2
entry L0 spawn m:main(1) = ok -
entry L1 purge m = false -
entry L1 spawn m:main([1]) = ok -
process 0 m:main(1)
span 2 1
end normal
process 1 m:main([1])
span 2 1
end normal
observer 0
snapshot 0
snapshot 2
export m:main/1 2
end report
";

/// What is asked of a log.
#[derive(Clone, Copy, Debug)]
enum Asked {
    Lawful,
    /// whether this is the clause that it is found to break
    Breaks(Clause),
    CommandsInOrder,
    SpawnsFirst,
    Complete,
    SnapshotsFit,
    SpansRise,
    /// whether a process is killed by a purge of this instance
    Kills(u64),
}

fn breaks(alloc: Global, clause: Clause, script: &Script, log: &RunLog) -> Result<bool, Fail>
    requires { IsScript script.now }
{
    match first_breach(alloc, script, log)? {
        Some(breach) => Ok(breach.clause == clause),
        None => Ok(false),
    }
}

fn kills(alloc: Global, serial: u64, log: &RunLog) -> Result<bool, Fail> {
    Ok(is_killed(&killed_serials(alloc, log)?, serial))
}

fn is_so(alloc: Global, asked: Asked, script: &Script, log: &RunLog) -> Result<bool, Fail>
    requires { IsScript script.now }
{
    match asked {
        Asked::Lawful => Ok(legal(alloc, script, log)?),
        Asked::Breaks(clause) => breaks(alloc, clause, script, log),
        Asked::CommandsInOrder => Ok(has_commands_in_order(script, log)),
        Asked::SpawnsFirst => {
            Ok(has_commands_in_order(script, log) && spawns_come_first(script, log))
        }
        Asked::Complete => Ok(is_complete(script, log)),
        Asked::SnapshotsFit => Ok(snapshots_fit(script, log)),
        Asked::SpansRise => Ok(spans_rise(log)),
        Asked::Kills(serial) => kills(alloc, serial, log),
    }
}

/// The log of the report with another text in the place of one of its texts.
fn changed(alloc: Global, names: &Names, old: &str, new: &str) -> Result<RunLog, Fail> {
    let report = REPORT.replace(alloc, old, new)?;
    Ok(read_report(alloc, names, report.as_bytes())?)
}

/// Whether it is so of the report with this change behind the script.
fn holds_behind(
    alloc: Global,
    script: &Script,
    change: (&str, &str),
    asked: Asked,
) -> Result<bool, Fail>
    requires { IsScript script.now }
{
    let log = changed(alloc, &script.names, change.0, change.1)?;
    is_so(alloc, asked, script, &log)
}

/// The same behind the script's text.
fn holds(alloc: Global, old: &str, new: &str, asked: Asked) -> Result<bool, Fail> {
    let script = read_script(alloc, SCRIPT.as_bytes())?;
    holds_behind(alloc, &script, (old, new), asked)
}

#[test]
fn a_lawful_log_has_each_part(rt: HostRuntime) -> Result<(), Fail> {
    let parts = [
        (Asked::Lawful, true),
        (Asked::Breaks(Clause::Replays), false),
        (Asked::CommandsInOrder, true),
        (Asked::SpawnsFirst, true),
        (Asked::Complete, true),
        (Asked::SnapshotsFit, true),
        (Asked::SpansRise, true),
        (Asked::Kills(2), false),
    ];
    for (asked, expected) in parts {
        let holds = holds(rt.alloc(), "end report", "end report", asked)?;
        assert_eq!(rt; holds, expected, "{asked:?}");
    }
    Ok(())
}

#[test]
fn a_change_breaks_a_part(rt: HostRuntime) -> Result<(), Fail> {
    let first = "process 0 m:main(1)\nspan 2 1\nend normal\n";
    let killed = "process 0 m:main(1)\nspan 2 1\nspan 1 1\nend killed 2\n";
    let second = "process 1 m:main([1])\nspan 2 1\n";
    let longer = "process 1 m:main([1])\nspan 2 2\n";
    let changes = [
        (second, longer, Asked::Lawful),
        (second, longer, Asked::Breaks(Clause::TurnsFollow)),
        ("main(1) =", "main(2) =", Asked::CommandsInOrder),
        ("main(1)\nspan 2", "main(1)\nspan 1", Asked::SpawnsFirst),
        (
            "process 1 m:main([1])",
            "process 1 m:main([2])",
            Asked::Complete,
        ),
        ("snapshot 0", "snapshot 5", Asked::SnapshotsFit),
        (first, killed, Asked::SpansRise),
        (first, killed, Asked::Kills(2)),
    ];
    for (old, new, asked) in changes {
        let expected = matches!(asked, Asked::Breaks(_) | Asked::Kills(_));
        assert_eq!(rt; holds(rt.alloc(), old, new, asked)?, expected, "{asked:?}");
    }
    Ok(())
}
