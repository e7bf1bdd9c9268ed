use run_log::{RunLog, render};
use script_core::Script;
use script_text::read_script;
use std::alloc::Global;
use std::test::Fail;
use term_core::{ByteList, NoMemory};
use word_run::run_script;
use write_permit::NoGate;

/// Two processes that are spawned behind all that is published: whatever the schedule is, they have their turns under the last generation.
const TWO_PROCESSES: &str = "beam script 1
module m.1
export main/0
print 1
end
module n.1
export main/0
pget go $0
yield
print $0
end
loader
load m.1 n.1
put go 2
spawn m:main()
spawn n:main()
go
";

/// Its report, worked out by hand.
const TWO_PROCESSES_REPORT: &str = "beam report 1
generations 2
entry L0 load m.1 n.1 = ok @1
entry L0 put go 2 = ok @2
entry L0 spawn m:main() = ok -
entry L0 spawn n:main() = ok -
process 0 m:main()
span 2 1
print 1
end normal
process 1 n:main()
span 2 2
print 2
end normal
end report
";

/// Two observers, of which the second has fewer snapshots to take, beside no commands.
const TWO_OBSERVERS: &str = "beam script 1
observer 2
observer 1
go
";

/// Its report, worked out by hand: generation 0 exports nothing.
const TWO_OBSERVERS_REPORT: &str = "beam report 1
generations 0
observer 0
snapshot 0
snapshot 0
observer 1
snapshot 0
end report
";

#[test]
fn observers_have_their_snapshots(rt: HostRuntime) -> Result<(), Fail> {
    let alloc = rt.alloc();
    let script = read_script(alloc, TWO_OBSERVERS.as_bytes())?;
    for schedulers in [1, 2, 16] {
        let ran = run_script(&rt, alloc, &script, schedulers, &NoGate)?;
        let report = report_of(alloc, &script, &ran.log)?;
        assert_eq!(rt; report.as_slice(), TWO_OBSERVERS_REPORT.as_bytes());
        assert_eq!(rt; ran.closed.published(), 0);
    }
    Ok(())
}

#[test]
fn a_run_has_its_report(rt: HostRuntime) -> Result<(), Fail> {
    let alloc = rt.alloc();
    let script = read_script(alloc, TWO_PROCESSES.as_bytes())?;
    for schedulers in [1, 2, 16] {
        let ran = run_script(&rt, alloc, &script, schedulers, &NoGate)?;
        let report = report_of(alloc, &script, &ran.log)?;
        assert_eq!(rt; report.as_slice(), TWO_PROCESSES_REPORT.as_bytes());
        assert_eq!(rt; ran.closed.published(), 2);
    }
    Ok(())
}

/// The report of a run's log. That the log is lawful is what a run's contract says.
pub fn report_of(alloc: Global, script: &Script, log: &RunLog) -> Result<ByteList, NoMemory> {
    let mut text = ByteList::new(alloc);
    render(&script.names, log, &mut text)?;
    Ok(text)
}
