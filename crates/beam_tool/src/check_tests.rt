use crate::tests::{CALM, CHECK, outcome_of};
use std::alloc::AllocError;
use std::process::Abort;
use std::sync::Wait;
use std::test::Fail;
use std::thread::Threads;

/// A process of the first version calls the second one once it is loaded.
const TWO_VERSIONS: &str =
    "module m.1\nexport main/0\nlabel a\nyield\npget_or flag 0 $1\neq $1 0 a\ncall_ext m:say/0 $0\nprint $0\nexport say/0\nret 1\nend\nmodule m.2\nexport main/0\nexport say/0\nret 2\nend\n";

/// A process that never ends by itself, and a version without functions.
const ENDLESS: &str =
    "module m.1\nexport main/0\nlabel a\nyield\njump a\nend\nmodule m.2\nend\nloader\nload m.1\nspawn m:main()\nload m.2\npurge m\npurge m\n";

/// A process that reads a key and calls a function of another module.
const TWO_READS: &str =
    "module m.1\nexport ver/0\nret 1\nend\nmodule m.2\nexport ver/0\nret 2\nend\nmodule n.1\nexport main/0\npget flag $0\ncall_ext m:ver/0 $1\nprint $0\nprint $1\nend\nloader\nload m.1 n.1\nput flag 1\nspawn n:main()\nload m.2\nput flag 2\n";

/// A process that still has a term whose key is erased.
const ERASED: &str =
    "module n.1\nexport main/0\npget k $0\nyield\nprint $0\nend\nloader\nput k {1,2}\nload n.1\nspawn n:main()\nerase k\nput z 1\n";

/// A function whose breakpoint is set and taken away beneath a process.
const TRACED: &str =
    "module m.1\nexport main/0\nmove 7 $0\ncall f/1 $0\nyield\ncall f/1 $0\nlocal f/1\nret $0\nend\nloader\nload m.1\nspawn m:main()\ntrace m:f/1 on\ntrace m:f/1 off\n";

/// The first script with an observer of one snapshot.
const OBSERVED: &str =
    "module m.1\nexport main/0\nadd 1 2 $0\nprint $0\nend\nobserver 1\nloader\nload m.1\nspawn m:main()\n";

/// What the report of the first script tells.
const FIRST_TOLD: &str =
    "entry L0 load m.1 = ok @1\nentry L0 spawn m:main() = ok -\nprocess 0 m:main()\nspan 1 1\nprint 3\nend normal\n";

/// Whether the report with these lines, which tells so many generations, is judged so behind the script with these
/// lines.
fn is_judged<R: Threads + Wait + Sync + AllocGlobal + Abort>(
    rt: &R,
    lines: &str,
    generations: u64,
    told: &str,
    lawful: bool,
) -> Result<bool, AllocError> {
    let alloc = rt.alloc();
    let input = format!(in alloc;
        "beam script 1\n{lines}go\nbeam report 1\ngenerations {generations}\n{told}end report\n"
    )?;
    let Ok(check) = outcome_of(rt, CHECK, input.as_bytes(), CALM) else {
        return Err(AllocError);
    };
    let (status, line) = if lawful {
        (0, "lawful\n")
    } else {
        (1, "not lawful\n")
    };
    Ok(check.status == status && check.got.as_slice() == line.as_bytes() && !check.logged)
}

#[test]
fn external_calls_reach_current_code(rt: HostRuntime) -> Result<(), Fail> {
    let alloc = rt.alloc();
    let lines = format!(in alloc;
        "{TWO_VERSIONS}loader\nload m.1\nspawn m:main()\nload m.2\nput flag 1\n"
    )?;
    for (printed, lawful) in [("2", true), ("1", false)] {
        let told = format!(in alloc;
            "entry L0 load m.1 = ok @1\nentry L0 spawn m:main() = ok -\nentry L0 load m.2 = ok @2\nentry L0 put flag 1 = ok @3\nprocess 0 m:main()\nspan 1 1\nspan 3 1\nprint {printed}\nend normal\n"
        )?;
        assert!(rt;
            is_judged(&rt, lines.as_str(), 3, told.as_str(), lawful)?,
            "print {printed}"
        );
    }
    Ok(())
}

#[test]
fn soft_purges_tell_who_lingers(rt: HostRuntime) -> Result<(), Fail> {
    let alloc = rt.alloc();
    let lines = format!(in alloc;
        "{TWO_VERSIONS}loader\nload m.1\nspawn m:main()\nload m.2\nsoft_purge m\nput flag 1\nsoft_purge m\n"
    )?;
    // The process that lingers, the release, and whether that is lawful. After its second turn the process has ended.
    let cases = [
        ("false 0 1", "entry rt release 1 = ok -\n", true),
        ("false 0 2", "entry rt release 1 = ok -\n", false),
        ("false 0 1", "", false),
    ];
    for (lingers, release, lawful) in cases {
        let told = format!(in alloc;
            "entry L0 load m.1 = ok @1\nentry L0 spawn m:main() = ok -\nentry L0 load m.2 = ok @2\nentry L0 soft_purge m = {lingers} -\nentry L0 put flag 1 = ok @3\nentry L0 soft_purge m = true @4\n{release}process 0 m:main()\nspan 1 1\nspan 3 1\nprint 2\nend normal\n"
        )?;
        assert!(rt;
            is_judged(&rt, lines.as_str(), 4, told.as_str(), lawful)?,
            "{lingers}, {release}"
        );
    }
    Ok(())
}

#[test]
fn purges_tell_whether_they_killed(rt: HostRuntime) -> Result<(), Fail> {
    for (killed, lawful) in [("true", true), ("false", false)] {
        let told = format!(in rt.alloc();
            "entry L0 load m.1 = ok @1\nentry L0 spawn m:main() = ok -\nentry L0 load m.2 = ok @2\nentry L0 doom m = ok @3\nentry L0 purge m = {killed} @4\nentry L0 purge m = false -\nentry rt release 1 = ok -\nprocess 0 m:main()\nspan 1 1\nspan 3 1\nend killed 1\n"
        )?;
        assert!(rt;
            is_judged(&rt, ENDLESS, 4, told.as_str(), lawful)?,
            "{killed}"
        );
    }
    Ok(())
}

#[test]
fn code_and_terms_are_of_one_generation(rt: HostRuntime) -> Result<(), Fail> {
    // The span of the process, and the lines that it printed: first the key, then what was called.
    let cases = [
        ("span 4 1\nprint 2\nprint 2\n", true),
        ("span 3 1\nprint 1\nprint 2\n", true),
        ("span 4 1\nprint 2\nprint 1\n", false),
    ];
    for (shown, lawful) in cases {
        let told = format!(in rt.alloc();
            "entry L0 load m.1 n.1 = ok @1\nentry L0 put flag 1 = ok @2\nentry L0 spawn n:main() = ok -\nentry L0 load m.2 = ok @3\nentry L0 put flag 2 = ok @4\nprocess 0 n:main()\n{shown}end normal\n"
        )?;
        assert!(rt;
            is_judged(&rt, TWO_READS, 4, told.as_str(), lawful)?,
            "{shown}"
        );
    }
    Ok(())
}

#[test]
fn areas_are_released_when_nobody_names_them(rt: HostRuntime) -> Result<(), Fail> {
    // The last entries. Before the put the process has had no turn since the key was erased.
    let cases = [
        (
            "entry L0 put z 1 = ok @4\nentry rt release 1 = ok -\n",
            true,
        ),
        (
            "entry rt release 1 = ok -\nentry L0 put z 1 = ok @4\n",
            false,
        ),
    ];
    for (last, lawful) in cases {
        let told = format!(in rt.alloc();
            "entry L0 put k {{1,2}} = ok @1\nentry L0 load n.1 = ok @2\nentry L0 spawn n:main() = ok -\nentry L0 erase k = true @3\n{last}process 0 n:main()\nspan 2 1\nspan 4 1\nprint {{1,2}}\nend normal\n"
        )?;
        assert!(rt; is_judged(&rt, ERASED, 4, told.as_str(), lawful)?, "{last}");
    }
    Ok(())
}

#[test]
fn traced_calls_have_their_lines(rt: HostRuntime) -> Result<(), Fail> {
    // The generation of the second turn: the breakpoint is on in generation 2 alone.
    for (generation, lawful) in [(2, true), (3, false)] {
        let told = format!(in rt.alloc();
            "entry L0 load m.1 = ok @1\nentry L0 spawn m:main() = ok -\nentry L0 trace m:f/1 on = true @2\nentry L0 trace m:f/1 off = true @3\nprocess 0 m:main()\nspan 1 1\nspan {generation} 1\ntrace m:f(7)\nend normal\n"
        )?;
        assert!(rt;
            is_judged(&rt, TRACED, 3, told.as_str(), lawful)?,
            "span {generation}"
        );
    }
    Ok(())
}

#[test]
fn snapshots_tell_the_exports_of_their_generation(rt: HostRuntime) -> Result<(), Fail> {
    let cases = [
        ("snapshot 1\nexport m:main/0 1\n", true),
        ("snapshot 0\n", true),
        ("snapshot 0\nexport m:main/0 1\n", false),
    ];
    for (shot, lawful) in cases {
        let told = format!(in rt.alloc(); "{FIRST_TOLD}observer 0\n{shot}")?;
        assert!(rt;
            is_judged(&rt, OBSERVED, 1, told.as_str(), lawful)?,
            "{shot}"
        );
    }
    Ok(())
}

#[test]
fn a_report_that_stops_is_refused(rt: HostRuntime) -> Result<(), Fail> {
    let input = "beam script 1\ngo\nbeam report 1\ngenerations 0\n";
    let check = outcome_of(&rt, CHECK, input.as_bytes(), CALM)?;
    assert_eq!(rt;
        check.got.as_slice(),
        b"refused report 2 syntax\n".as_slice()
    );
    assert_eq!(rt; check.status, 3);
    Ok(())
}
