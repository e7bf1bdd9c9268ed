use crate::tests::{CALM, outcome_of};
use std::alloc::{AllocError, Global};
use std::process::Abort;
use std::sync::Wait;
use std::test::Fail;
use std::thread::Threads;

/// Runs a script with these lines between its first and its last, and compares the report: how many generations it
/// tells, and the lines behind that.
pub fn runs_as<R: Threads + Wait + Sync + AllocGlobal + Abort>(
    rt: &R,
    lines: &str,
    generations: u64,
    told: &str,
) -> Result<bool, AllocError> {
    let alloc = rt.alloc();
    let script = format!(in alloc; "beam script 1\n{lines}go\n")?;
    let report = format!(in alloc; "beam report 1\ngenerations {generations}\n{told}end report\n")?;
    let Ok(run) = outcome_of(rt, &["run"], script.as_bytes(), CALM) else {
        return Err(AllocError);
    };
    Ok(run.status == 0 && run.got.as_slice() == report.as_bytes())
}

/// Runs a script with these lines between its first and its last, and compares how the report begins and how it ends. What
/// stands between depends on when the process has its turns.
fn runs_from_to<R: Threads + Wait + Sync + AllocGlobal + Abort>(
    rt: &R,
    lines: &str,
    told: &str,
    end: &str,
) -> Result<bool, AllocError> {
    let alloc = rt.alloc();
    let script = format!(in alloc; "beam script 1\n{lines}go\n")?;
    let Ok(run) = outcome_of(rt, &["run"], script.as_bytes(), CALM) else {
        return Err(AllocError);
    };
    let report = run.got.as_slice();
    Ok(run.status == 0 && report.starts_with(told.as_bytes()) && report.ends_with(end.as_bytes()))
}

/// Three versions of a module, and one of another.
const VERSIONS: &str =
    "module m.1\nend\nmodule m.2\nend\nmodule m.3\nend\nmodule n.1\nend\nloader\n";

#[test]
fn commands_have_their_replies(rt: HostRuntime) -> Result<(), Fail> {
    let alloc = rt.alloc();
    let cases = [
        ("", 0, ""),
        (
            "load m.1\nload m.2\nload m.3\n",
            2,
            "entry L0 load m.1 = ok @1\nentry L0 load m.2 = ok @2\nentry L0 load m.3 = not_purged [m] -\n",
        ),
        (
            "load m.1 m.2\n",
            0,
            "entry L0 load m.1 m.2 = duplicated m -\n",
        ),
        (
            "load m.1\nload m.2\nload n.1 m.3\ndelete n\ncheck_old m\n",
            2,
            "entry L0 load m.1 = ok @1\nentry L0 load m.2 = ok @2\nentry L0 load n.1 m.3 = not_purged [m] -\nentry L0 delete n = false -\nentry L0 check_old m = true -\n",
        ),
        (
            "put k {1,2}\nput k {1,2}\nput k 5\n",
            2,
            "entry L0 put k {1,2} = ok @1\nentry L0 put k {1,2} = ok -\nentry L0 put k 5 = ok @2\nentry rt release 1 = ok -\n",
        ),
    ];
    assert!(rt; runs_as(&rt, "", 0, "")?);
    for (commands, generations, told) in cases {
        let lines = format!(in alloc; "{VERSIONS}{commands}")?;
        assert!(rt;
            runs_as(&rt, lines.as_str(), generations, told)?,
            "at {commands}"
        );
    }
    Ok(())
}

#[test]
fn an_absent_key_ends_its_reader(rt: HostRuntime) -> Result<(), Fail> {
    let lines =
        "module m.1\nexport main/0\npget k $0\nend\nloader\nload m.1\nspawn m:main()\nerase k\n";
    let told =
        "entry L0 load m.1 = ok @1\nentry L0 spawn m:main() = ok -\nentry L0 erase k = false -\nprocess 0 m:main()\nspan 1 1\nend badarg\n";
    assert!(rt; runs_as(&rt, lines, 1, told)?);
    Ok(())
}

#[test]
fn sums_end_their_process(rt: HostRuntime) -> Result<(), Fail> {
    let cases = [
        ("add 576460752303423487 1 $0", "system_limit"),
        ("add ok 1 $0", "badarith"),
    ];
    for (sum, end) in cases {
        let lines = format!(in rt.alloc();
            "module m.1\nexport main/0\n{sum}\nend\nloader\nload m.1\nspawn m:main()\n"
        )?;
        let told = format!(in rt.alloc();
            "entry L0 load m.1 = ok @1\nentry L0 spawn m:main() = ok -\nprocess 0 m:main()\nspan 1 1\nend {end}\n"
        )?;
        assert!(rt; runs_as(&rt, lines.as_str(), 1, told.as_str())?, "{sum}");
    }
    Ok(())
}

#[test]
fn purge_kills(rt: HostRuntime) -> Result<(), Fail> {
    let lines =
        "module m.1\nexport main/0\nlabel a\nyield\njump a\nend\nmodule m.2\nend\nloader\nload m.1\nspawn m:main()\nload m.2\npurge m\npurge m\n";
    let told =
        "beam report 1\ngenerations 4\nentry L0 load m.1 = ok @1\nentry L0 spawn m:main() = ok -\nentry L0 load m.2 = ok @2\nentry L0 doom m = ok @3\nentry L0 purge m = true @4\n";
    let end = "end killed 1\nend report\n";
    assert!(rt; runs_from_to(&rt, lines, told, end)?);
    Ok(())
}

#[test]
fn trace_twice(rt: HostRuntime) -> Result<(), Fail> {
    let lines =
        "module m.1\nexport main/0\nadd 1 2 $0\nprint $0\nend\nloader\nload m.1\ntrace m:main/0 on\ntrace m:main/0 on\ntrace m:g/0 on\n";
    let told =
        "entry L0 load m.1 = ok @1\nentry L0 trace m:main/0 on = true @2\nentry L0 trace m:main/0 on = true -\nentry L0 trace m:g/0 on = false -\n";
    assert!(rt; runs_as(&rt, lines, 2, told)?);
    Ok(())
}

/// Fifty-five instances are live at most; one that is deleted still is, and one that is purged is not.
#[test]
fn a_purged_instance_makes_room(rt: HostRuntime) -> Result<(), Fail> {
    let alloc = rt.alloc();
    let mut lines = String::new(alloc);
    for number in 0..56u32 {
        lines.push_str(format!(in alloc; "module i{number}.1\nend\n")?.as_str())?;
    }
    lines.push_str("loader\n")?;
    let mut told = String::new(alloc);
    for number in 0..55u32 {
        lines.push_str(format!(in alloc; "load i{number}.1\n")?.as_str())?;
        let generation = number + 1;
        told.push_str(format!(in alloc;
            "entry L0 load i{number}.1 = ok @{generation}\n"
        )?.as_str())?;
    }
    lines.push_str("load i55.1\ndelete i0\nsoft_purge i0\nload i55.1\n")?;
    told.push_str(
        "entry L0 load i55.1 = system_limit instances -\nentry L0 delete i0 = true @56\nentry L0 soft_purge i0 = true @57\nentry rt release 1 = ok -\nentry L0 load i55.1 = ok @58\n",
    )?;
    assert!(rt; runs_as(&rt, lines.as_str(), 58, told.as_str())?);
    Ok(())
}

/// The frame's instance and the terms of sixteen keys are seventeen areas.
#[test]
fn the_seventeenth_area_ends_a_process(rt: HostRuntime) -> Result<(), Fail> {
    let alloc = rt.alloc();
    let mut puts = String::new(alloc);
    let mut told = String::new(alloc);
    for key in 0..16u32 {
        puts.push_str(format!(in alloc; "put k{key} {{{key}}}\n")?.as_str())?;
        let generation = key + 1;
        told.push_str(format!(in alloc;
            "entry L0 put k{key} {{{key}}} = ok @{generation}\n"
        )?.as_str())?;
    }
    for (count, body) in [(16u32, "end system_limit\n"), (15, "print 1\nend normal\n")] {
        let mut lines = String::from_str(alloc, "module m.1\nexport main/0\n")?;
        for key in 0..count {
            lines.push_str(format!(in alloc; "pget k{key} ${key}\n")?.as_str())?;
        }
        let lines = format!(in alloc;
            "{lines}print 1\nend\nloader\n{puts}load m.1\nspawn m:main()\n"
        )?;
        let told = format!(in alloc;
            "{told}entry L0 load m.1 = ok @17\nentry L0 spawn m:main() = ok -\nprocess 0 m:main()\nspan 17 1\n{body}"
        )?;
        assert!(rt;
            runs_as(&rt, lines.as_str(), 17, told.as_str())?,
            "{count} keys"
        );
    }
    Ok(())
}

#[test]
fn a_line_has_4096_bytes(rt: HostRuntime) -> Result<(), Fail> {
    let alloc = rt.alloc();
    let mut refs = String::new(alloc);
    for _ in 0..1023 {
        refs.push_str(" m.1")?;
    }
    let lines = format!(in alloc; "module m.1\nend\nloader\nload{refs}\n")?;
    let told = format!(in alloc; "entry L0 load{refs} = duplicated m -\n")?;
    assert!(rt; runs_as(&rt, lines.as_str(), 0, told.as_str())?);
    let long = format!(in alloc; "beam script 1\nmodule m.1\nend\nloader\nload{refs}0\ngo\n")?;
    let call = outcome_of(&rt, &["run"], long.as_bytes(), CALM)?;
    assert_eq!(rt;
        call.got.as_slice(),
        b"refused 5 line_too_long\n".as_slice()
    );
    Ok(())
}

/// So many puts of a term under new keys, and their entries.
fn puts(alloc: Global, count: u32, term: &str) -> Result<(String, String), AllocError> {
    let mut lines = String::from_str(alloc, "loader\n")?;
    let mut told = String::new(alloc);
    for key in 0..count {
        let generation = key + 1;
        lines.push_str(format!(in alloc; "put k{key} {term}\n")?.as_str())?;
        told.push_str(format!(in alloc;
            "entry L0 put k{key} {term} = ok @{generation}\n"
        )?.as_str())?;
    }
    Ok((lines, told))
}

#[test]
fn keys_and_areas_have_limits(rt: HostRuntime) -> Result<(), Fail> {
    let alloc = rt.alloc();
    let (mut lines, mut told) = puts(alloc, 384, "1")?;
    lines.push_str("put z 1\nput k7 2\nerase k0\nput z 1\n")?;
    told.push_str(
        "entry L0 put z 1 = system_limit keys -\nentry L0 put k7 2 = ok @385\nentry L0 erase k0 = true @386\nentry L0 put z 1 = ok @387\n",
    )?;
    assert!(rt; runs_as(&rt, lines.as_str(), 387, told.as_str())?);
    let (mut lines, mut told) = puts(alloc, 256, "{0}")?;
    lines.push_str("put z {0}\nput z 1\nput k0 {0}\nput k0 {1}\nput k0 1\nput z {0}\n")?;
    told.push_str(
        "entry L0 put z {0} = system_limit areas -\nentry L0 put z 1 = ok @257\nentry L0 put k0 {0} = ok -\nentry L0 put k0 {1} = system_limit areas -\nentry L0 put k0 1 = ok @258\nentry rt release 1 = ok -\nentry L0 put z {0} = ok @259\n",
    )?;
    assert!(rt; runs_as(&rt, lines.as_str(), 259, told.as_str())?);
    Ok(())
}
