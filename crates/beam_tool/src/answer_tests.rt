use crate::tests::{CALM, outcome_of};
use std::process::Abort;
use std::sync::Wait;
use std::test::Fail;
use std::thread::Threads;
use term_core::NoMemory;

/// A text, its status under these words and the line that is written.
fn answers<R: Threads + Wait + Sync + AllocGlobal + Abort>(
    rt: &R,
    words: &[&str],
    case: (&str, u8, &str),
) -> Result<bool, NoMemory> {
    let (text, status, line) = case;
    let call = outcome_of(rt, words, text.as_bytes(), CALM)?;
    Ok(call.status == status && call.got.as_slice() == line.as_bytes() && !call.logged)
}

#[test]
fn faulty_scripts_are_refused(rt: HostRuntime) -> Result<(), Fail> {
    let cases = [
        ("", 3, "refused 1 syntax\n"),
        (
            "beam script 1\nmodule m.1\nexport main/0\n",
            3,
            "refused 3 syntax\n",
        ),
        (
            "beam script 1\nloader\nspawn m:main()\nload m.9\ngo\n",
            3,
            "refused 4 unknown_name\n",
        ),
        (
            "beam script 1\nmodule m.1\nend\nmodule m.1\nend\ngo\n",
            3,
            "refused 4 duplicate\n",
        ),
        (
            "beam script 1\nloader\nloader\nloader\nloader\nloader\nloader\nloader\nloader\nloader\ngo\n",
            3,
            "refused 10 limit loaders\n",
        ),
        (
            "beam script 1\nmodule m.1\nexport main/0\njump b\nend\ngo\n",
            3,
            "refused 4 unknown_name\n",
        ),
    ];
    for case in cases {
        assert!(rt; answers(&rt, &["run"], case)?, "at {}", case.0);
    }
    Ok(())
}

/// The events of a claim up to the second raise of the counter.
const CLAIMED: &str =
    "beam progress 1\nmembers 1\nwatchers 1\nwatch_load 0\nwatch_add 0 1\nwatch_load 0\nwatch_root 0\nlead 0\nscan 0 0\nscan_delay 0\nadvance 0\nload_counter 0\nload_root 0\nreport 0\nscan 0 0\nscan_delay 0\n";

#[test]
fn event_lists_are_replayed(rt: HostRuntime) -> Result<(), Fail> {
    let alloc = rt.alloc();
    let waits = format!(in alloc; "{CLAIMED}advance 0\ngo\n")?;
    let ends = format!(in alloc; "{CLAIMED}watch_sub 0 1\nscan_delay 0\nadvance 0\ngo\n")?;
    let cases = [
        (
            "beam progress 1\nmembers 1\nwatchers 0\npublish\nretire\nlead 0\nscan 0 0\nadvance 0\nrelease 1\ngo\n",
            1,
            "not enabled 6\n",
        ),
        (
            "beam progress 1\nmembers 2\nwatchers 0\nwait 1\nlead 0\nscan 0 0\nscan 0 1\nenter 1\nload_counter 1\nload_root 1\nadvance 0\nreport 1\ngo\n",
            0,
            "done events 9 counter 2 generation 0\n",
        ),
        (waits.as_str(), 1, "not enabled 14\n"),
        (ends.as_str(), 0, "done events 16 counter 3 generation 0\n"),
        (
            "beam progress 1\nmembers 17\nwatchers 0\ngo\n",
            3,
            "refused 2 syntax\n",
        ),
    ];
    for case in cases {
        assert!(rt; answers(&rt, &["progress"], case)?, "at {}", case.0);
    }
    Ok(())
}
