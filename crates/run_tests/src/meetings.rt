use crate::reports::report_of;
use script_text::read_script;
use std::sync::atomic::{AtomicU64, Ordering};
use std::test::Fail;
use word_run::run_script;
use write_permit::{Gate, Place};

/// Two loaders, each of which spawns a process of a module that nobody loads.
const TWO_SPAWNS: &str = "beam script 1
loader
spawn m:main()
loader
spawn m:main()
go
";

/// What its report tells of the processes. Which loader comes first is left to the schedule.
const TWO_ENDS: &str = "process 0 m:main()
span 0 1
end undef m:main/0
process 1 m:main()
span 0 1
end undef m:main/0
end report
";

/// How often a turn looks whether the other one has come.
const LOOKS: u32 = 100_000_000;

/// Holds each of two turns until the other one has come too.
#[derive(Drop)]
struct Meeting {
    /// How many turns have come.
    came: AtomicU64,
    /// How many have waited in vain.
    missed: AtomicU64,
}

impl Gate for Meeting {
    fn at(&self, place: Place, _who: u32) {
        if place == Place::TurnTaken {
            self.came.fetch_add(1, Ordering::SeqCst);
            self.wait();
        }
    }
}

impl Meeting {
    fn new() -> Meeting {
        Meeting {
            came: AtomicU64::new(0),
            missed: AtomicU64::new(0),
        }
    }

    /// Looks until both turns have come, so many times at most.
    fn wait(&self) {
        for _ in 0..LOOKS {
            if self.came.load(Ordering::SeqCst) == 2 {
                return;
            }
        }
        self.missed.fetch_add(1, Ordering::SeqCst);
    }
}

/// A run on one thread would have the second turn only after the first one.
#[test]
fn two_turns_meet(rt: HostRuntime) -> Result<(), Fail> {
    let alloc = rt.alloc();
    let script = read_script(alloc, TWO_SPAWNS.as_bytes())?;
    let meeting = Meeting::new();
    let ran = run_script(&rt, alloc, &script, 2, &meeting)?;
    assert_eq!(rt; meeting.missed.load(Ordering::SeqCst), 0);
    let report = report_of(alloc, &script, &ran.log)?;
    assert!(rt; report.as_slice().ends_with(TWO_ENDS.as_bytes()));
    assert_eq!(rt; ran.closed.published(), 0);
    Ok(())
}
