use crate::tests::{CALM, called_through, is_lawful, outcome_of};
use std::sync::atomic::{AtomicU64, Ordering};
use std::test::Fail;
use write_permit::{Gate, Place};

/// How many looks a passing is held for.
const LOOKS: u32 = 10_000;

/// Holds every tenth passing of one place.
#[derive(Drop)]
struct Holding {
    place: Place,
    /// How often the place was passed.
    passed: AtomicU64,
}

impl Gate for Holding {
    fn at(&self, place: Place, _who: u32) {
        if place == self.place && self.passed.fetch_add(1, Ordering::SeqCst) % 10 == 9 {
            for _look in 0..LOOKS {
                self.passed.load(Ordering::SeqCst);
            }
        }
    }
}

#[test]
fn held_at_each_place(rt: HostRuntime) -> Result<(), Fail> {
    let make = &["make", "--seed", "3", "--size", "200"];
    let script = outcome_of(&rt, make, b"", CALM)?.got;
    for place in [
        Place::TurnTaken,
        Place::Reported,
        Place::Committed,
        Place::Released,
    ] {
        let gate = Holding {
            place,
            passed: AtomicU64::new(0),
        };
        let words = &["run", "--schedulers", "4"];
        let run = called_through(&rt, words, script.as_slice(), CALM, &gate)?;
        assert_eq!(rt; run.status, 0, "at {place:?}");
        assert!(rt; gate.passed.load(Ordering::SeqCst) >= 10, "at {place:?}");
        let lawful = is_lawful(&rt, script.as_slice(), run.got.as_slice())?;
        assert!(rt; lawful, "at {place:?}");
    }
    Ok(())
}
