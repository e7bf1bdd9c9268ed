use script_text::read_script;
use std::alloc::Global;
use std::sync::atomic::{AtomicU64, Ordering};
use std::test::Fail;
use std::thread;
use term_core::NoMemory;
use word_run::run_script;
use write_permit::{Gate, Place};

/// Two processes that wait for a key, or until their code is purged.
const WAITING: &str = "beam script 1
module m.1
export main/0
label a
yield
pget_or flag 0 $0
eq $0 0 a
end
module m.2
end
loader
load m.1
spawn m:main()
spawn m:main()
";

/// How often a scheduler looks for what it waits for before it gives way to other threads.
const LOOKS: u32 = 200_000;

/// How often it gives way before it has waited in vain.
const WAITS: u32 = 100;

/// How many turns are held before all is let go.
const MOST_HOLDS: u64 = 100;

/// How often schedulers wait in vain before all is let go.
const MOST_MISSED: u64 = 3;

/// Holds turns on scheduler 1, and sees whether a commit on scheduler 0 comes meanwhile.
///
/// The two schedulers begin each lap together. In a lap scheduler 0 makes its commands once a turn is held, which is let go when they are made: a turn that
/// were held for longer would hold back the progress for which a commit waits. Whoever waits does so for so many looks at most.
#[derive(Drop)]
struct Overlap {
    /// How many commits come before the one that is awaited. Turns are held from then on.
    before: u64,
    /// How many commits have come.
    commits: AtomicU64,
    /// How many laps scheduler 0 and scheduler 1 have begun.
    laps: AtomicU64,
    followed: AtomicU64,
    /// How many turns scheduler 1 has had, and how many of them were held and let go.
    turns: AtomicU64,
    holds: AtomicU64,
    /// The lap whose turn is held, and the one that scheduler 0 saw held before its commands. At 0 none is held.
    held: AtomicU64,
    seen: AtomicU64,
    /// The lap in which scheduler 0 has made its commands.
    made: AtomicU64,
    /// Whether the commit that is awaited came of a command before and behind which the same turn was held: 1, else 0.
    overlaps: AtomicU64,
    /// How often a scheduler has waited in vain.
    missed: AtomicU64,
}

impl Gate for Overlap {
    fn at(&self, place: Place, who: u32) {
        match (place, who) {
            (Place::Reported, 0) => self.begin_lap(),
            (Place::Committed, 0) => self.note_commit(),
            (Place::TurnTaken, 0) => self.end_commands(),
            (Place::Reported, 1) => self.follow_lap(),
            (Place::TurnTaken, 1) => self.hold(),
            _ => {}
        }
    }
}

impl Overlap {
    fn new(before: u64) -> Overlap {
        Overlap {
            before,
            commits: AtomicU64::new(0),
            laps: AtomicU64::new(0),
            followed: AtomicU64::new(0),
            turns: AtomicU64::new(0),
            holds: AtomicU64::new(0),
            held: AtomicU64::new(0),
            seen: AtomicU64::new(0),
            made: AtomicU64::new(0),
            overlaps: AtomicU64::new(0),
            missed: AtomicU64::new(0),
        }
    }

    /// Whether the commit has come during a hold.
    fn has_come(&self) -> bool {
        self.overlaps.load(Ordering::SeqCst) != 0
    }

    /// Whether no turn is held yet.
    fn is_early(&self) -> bool {
        self.commits.load(Ordering::SeqCst) < self.before
    }

    /// Whether the next commit is the one that is awaited.
    fn is_awaited(&self) -> bool {
        self.commits.load(Ordering::SeqCst) == self.before
    }

    /// Whether all is let go.
    fn is_over(&self) -> bool {
        self.has_come()
            || self.holds.load(Ordering::SeqCst) >= MOST_HOLDS
            || self.missed.load(Ordering::SeqCst) >= MOST_MISSED
    }

    /// Whether a count comes to this lap, or all is let go, within so many looks.
    fn comes_to(&self, count: &AtomicU64, lap: u64) -> bool {
        for _ in 0..LOOKS {
            if self.is_over() || count.load(Ordering::SeqCst) >= lap {
                return true;
            }
        }
        false
    }

    /// Waits until a count has come to this lap.
    fn await_lap(&self, count: &AtomicU64, lap: u64) {
        for _ in 0..WAITS {
            if self.comes_to(count, lap) {
                return;
            }
            thread::yield_now();
        }
        self.missed.fetch_add(1, Ordering::SeqCst);
    }

    /// Scheduler 0 begins a lap, once the other one has begun it too and holds its turn, if it has one.
    fn begin_lap(&self) {
        self.laps.fetch_add(1, Ordering::SeqCst);
        let lap = self.laps.load(Ordering::SeqCst);
        self.await_lap(&self.followed, lap);
        if !self.is_early() && self.turns.load(Ordering::SeqCst) != 0 {
            self.await_lap(&self.held, lap);
        }
        let held = self.held.load(Ordering::SeqCst);
        self.seen.store(held, Ordering::SeqCst);
    }

    /// Loader 0, which is on scheduler 0, has published.
    fn note_commit(&self) {
        let awaited = self.is_awaited();
        self.commits.fetch_add(1, Ordering::SeqCst);
        let held = self.held.load(Ordering::SeqCst);
        if awaited && held != 0 && held == self.seen.load(Ordering::SeqCst) {
            self.overlaps.fetch_add(1, Ordering::SeqCst);
        }
    }

    /// Scheduler 0 has made its commands in this lap.
    fn end_commands(&self) {
        let lap = self.laps.load(Ordering::SeqCst);
        self.made.store(lap, Ordering::SeqCst);
    }

    /// Scheduler 1 begins a lap, once the other one has begun it too.
    fn follow_lap(&self) {
        self.followed.fetch_add(1, Ordering::SeqCst);
        let lap = self.followed.load(Ordering::SeqCst);
        self.await_lap(&self.laps, lap);
    }

    /// Scheduler 1 holds its turn until the other one has made its commands.
    fn hold(&self) {
        self.turns.fetch_add(1, Ordering::SeqCst);
        if self.is_early() || self.is_over() {
            return;
        }
        let lap = self.followed.load(Ordering::SeqCst);
        self.held.store(lap, Ordering::SeqCst);
        self.await_lap(&self.made, lap);
        self.held.store(0, Ordering::SeqCst);
        self.holds.fetch_add(1, Ordering::SeqCst);
    }
}

/// A script of these commands, with sixteen looks for old code before the first and the second one.
///
/// A look takes one lap: sixteen take as many as a slice has, so process 1 has its turns before the command that the test awaits.
fn waiting_script(
    alloc: Global,
    first: &str,
    second: &str,
    behind: &str,
) -> Result<String, NoMemory> {
    let mut text = String::from_str(alloc, WAITING)?;
    for command in [first, second] {
        if !command.is_empty() {
            for _ in 0..16 {
                text.push_str("check_old m\n")?;
            }
            text.push_str(command)?;
        }
    }
    text.push_str(behind)?;
    text.push_str("go\n")?;
    Ok(text)
}

/// A run on one thread, or one in which no turn runs while a command is published, would see no commit during a hold. Of the purge the commit that is
/// awaited is that of the doom, behind two loads; of each other command it is its own, behind one load.
#[test]
fn held_turn_sees_commit(rt: HostRuntime) -> Result<(), Fail> {
    let alloc = rt.alloc();
    for (command, purge, behind, before, published) in [
        ("load m.2\n", "", "put flag 1\n", 1, 3),
        ("put x 1\n", "", "put flag 1\n", 1, 3),
        ("load m.2\n", "purge m\n", "", 2, 4),
        ("trace m:main/0 on\n", "", "put flag 1\n", 1, 3),
    ] {
        let text = waiting_script(alloc, command, purge, behind)?;
        let script = read_script(alloc, text.as_bytes())?;
        let overlap = Overlap::new(before);
        let ran = run_script(&rt, alloc, &script, 2, &overlap)?;
        assert!(rt; overlap.has_come(), "{command}{purge}");
        assert_eq!(rt; ran.closed.published(), published, "{command}{purge}");
    }
    Ok(())
}
