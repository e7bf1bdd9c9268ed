ghost use Rattle.std.specs.Prelude.{◌≡◌, ◌↔◌, length, IsTrue, IfSome};
ghost use Rattle.std.specs.List.{AllByRecursion};
ghost use Rattle.std.specs.Option.{option_copied};
ghost use Rattle.run_log.specs.Legal.{AreRising};
ghost use Rattle.legality.specs.SnapshotShape.{HaveCounts, SnapshotsFit};

use run_log::{ObserverList, RunLog, SnapshotList};
use script_core::Script;
use term_core::CountList;

fn has_count(shots: &SnapshotList, count: Option<&u64>) -> bool
    ensures { IsTrue result ↔ IfSome (option_copied count.entry) (λ n. length shots.now ≡ n) }
{
    match count {
        Some(count) => shots.len() as u64 == *count,
        None => true,
    }
}

fn have_counts(counts: &CountList, observers: &ObserverList) -> bool
    ensures { IsTrue result ↔ HaveCounts counts.now observers.now }
{
    for (observer, shots) in observers.as_slice().iter().enumerate() {
        if !has_count(shots, counts.get(observer)) {
            return false;
        }
    }
    true
}

fn are_rising(shots: &SnapshotList) -> bool
    ensures { IsTrue result ↔ AreRising shots.now }
{
    let mut last = 0;
    for shot in shots.as_slice() {
        if shot.generation < last {
            return false;
        }
        last = shot.generation;
    }
    true
}

fn observers_rise(observers: &ObserverList) -> bool
    ensures { IsTrue result ↔ AllByRecursion AreRising observers.now }
{
    observers.as_slice().iter().all(are_rising)
}

/// Whether each observer has as many snapshots as its line says, none of an older generation than the one before it.
pub fn snapshots_fit(script: &Script, log: &RunLog) -> bool
    ensures { IsTrue result ↔ SnapshotsFit script.now log.now }
{
    have_counts(&script.observers, &log.observers) && observers_rise(&log.observers)
}
