//! What holds of every state, not only of those that a run reaches.

ghost use Rattle.std.specs.Prelude.{◌≡◌, Some};
ghost use Rattle.prgr_core.specs.declared.event.PrgrEvent.{PrgrEvent};
ghost use Rattle.prgr_core.specs.declared.progress.Progress.{Progress};
ghost use Rattle.prgr_core.specs.Machine.{machine_of};
ghost use Rattle.prgr_core.specs.Invariant.{Grace};
ghost use Rattle.prgr_core.specs.Step.{after, progress_opening, IsSound};
ghost use Rattle.prgr_core.specs.Examples.{StopsBeforeHarm, released_too_soon, confirmed_with_old_root, woken_without_entering, advanced_over_a_claim, claimed_with_one_count};

/// Every enabled event keeps the progress invariant, from every state that meets it.
pub fn events_keep_the_invariant()
    ensures { (s t : Progress) (event : PrgrEvent) → IsSound s → after s event ≡ Some t → IsSound t }
{}

/// Once the counter has reached the need of a retired generation, no thread may read an earlier one.
pub fn grace_follows()
    ensures { (s : Progress) → IsSound s → Grace (machine_of s) }
{}

/// Five runs that would break grace stop where a weaker machine would go on: with a need of one
/// value, with reports that need no root, with waiting members that load the counter, with a leader
/// that does not look at the delay, with a claim by one count though the counter went on.
pub fn breaking_runs_stop()
    ensures need { StopsBeforeHarm (progress_opening 1 0) released_too_soon 6 }
    ensures root { StopsBeforeHarm (progress_opening 1 0) confirmed_with_old_root 7 }
    ensures entering { StopsBeforeHarm (progress_opening 2 0) woken_without_entering 2 }
    ensures delay { StopsBeforeHarm (progress_opening 1 1) advanced_over_a_claim 16 }
    ensures claim { StopsBeforeHarm (progress_opening 1 1) claimed_with_one_count 13 }
{}
