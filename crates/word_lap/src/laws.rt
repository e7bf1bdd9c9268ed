//! What a scheduler keeps of its processes from its start to the end of the run, and what that says of the run.

ghost use Rattle.word_lap.specs.Laws.{AttemptsKeepProcesses, OthersHaveNotRun, ReportsKeepProcesses, SchedulersBegin, TakenHaveRun};

/// A scheduler that has the token of a member which has just begun, and empty places, keeps its processes: there are none yet.
pub fn schedulers_begin()
    ensures { SchedulersBegin }
{}

/// What a scheduler knows of its processes stays over a report, also one that ends a wait, and over an attempt to lead.
pub fn other_calls_keep_processes()
    ensures reports { ReportsKeepProcesses }
    ensures attempts { AttemptsKeepProcesses }
{}

/// What a scheduler keeps of processes that have ended is what the run owes of them: each one that was spawned has run, and no other has.
pub fn kept_processes_have_run()
    ensures taken { TakenHaveRun }
    ensures others { OthersHaveNotRun }
{}
