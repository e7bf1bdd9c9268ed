//! What holds of the generations that the shared words show.

ghost use Rattle.word_view.specs.Laps.{AnchorsLeaveOthers, BeginningsStay, CopiesStay, MarksLeaveReaders, NewcomersBegin, ReportsLeaveProcesses, RestsStay, WakesAreReports};
ghost use Rattle.word_view.specs.Laws.{OthersStay, ReportsBegin, TurnsGoOn};

/// What a view is made from is there again once its member has reported: what the slot names, the new generation
/// lists too.
pub fn reports_begin_turns()
    ensures { ReportsBegin }
{}

/// A turn of one process leaves what is known of the other processes of the member.
pub fn turns_leave_other_processes()
    ensures { OthersStay }
{}

/// A process that may have its next turn may have it too under the generation that its member holds once it
/// has reported.
pub fn turns_go_on_after_reports()
    ensures { TurnsGoOn }
{}

/// A process that came with its note may begin its first turn once its member has reported.
pub fn newcomers_begin()
    ensures { NewcomersBegin }
{}

/// What holds of reports holds of the report with which a wait ends.
pub fn wakes_are_reports()
    ensures { WakesAreReports }
{}

/// A report changes no process: what its frames and literals stand for is the same in the new generation.
pub fn reports_leave_processes()
    ensures { ReportsLeaveProcesses }
{}

/// What is stored for one process, in its turn, at its end or behind it, leaves what is known of the others.
pub fn stores_leave_other_processes()
    ensures turn { BeginningsStay }
    ensures anchors { AnchorsLeaveOthers }
    ensures mark { MarksLeaveReaders }
{}

/// A step that stores no slot leaves the copy of the anchors right, and each process at rest.
pub fn other_steps_leave_slots()
    ensures copied { CopiesStay }
    ensures rest { RestsStay }
{}
