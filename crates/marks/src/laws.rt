//! What holds of every process and all that the writer keeps, not only of those that a run reaches.

ghost use Rattle.marks.specs.InOrder.{AnswersAreTrue, DropsAreTrue, DropsStayTrue};
ghost use Rattle.marks.specs.Steps.{AllowsStores, EndsNames, KeepsAnchors, KeepsAnswers, KeepsAtRest, KeepsBacked, KeepsDrops, KeepsLooks, KeepsNotes, KeepsReads, KeepsTurns, KeepsWaits, Opens};

/// What is known of a process is known at the start, and stays known at each step of its member: the
/// join of its note, the store of an anchor or of the turns done, and, between its turns, the steps that
/// change what the member is under.
pub fn members_keep_what_is_known()
    ensures opening { Opens }
    ensures note { KeepsNotes }
    ensures anchor { KeepsAnchors }
    ensures turn { KeepsTurns }
    ensures rest { KeepsAtRest }
{}

/// What is known of a process stays known at each step of the writer: the end of a wait, a look at an
/// anchor, the load of a turn word, and the keeping of a drop or of the answer that it lingers.
pub fn writers_keep_what_is_known()
    ensures wait { KeepsWaits }
    ensures look { KeepsLooks }
    ensures read { KeepsReads }
    ensures drop { KeepsDrops }
    ensures answer { KeepsAnswers }
{}

/// What the writer keeps of an area stands on a wait that is over, as long as what it adds does.
pub fn waits_back_what_is_kept()
    ensures { KeepsBacked }
{}

/// A slot that was looked through after a wait, and found clear, does not name the area in that kind,
/// then or at any later step.
pub fn clear_looks_end_names()
    ensures { EndsNames }
{}

/// What is kept of releases, purges and processes that linger is true of the turns, as a log has them:
/// the last turn up to a drop does not name what was dropped, also where a turn under way counts as one
/// more, and a process that was answered to linger did.
pub fn answers_are_true()
    ensures drop { DropsAreTrue }
    ensures under_way { DropsStayTrue }
    ensures answer { AnswersAreTrue }
{}

/// What the test of slots in area_core lets a member store, newly names only what a turn comes to.
pub fn tested_stores_are_allowed()
    ensures { AllowsStores }
{}
