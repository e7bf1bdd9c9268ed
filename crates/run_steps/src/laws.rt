//! What holds of every run of a script, whatever program makes it.

ghost use Rattle.run_steps.specs.MadeTurns.{MadeAlike, MadeTurnsFollow, OneMoreMade};

/// A process whose turns were made one by one, each under the state of a generation of the journal, none older than the one before, stands
/// where a run has it, and they are the turns of its log.
///
/// Rule: Erlang/OTP erts internal documentation, CodeLoading: a turn sees one generation.
pub fn made_turns_follow()
    ensures { MadeTurnsFollow }
{}

/// Behind the turns that were made of a process that goes on stands one more; and turns that were made by what one source lets a process read were
/// made by another, where each turn is the same by either.
pub fn turns_are_made()
    ensures more { OneMoreMade }
    ensures alike { MadeAlike }
{}
