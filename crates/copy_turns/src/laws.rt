//! What holds of every state that meets the rule, not only of those that a run reaches.

ghost use Rattle.copy_turns.specs.Laws.{HoldsTwoAtMost, TellsWhoHolds};

/// No more than two turns are held, whatever the seats did.
pub fn at_most_two_turns_are_held()
    ensures { HoldsTwoAtMost }
{}

/// The word of a turn is the number of a process plus 1 exactly where one seat holds the turn for that
/// process.
pub fn words_tell_who_holds()
    ensures { TellsWhoHolds }
{}
