//! What holds of every turn, and of every sound state of the server and its generation in plain numbers.

ghost use Rattle.machine_core.specs.GenerationLaws.{AreasAgree, CallsReachSame, IsLawfulGeneration, KeysHoldSame, LiteralsAgree, OfEachState, PlacesAgree, ProcessesAgree, TurnsAgree};
ghost use Rattle.machine_core.specs.TurnEnds.{IsCounted, KillsForDoomed, LeavesNames, OfEachTurn};

/// A view that shows the generation of a sound state, with the images of its areas, is lawful.
pub fn generations_are_lawful()
    ensures { OfEachState IsLawfulGeneration }
{}

/// A call reaches by a generation what it reaches by its state, and the export table tells it at the number of the name.
pub fn generations_reach_the_same()
    ensures { OfEachState CallsReachSame }
{}

/// A key holds by a generation what it holds by its state, and a reader finds of it the word or the area that the generation has.
pub fn generations_hold_the_same()
    ensures { OfEachState KeysHoldSame }
{}

/// A generation says of each area that is not released what its state says: its words, how many functions it has, and whether it is a complex term.
pub fn generations_have_the_areas()
    ensures { OfEachState AreasAgree }
{}

/// A place of such an area is that of a literal by a generation exactly where it is by its state.
pub fn literals_are_those_of_states()
    ensures { OfEachState LiteralsAgree }
{}

/// Frames stand at places by a generation exactly where they do by its state, in instances that are not released.
pub fn places_are_those_of_states()
    ensures { OfEachState PlacesAgree }
{}

/// A process that names no area which is released stands by a generation for what it is by its state, and may have a turn by the one exactly where by the other.
pub fn processes_are_those_of_states()
    ensures { OfEachState ProcessesAgree }
{}

/// A turn by the generation of a sound state is the turn under that state, for every process that stands at
/// places of the generation.
///
/// Rule: Erlang/OTP erts internal documentation, CodeLoading, for calls; a turn sees one generation.
pub fn turns_are_those_of_states()
    ensures { OfEachState TurnsAgree }
{}

/// A turn kills a process only for an instance which by what it read is being purged, and which is still held for the frames that stood in it.
///
/// Rule: Erlang/OTP manual page `code`, for the end of what stands in purged code.
pub fn kills_are_for_doomed_code()
    ensures { OfEachTurn KillsForDoomed }
{}

/// After a turn of a process that goes on just what it names is held, and a process that ended has no frames.
pub fn turns_hold_what_is_named()
    ensures { OfEachTurn LeavesNames }
{}

/// A turn counts, unless the process had as many turns as can be, and then it ends at the limit.
pub fn turns_are_counted()
    ensures { OfEachTurn IsCounted }
{}
