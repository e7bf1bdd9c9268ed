//! What holds of every run over shared words, once its threads have ended.

ghost use Rattle.run_law.specs.Laws.{JournalsAreSaid, JournalsAreSound, LingeringIsTold, MadeByStates, PurgesAreUnnamed, ReadsAreThoseOfStates, ReleasesAreUnnamed, RunsAreHistories, SnapshotsAreTrue, SpawnsAreTaken, SpawnsComeFirst, TablesClose, TablesTell, TurnsAreAll, TurnsAreFollowed, TurnsAreThoseOfStates};

/// Each state of a journal of texts that can be loaded is sound, and each name that it exports has a number; so is the journal in which the
/// commands of a script were made.
pub fn journals_are_sound()
    ensures sound { JournalsAreSound }
    ensures said { JournalsAreSaid }
{}

/// What a turn reads of a generation that was learnt of is what it reads of the generation of the journal's state, so the turn by it is the turn
/// under that state.
///
/// Rule: Erlang/OTP erts internal documentation, CodeLoading: a turn sees one generation.
pub fn reads_are_those_of_states()
    ensures reads { ReadsAreThoseOfStates }
    ensures turns { TurnsAreThoseOfStates }
    ensures made { MadeByStates }
{}

/// What is known of each process once a table was closed.
pub fn closed_tables_tell()
    ensures { TablesTell }
{}

/// What was spawned is what was taken: once all commands are done and a scheduler has taken what was posted to it, each process of the script
/// that belongs to it came, with the target and the arguments of its line, and nothing else under its number.
pub fn spawned_processes_are_taken()
    ensures { SpawnsAreTaken }
{}

/// The turns of each process of the log are those that it had: the first one comes after its spawn, each is under one generation that was
/// published, none under an older one than the turn before, and none is missing.
///
/// Rule: Erlang/OTP erts internal documentation, CodeLoading: a turn sees one generation.
pub fn turns_are_those_of_the_log()
    ensures first { SpawnsComeFirst }
    ensures follow { TurnsAreFollowed }
    ensures all { TurnsAreAll }
{}

/// What the journal tells of processes is so: an area was released, and an instance dropped, where no process named it, a process that was
/// told to linger did, and a purge told whether it killed one.
///
/// Rule: the manual pages `code` (soft_purge, purge) and `persistent_term`.
pub fn answers_are_those_of_the_log()
    ensures released { ReleasesAreUnnamed }
    ensures lingers { LingeringIsTold }
    ensures purged { PurgesAreUnnamed }
{}

/// The closed table has published the generations of the journal, and has a mark for each turn of the log.
pub fn closed_tables_have_the_turns()
    ensures { TablesClose }
{}

/// What the observers of a run saw is so: each of their snapshots is of a generation that was published, has the exports of the journal's state then,
/// and is of none older than the one before.
///
/// Rule: Erlang/OTP erts internal documentation, CodeLoading.
pub fn snapshots_are_those_of_the_log()
    ensures { SnapshotsAreTrue }
{}

/// The log of a run over shared words is a history of one code server, once its threads have ended, its table is closed, and the journal and
/// the observers have told theirs.
///
/// Rule: Erlang/OTP erts internal documentation, CodeLoading.
pub fn runs_are_histories()
    ensures { RunsAreHistories }
{}
