//! How the run of a script over the words that all threads share is shown to be a history of one code server, once its threads have ended: laws.
#![tactic(auto)]

mod laws;

pub use laws::{
    answers_are_those_of_the_log, closed_tables_have_the_turns, closed_tables_tell,
    journals_are_sound, reads_are_those_of_states, runs_are_histories,
    snapshots_are_those_of_the_log, spawned_processes_are_taken, turns_are_those_of_the_log,
};
