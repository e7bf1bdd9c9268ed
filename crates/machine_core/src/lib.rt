//! The call machine: a turn of a process over a view of one generation of the code server.
#![tactic(auto)]

mod areas;
mod called_name;
mod calls;
mod computing;
mod copying;
mod decode;
mod doom;
mod dropping;
mod elements;
mod fetch;
mod frames;
mod integers;
mod laws;
mod layout;
mod literals;
mod machine;
mod op;
mod outcome;
mod pause;
mod plain;
mod process;
mod registers;
mod serials;
mod sources;
mod step;
mod storing;
mod view;

pub use frames::FrameList;
pub use laws::{
    generations_are_lawful, generations_have_the_areas, generations_hold_the_same,
    generations_reach_the_same, kills_are_for_doomed_code, literals_are_those_of_states,
    places_are_those_of_states, processes_are_those_of_states, turns_are_counted,
    turns_are_those_of_states, turns_hold_what_is_named,
};
pub use machine::turn;
pub use plain::PlainView;
pub use process::{End, Frame, Line, LineList, LitRef, Process, TurnEnd, Value};
pub use registers::ValueList;
pub use term_core::{Found, Full, Kind};
pub use view::CodeView;
