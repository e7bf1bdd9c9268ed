//! The texts of made scripts: they are within the limits of a script's text, and name in the order of the scripts' tables.
#![tactic(auto)]

mod laws;

pub use laws::{made_names_are_in_order, made_texts_are_texts, made_texts_are_within};
