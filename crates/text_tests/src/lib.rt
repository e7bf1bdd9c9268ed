//! Tests of terms, modules and scripts as texts and as words, and of the texts of event lists.
#![tactic(auto)]

#[cfg(test)]
mod event_lists;
#[cfg(test)]
mod module_texts;
#[cfg(test)]
mod modules;
#[cfg(test)]
mod printed_scripts;
#[cfg(test)]
mod scripts;
#[cfg(test)]
mod terms;
