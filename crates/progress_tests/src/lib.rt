//! Tests of the thread progress machine and of what stands on it.
#![tactic(auto)]

#[cfg(test)]
mod delays;
#[cfg(test)]
mod ends;
#[cfg(test)]
mod later;
#[cfg(test)]
mod published;
#[cfg(test)]
mod tables;
#[cfg(test)]
mod waits;
