//! Tests of the run of a script over words that its threads share.
#![tactic(auto)]

#[cfg(test)]
mod meetings;
#[cfg(test)]
mod overlaps;
#[cfg(test)]
mod reports;
