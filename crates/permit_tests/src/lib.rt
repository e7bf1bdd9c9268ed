//! Tests of the permit over the shared words.
#![tactic(auto)]

#[cfg(test)]
mod permits;
