//! Tests of the code server and of the call machine.
#![tactic(auto)]

#[cfg(test)]
mod commands;
#[cfg(test)]
mod instrs;
#[cfg(test)]
mod steps;
#[cfg(test)]
mod turns;
