//! Tests of counts, of turns to copy and of numbers of funs.
#![tactic(auto)]

#[cfg(test)]
mod copied;
#[cfg(test)]
mod counted;
#[cfg(test)]
mod funs;
