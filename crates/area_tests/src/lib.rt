//! Tests of what stands in the words of the shared table: blocks, slots, code indices and term tables, and of the numbers that code indices go by.
#![tactic(auto)]

#[cfg(test)]
mod exports;
#[cfg(test)]
mod keys;
#[cfg(test)]
mod leading;
#[cfg(test)]
mod never;
#[cfg(test)]
mod players;
#[cfg(test)]
mod pools;
#[cfg(test)]
mod released;
#[cfg(test)]
mod retired;
#[cfg(test)]
mod several;
#[cfg(test)]
mod slots;
#[cfg(test)]
mod staged;
#[cfg(test)]
mod starting;
#[cfg(test)]
mod tables;
#[cfg(test)]
mod three;
#[cfg(test)]
mod writing;
#[cfg(test)]
mod written;
