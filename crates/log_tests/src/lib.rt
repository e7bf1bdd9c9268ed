//! Tests of reports, of the logs that they tell, and of the judge of logs.
#![tactic(auto)]

#[cfg(test)]
mod exports;
#[cfg(test)]
mod judgements;
#[cfg(test)]
mod loaded;
#[cfg(test)]
mod reports;
#[cfg(test)]
mod spans;
