//! Tests of tables whose writer publishes while members report.

mod grace;
mod notes;
pub mod publishing;
