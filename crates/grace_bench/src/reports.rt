//! One member that reports, while nobody waits.

ghost use Rattle.new_tables.specs.Running.{IsReady};

use crate::tables::Any;
use progress_words::report;
use shared_words::{Member, Parts, Shared};
use std::alloc::Global;
use term_core::NoMemory;

/// Makes a table of one member, which reports so often. Answers how often it did.
pub fn report_alone(alloc: Global, times: u32) -> Result<u32, NoMemory> {
    let (shared, parts) = Shared::<Any>::new(alloc, 1, 0)?;
    let Parts {
        writer: _,
        mut members,
        watchers: _,
    } = parts;
    match members.pop() {
        Some(mut member) => {
            report_often(&shared, &mut member, times);
            Ok(times)
        }
        None => Ok(0),
    }
}

/// Reports so often.
#[tactic(auto, using(new_tables::proofs::Leading::reported_ready, new_tables::proofs::Leading::ready_rests))]
fn report_often(shared: &Shared<Any>, member: &mut Member, times: u32)
    requires ready { IsReady shared.now.table.shared.table_id member.old }
{
    for _ in 0..times {
        report(shared, member);
    }
}
