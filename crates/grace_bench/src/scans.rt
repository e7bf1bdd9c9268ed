//! Looks through the slots of all processes, for an area that nobody names.

ghost use Rattle.std.specs.Prelude.{◌≡◌};
ghost use Rattle.marks.specs.declared.kept.LookKind.TheVariants as look;
ghost use Rattle.shared_words.specs.Slots.{LookMayBegin};
ghost use Rattle.progress_words.specs.Tokens.{written_by, IsWriterOf};
ghost use Rattle.new_tables.specs.Running.{IsReady, IsEmpty};

use crate::tables::{Any, publish_used};
use crate::waits::wait_alone;
use anchors::scan;
use progress_words::{Lead, lead};
use shared_words::{Member, Parts, Shared, Writer};
use std::alloc::Global;
use std::sync::Wait;
use term_core::{AreaRef, NoMemory};

/// The area that was dropped.
const DROPPED: AreaRef = AreaRef {
    serial: 2,
    block: 10,
};

/// Makes a table whose newest generation has dropped an area, waits until no thread reads the one
/// before, and looks for the area so often. Answers how often it looked.
#[tactic(auto, using(new_tables::proofs::Emptied::handing_first))]
pub fn scan_alone<R: Wait>(rt: &R, alloc: Global, times: u32) -> Result<u32, NoMemory> {
    let (shared, parts) = Shared::<Any>::new(alloc, 1, 0)?;
    let Parts {
        mut writer,
        mut members,
        watchers: _,
    } = parts;
    match members.pop() {
        Some(mut leader) => Ok(scan_after(rt, &shared, &mut writer, &mut leader, times)),
        None => Ok(0),
    }
}

/// Publishes that the area is dropped, waits, and looks so often.
#[tactic(auto, using(new_tables::proofs::Leading::still_none))]
fn scan_after<R: Wait>(
    rt: &R,
    shared: &Shared<Any>,
    writer: &mut Writer,
    leader: &mut Member,
    times: u32,
) -> u32
    requires token { IsWriterOf shared.now.table.shared.table_id shared.now.table.shared.key writer.old }
    requires empty { IsEmpty (written_by writer.old) }
    requires first { writer.old.generation ≡ 0 }
    requires ready { IsReady shared.now.table.shared.table_id leader.old }
{
    publish_used(shared, writer);
    match lead(shared, leader) {
        Lead::Led => {
            wait_alone(rt, shared, writer, leader);
            scan_often(shared, writer, times);
            times
        }
        Lead::Held { .. } => 0,
    }
}

/// Looks so often.
fn scan_often(shared: &Shared<Any>, writer: &mut Writer, times: u32)
    requires token { IsWriterOf shared.now.table.shared.table_id shared.now.table.shared.key writer.old }
    requires may { LookMayBegin (written_by writer.old) look.Both 2 }
{
    for _ in 0..times {
        scan(shared, writer, DROPPED, None);
    }
}
