//! The slots of all processes, as the writer loads them.

ghost use Rattle.std.specs.Prelude.{◌<◌};
ghost use Rattle.progress_words.specs.Tokens.{IsWriterOf};
ghost use Rattle.shared_words.specs.declared.table.TheConstants.{PROCESSES};

use crate::tables::Any;
use shared_words::{ANCHORS, PROCESSES, Parts, Shared, Writer};
use std::alloc::Global;
use term_core::NoMemory;

/// Loads so often all anchors of all processes, outside of every look. Answers how often.
pub fn load_alone(alloc: Global, times: u32) -> Result<u32, NoMemory> {
    let (shared, parts) = Shared::<Any>::new(alloc, 1, 0)?;
    let Parts {
        mut writer,
        members: _,
        watchers: _,
    } = parts;
    for _ in 0..times {
        load_all(&shared, &mut writer);
    }
    Ok(times)
}

/// Loads all anchors of all processes, 1,024 words.
fn load_all(shared: &Shared<Any>, writer: &mut Writer)
    requires token { IsWriterOf shared.now.table.shared.table_id shared.now.table.shared.key writer.old }
    ensures token { IsWriterOf shared.now.table.shared.table_id shared.now.table.shared.key writer.new }
{
    for process in 0..PROCESSES {
        load_anchors(shared, writer, process);
    }
}

/// Loads the anchors of a process.
fn load_anchors(shared: &Shared<Any>, writer: &mut Writer, process: u32)
    requires token { IsWriterOf shared.now.table.shared.table_id shared.now.table.shared.key writer.old }
    requires process { process < PROCESSES }
    ensures token { IsWriterOf shared.now.table.shared.table_id shared.now.table.shared.key writer.new }
{
    for place in 1..ANCHORS + 1 {
        shared.load_slot(writer, process, place, None);
    }
}
