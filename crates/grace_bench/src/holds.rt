//! A process that names an area, and names it no more.

ghost use Rattle.std.specs.Prelude.{◌≡◌};
ghost use Rattle.term_core.specs.declared.hold.Kind.TheVariants as kinds;
ghost use Rattle.shared_words.specs.Making.{IsMemberBegun};
ghost use Rattle.progress_words.specs.Tokens.{view_of, noted_by, IsNoteOf};
ghost use Rattle.anchors.specs.Holds.{anchors_of, HoldsAnchors};
ghost use Rattle.grace_bench.specs.Holding.{IsUser, TellsOfUse};

use crate::tables::{Any, publish_used};
use anchors::{drop_hold, hold};
use progress_words::{learn, note, report};
use shared_words::{Member, Note, Parts, Shared};
use std::alloc::Global;
use term_core::{AreaRef, Full, Kind, NoMemory};

/// The instance that is named.
const USED: AreaRef = AreaRef {
    serial: 1,
    block: 9,
};

/// Makes a table of one member, whose first process names an instance and drops that so often. Answers
/// how often it did.
#[tactic(auto, using(crate::proofs::Holding::only_begun, crate::proofs::Holding::tells_now, new_tables::proofs::Emptied::handing_empty, new_tables::proofs::Emptied::handing_first))]
pub fn hold_alone(alloc: Global, times: u32) -> Result<u32, NoMemory> {
    let (shared, parts) = Shared::<Any>::new(alloc, 1, 0)?;
    let Parts {
        mut writer,
        mut members,
        watchers: _,
    } = parts;
    publish_used(&shared, &mut writer);
    let told = note(&shared, &mut writer, 0);
    match members.pop() {
        Some(mut member) => Ok(hold_after(&shared, &mut member, told, times)),
        None => Ok(0),
    }
}

/// Takes the process in by its note, reports, and names the instance so often. Answers how often it did.
#[tactic(auto, using(crate::proofs::Holding::user_learnt))]
fn hold_after(shared: &Shared<Any>, member: &mut Member, told: Note, times: u32) -> u32
    requires begun { IsMemberBegun shared.now.table.shared.table_id 0 member.old }
    requires one { shared.now.table.shared.key.members ≡ 1 }
    requires note { IsNoteOf shared.now.table.shared.table_id 0 told }
    requires tells { TellsOfUse (noted_by told) }
{
    learn(shared, member, told);
    let generation = report(shared, member);
    if generation == 1 {
        hold_often(shared, member, times)
    } else {
        0
    }
}

/// Names the instance so often, and drops it each time. Answers how often it did.
fn hold_often(shared: &Shared<Any>, member: &mut Member, times: u32) -> u32
    requires user { IsUser shared.now.table.shared.table_id shared.now.table.shared.key member.old }
{
    for done in 0..times {
        if !hold_once(shared, member) {
            return done;
        }
    }
    times
}

/// Names the instance, and drops it. Answers whether there was room to name it.
fn hold_once(shared: &Shared<Any>, member: &mut Member) -> bool
    requires user { IsUser shared.now.table.shared.table_id shared.now.table.shared.key member.old }
    ensures user { IsUser shared.now.table.shared.table_id shared.now.table.shared.key member.new }
{
    match hold(shared, member, 0, USED, Kind::Frame) {
        Ok(()) => {
            drop_used(shared, member);
            true
        }
        Err(Full) => false,
    }
}

/// Drops the instance that the process names.
fn drop_used(shared: &Shared<Any>, member: &mut Member)
    requires user { IsUser shared.now.table.shared.table_id shared.now.table.shared.key member.old }
    requires held { HoldsAnchors kinds.Frame (anchors_of (view_of member.old) 0) 1 }
    ensures user { IsUser shared.now.table.shared.table_id shared.now.table.shared.key member.new }
{
    drop_hold(shared, member, 0, USED, Kind::Frame);
}
