//! What a wait is made of, and a wait of the writer beside a member that leads in the same thread.

ghost use Rattle.std.specs.Prelude.{◌≡◌, ◌≤◌, true, []};
ghost use Rattle.shared_words.specs.Views.{newest_number};
ghost use Rattle.progress_words.specs.Tokens.{view_of, written_by, IsMemberOf, IsWriterOf};
ghost use Rattle.progress_words.specs.Leads.{IsLeader};
ghost use Rattle.grace_bench.specs.Waiting.{HasAsked, IsOver};

use crate::tables::Any;
use progress_words::{Advance, advance, later, reached, report};
use shared_words::{Member, Shared, Writer};
use std::sync::Wait;

/// Reports, and raises the counter where all have reported. Answers its value then, or else 0.
#[tactic(auto, using(crate::proofs::Waiting::still_none, new_tables::proofs::Begun::empty_rests))]
pub fn advance_once(shared: &Shared<Any>, leader: &mut Member) -> u64
    requires token { IsMemberOf shared.now.table.shared.table_id leader.old }
    requires leads { IsLeader (view_of leader.old) }
    requires slots { (view_of leader.old).slots ≡ [] }
    ensures token { IsMemberOf shared.now.table.shared.table_id leader.new }
    ensures leads { IsLeader (view_of leader.new) }
    ensures slots { (view_of leader.new).slots ≡ [] }
{
    report(shared, leader);
    match advance(shared, leader) {
        Advance::Advanced(value) => value,
        _ => 0,
    }
}

/// Asks whether the value is reached.
#[tactic(auto, using(crate::proofs::Waiting::asked_now))]
pub fn ask(shared: &Shared<Any>, writer: &mut Writer, need: u64) -> bool
    requires token { IsWriterOf shared.now.table.shared.table_id shared.now.table.shared.key writer.old }
    ensures token { IsWriterOf shared.now.table.shared.table_id shared.now.table.shared.key writer.new }
    ensures generation { writer.new.generation ≡ writer.old.generation }
    ensures asked { HasAsked (written_by writer.old) (written_by writer.new) }
    ensures reached { result ≡ true → need ≤ (written_by writer.new).counter }
{
    reached(shared, writer, need).is_ok()
}

/// Waits until no thread may read a generation before the newest one. The table has no member but the
/// one that leads.
pub fn wait_alone<R: Wait>(rt: &R, shared: &Shared<Any>, writer: &mut Writer, leader: &mut Member)
    requires writer { IsWriterOf shared.now.table.shared.table_id shared.now.table.shared.key writer.old }
    requires leader { IsMemberOf shared.now.table.shared.table_id leader.old }
    requires leads { IsLeader (view_of leader.old) }
    requires slots { (view_of leader.old).slots ≡ [] }
    ensures writer { IsWriterOf shared.now.table.shared.table_id shared.now.table.shared.key writer.new }
    ensures asked { HasAsked (written_by writer.old) (written_by writer.new) }
    ensures over { IsOver (written_by writer.new) (newest_number (written_by writer.old).published) }
{
    let need = later(shared, writer);
    for _ in rt.forever() {
        advance_once(shared, leader);
        if ask(shared, writer, need) {
            return;
        }
    }
}
