//! A member that leads, and has no process.

ghost use Rattle.std.specs.Prelude.{◌≡◌};
ghost use Rattle.new_tables.specs.Leading.{IsLeading};

use crate::tables::Any;
use progress_words::{Advance, advance, report};
use shared_words::{Member, Shared};

/// The leader reports, and tries to raise the counter.
#[tactic(auto, using(new_tables::proofs::Heading::leads_on))]
pub fn lead_on(shared: &Shared<Any>, leader: &mut Member) -> Advance
    requires leads { IsLeading shared.now.table.shared.table_id leader.old }
    ensures leads { IsLeading shared.now.table.shared.table_id leader.new }
    ensures number { leader.new.number ≡ leader.old.number }
{
    report(shared, leader);
    advance(shared, leader)
}
