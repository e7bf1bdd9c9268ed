//! The wait for a retired area, the look through all slots, and its release.

ghost use Rattle.std.specs.Prelude.{◌≡◌, ◌+◌, ◌≤◌, ◌<◌, true, false};
ghost use Rattle.shared_words.specs.Making.{IsMemberBegun};
ghost use Rattle.progress_words.specs.Tokens.{written_by, IsWriterOf};
ghost use Rattle.progress_words.specs.Needs.{HasTaken};
ghost use Rattle.new_tables.specs.Leading.{IsLeading};
ghost use Rattle.area_tests.specs.Gone.{AreGone};
ghost use Rattle.area_tests.specs.Several.{AreReleased};

use crate::leading::lead_on;
use crate::several::{AREAS, area_of};
use crate::tables::Any;
use anchors::{Scan, scan};
use literal_areas::Pools;
use progress_words::{Advance, Lead, advance, later, lead, reached};
use shared_words::{Member, Shared, Writer};

/// The value to wait for, once generation 2 is published, from which on so many areas are retired.
#[tactic(auto, using(crate::proofs::Gone::gone_counted, crate::proofs::Gone::taken_newest))]
pub fn take_need(shared: &Shared<Any>, writer: &mut Writer, pools: &Pools, areas: u32) -> u64
    requires token { IsWriterOf shared.now.table.shared.table_id shared.now.table.shared.key writer.old }
    requires gone { AreGone 0 areas pools.now (written_by writer.old) }
    ensures token { IsWriterOf shared.now.table.shared.table_id shared.now.table.shared.key writer.new }
    ensures gone { AreGone 0 areas pools.now (written_by writer.new) }
    ensures taken { HasTaken (written_by writer.new) 2 result }
{
    let _ = pools;
    let _ = areas;
    later(shared, writer)
}

/// The one member of a table raises the counter twice: first as it is, and then once it has reported.
#[tactic(auto, using(new_tables::proofs::Begun::of_begun, new_tables::proofs::Heading::leader_may, new_tables::proofs::Heading::leads_first))]
pub fn pass_both(shared: &Shared<Any>, member: &mut Member) -> bool
    requires { IsMemberBegun shared.now.table.shared.table_id 0 member.old }
{
    let Lead::Led = lead(shared, member) else {
        return false;
    };
    raise_both(shared, member)
}

/// The same, where it leads.
#[tactic(auto, using(new_tables::proofs::Heading::leads_still))]
fn raise_both(shared: &Shared<Any>, member: &mut Member) -> bool
    requires { IsLeading shared.now.table.shared.table_id member.old }
{
    let _first = advance(shared, member);
    lead_on(shared, member) == Advance::Advanced(3)
}

/// Looks through all slots, and releases the area behind so many where none names it.
pub fn release_clear(
    shared: &Shared<Any>,
    writer: &mut Writer,
    pools: &mut Pools,
    at: u32,
    areas: u32,
    need: u64,
) -> bool
    requires token { IsWriterOf shared.now.table.shared.table_id shared.now.table.shared.key writer.old }
    requires few { (at < areas) × (areas ≤ 55) }
    requires released { AreReleased at areas need pools.old (written_by writer.old) }
    ensures token { IsWriterOf shared.now.table.shared.table_id shared.now.table.shared.key writer.new }
    ensures next { pools.new.next ≡ pools.old.next }
    ensures released { result ≡ true → AreReleased (at + 1) areas need pools.new (written_by writer.new) }
    ensures stays { result ≡ false → AreReleased at areas need pools.new (written_by writer.new) }
{
    let _ = areas;
    let _ = need;
    let area = area_of(at);
    match scan(shared, writer, area, None) {
        Scan::Named { .. } => false,
        Scan::Clear { .. } => {
            pools.release(shared, writer, area);
            true
        }
    }
}

/// Whether the value is reached.
#[tactic(auto, using(crate::proofs::Gone::gone_counted, crate::proofs::Gone::taken_still))]
pub fn is_over(shared: &Shared<Any>, writer: &mut Writer, pools: &Pools, need: u64) -> bool
    requires token { IsWriterOf shared.now.table.shared.table_id shared.now.table.shared.key writer.old }
    requires gone { AreGone 0 3 pools.now (written_by writer.old) }
    requires taken { HasTaken (written_by writer.old) 2 need }
    ensures token { IsWriterOf shared.now.table.shared.table_id shared.now.table.shared.key writer.new }
    ensures gone { AreGone 0 3 pools.now (written_by writer.new) }
    ensures taken { HasTaken (written_by writer.new) 2 need }
    ensures enough { result ≡ true → need ≤ (written_by writer.new).counter }
{
    let _ = pools;
    match reached(shared, writer, need) {
        Ok(()) => true,
        Err(_) => false,
    }
}

/// Releases the first area once the value is reached, where no slot names it.
pub fn release_first(
    shared: &Shared<Any>,
    writer: &mut Writer,
    pools: &mut Pools,
    need: u64,
) -> bool
    requires token { IsWriterOf shared.now.table.shared.table_id shared.now.table.shared.key writer.old }
    requires gone { AreGone 0 3 pools.old (written_by writer.old) }
    requires taken { HasTaken (written_by writer.old) 2 need }
    ensures next { pools.new.next ≡ pools.old.next }
{
    if is_over(shared, writer, pools, need) {
        release_clear(shared, writer, pools, 0, AREAS, need)
    } else {
        false
    }
}
