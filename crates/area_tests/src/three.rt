//! The members of a table that has three: two that play, and one that leads.

ghost use Rattle.std.specs.Prelude.{◌≡◌, ◌+◌, IfOk, IfSome};
ghost use Rattle.shared_words.specs.Making.{AreMembersBegun, IsMemberBegun};
ghost use Rattle.shared_words.specs.Closing.{AreAllMembers};
ghost use Rattle.area_tests.specs.Three.{AreThreeBegun, AreThree};

use crate::tables::Any;
use shared_words::{Member, Shared};
use std::alloc::Global;
use term_core::NoMemory;

/// The tokens of the three members of a table.
#[derive(Drop)]
pub struct Three {
    pub first: Member,
    pub second: Member,
    pub leader: Member,
}

/// The last one of so many members and one more.
#[tactic(auto, using(new_tables::proofs::Begun::last_begun, new_tables::proofs::Begun::rest_begun))]
fn take_last(shared: &Shared<Any>, members: &mut Vec<Member>, count: u32) -> Option<Member>
    requires begun { AreMembersBegun shared.now.table.shared.table_id (count + 1) members.old.items }
    ensures last { IfSome result (λ token. IsMemberBegun shared.now.table.shared.table_id count token) }
    ensures rest { IfSome result (λ token. AreMembersBegun shared.now.table.shared.table_id count members.new.items) }
{
    let _ = shared;
    let _ = count;
    match members.pop() {
        Some(member) => Some(member),
        None => None,
    }
}

/// The three members of a table, as they begin.
pub fn take_three(shared: &Shared<Any>, mut members: Vec<Member>) -> Option<Three>
    requires begun { AreMembersBegun shared.now.table.shared.table_id 3 members.items }
    ensures { IfSome result (λ three. AreThreeBegun shared.now.table.shared.table_id three.first three.second three.leader) }
{
    let leader = take_last(shared, &mut members, 2)?;
    let second = take_last(shared, &mut members, 1)?;
    let first = take_last(shared, &mut members, 0)?;
    Some(Three {
        first,
        second,
        leader,
    })
}

/// The members in the order of their numbers.
#[tactic(auto, using(crate::proofs::Members::all_three))]
pub fn join_three(
    shared: &Shared<Any>,
    alloc: Global,
    three: Three,
) -> Result<Vec<Member>, NoMemory>
    requires opening { shared.now.table.shared.key.members ≡ 3 }
    requires three { AreThree shared.now.table.shared.table_id three.first three.second three.leader }
    ensures { IfOk result (λ members. AreAllMembers shared.now.table.shared.table_id shared.now.table.shared.key.members members.items) }
{
    let _ = shared;
    let Three {
        first,
        second,
        leader,
    } = three;
    let mut members = Vec::with_capacity(alloc, 3)?;
    members.push_reserved(first);
    members.push_reserved(second);
    members.push_reserved(leader);
    Ok(members)
}
