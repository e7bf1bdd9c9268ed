//! The calls of a lap by which a member tells how far it is.

ghost use Rattle.std.specs.Prelude.{◌≡◌, ◌≤◌};
ghost use Rattle.progress_words.specs.Leads.{IsLeader};
ghost use Rattle.progress_words.specs.Reports.{HoldsReported};
ghost use Rattle.anchors.specs.Holds.{view_of};
ghost use Rattle.word_lap.specs.Laps.{HasTried};
ghost use Rattle.word_lap.specs.Schedulers.{IsBetweenTurns, IsToken};

use progress_words::{Lead, advance, give_up, lead, report};
use shared_words::{Member, Served, Shared};
use std::sync::Wait;

/// Reports, and again while the generation that the member then holds is older than this one. The first report finds it where it was published before
/// the call; no token tells that, so it is looked at.
pub fn catch_up<N: Served, R: Wait>(
    rt: &R,
    shared: &Shared<N>,
    member: &mut Member,
    floor: u64,
) -> u64
    requires token { IsToken shared.now.table.shared.table_id member.old }
    requires between { IsBetweenTurns (view_of member.old) }
    ensures token { IsToken shared.now.table.shared.table_id member.new }
    ensures number { member.new.number ≡ member.old.number }
    ensures between { IsBetweenTurns (view_of member.new) }
    ensures reported { HoldsReported N.served (view_of member.old) (view_of member.new) result }
    ensures caught { floor ≤ result }
{
    let mut generation = report_once(shared, member);
    for _ in rt.forever() {
        if generation >= floor {
            return generation;
        }
        generation = report_once(shared, member);
    }
    unreachable!()
}

/// Reports, and answers the number of the generation that the member holds from then on.
#[tactic(auto, using(crate::proofs::Tokens::token_reported, crate::proofs::Tokens::between_reported))]
fn report_once<N: Served>(shared: &Shared<N>, member: &mut Member) -> u64
    requires token { IsToken shared.now.table.shared.table_id member.old }
    requires between { IsBetweenTurns (view_of member.old) }
    ensures token { IsToken shared.now.table.shared.table_id member.new }
    ensures number { member.new.number ≡ member.old.number }
    ensures between { IsBetweenTurns (view_of member.new) }
    ensures reported { HoldsReported N.served (view_of member.old) (view_of member.new) result }
{
    report(shared, member)
}

/// Raises the counter where each thread has come along, and gives the lead up.
#[tactic(auto, using(crate::proofs::Leading::token_raised, crate::proofs::Leading::has_raised))]
fn raise<N: Served>(shared: &Shared<N>, member: &mut Member)
    requires token { IsToken shared.now.table.shared.table_id member.old }
    requires leads { IsLeader (view_of member.old) }
    ensures token { IsToken shared.now.table.shared.table_id member.new }
    ensures number { member.new.number ≡ member.old.number }
    ensures tried { HasTried (view_of member.old) (view_of member.new) }
{
    advance(shared, member);
    give_up(shared, member);
}

/// Takes the lead where no member has it, raises the counter where each thread has come along, and gives the lead up.
#[tactic(auto, using(crate::proofs::Leading::may_lead, crate::proofs::Leading::token_led, crate::proofs::Leading::tried_here, crate::proofs::Leading::tried_there, crate::proofs::Leading::between_tried))]
pub fn try_lead<N: Served>(shared: &Shared<N>, member: &mut Member)
    requires token { IsToken shared.now.table.shared.table_id member.old }
    requires between { IsBetweenTurns (view_of member.old) }
    ensures token { IsToken shared.now.table.shared.table_id member.new }
    ensures number { member.new.number ≡ member.old.number }
    ensures between { IsBetweenTurns (view_of member.new) }
    ensures tried { HasTried (view_of member.old) (view_of member.new) }
{
    if lead(shared, member) == Lead::Led {
        raise(shared, member);
    }
}
