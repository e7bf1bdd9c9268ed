//! The calls of a member by which it tells how far it is.

ghost use Rattle.std.specs.Prelude.{◌≡◌, false};
ghost use Rattle.prgr_core.specs.Members.{is_waiting};
ghost use Rattle.shared_words.specs.Processes.{AreAtRest};
ghost use Rattle.shared_words.specs.Seats.{IsRooted};
ghost use Rattle.shared_words.specs.Kinds.{MayWait, MayEnter, now_waiting, now_entering};
ghost use Rattle.progress_words.specs.Tokens.{view_of, IsMemberOf, IsSameMember};
ghost use Rattle.progress_words.specs.Reports.{IsAwake, HoldsReported};
ghost use Rattle.progress_words.specs.Leads.{IsLeader};

use shared_words::{Member, Served, Shared};

/// A root word is the number of its generation times this, and then the numbers of blocks.
pub(crate) const GENERATION_UNIT: u64 = 32;

/// Loads the counter and then the root, and confirms the value after that counter.
#[tactic(auto, using(crate::proofs::Confirming::rooted_now, crate::proofs::Confirming::may_load_root))]
fn confirm_newest<N: Served>(shared: &Shared<N>, member: &mut Member) -> u64
    requires token { IsMemberOf shared.now.table.shared.table_id member.old }
    requires awake { is_waiting (view_of member.old).member.word ≡ false }
    requires rest { IsAwake (view_of member.old) → AreAtRest (view_of member.old) }
    ensures token { IsMemberOf shared.now.table.shared.table_id member.new }
    ensures same { IsSameMember member.old member.new }
    ensures reported { HoldsReported N.served (view_of member.old) (view_of member.new) result }
    ensures rooted { IsRooted member.new.root (view_of member.new) }
{
    let counter = shared.load_counter(member);
    let root = shared.load_root(member);
    shared.confirm(member, counter + 1);
    root / GENERATION_UNIT
}

/// Loads the counter and then the root, confirms the value after that counter, and answers the number
/// of the generation that the member holds from now on. No process of the member may be in the
/// midst of a turn.
///
/// Source: Erlang/OTP erts internal documentation, ThreadProgress.
#[tactic(auto, using(crate::proofs::Confirming::awake_now))]
pub fn report<N: Served>(shared: &Shared<N>, member: &mut Member) -> u64
    requires token { IsMemberOf shared.now.table.shared.table_id member.old }
    requires awake { IsAwake (view_of member.old) }
    requires rest { AreAtRest (view_of member.old) }
    ensures token { IsMemberOf shared.now.table.shared.table_id member.new }
    ensures same { IsSameMember member.old member.new }
    ensures reported { HoldsReported N.served (view_of member.old) (view_of member.new) result }
    ensures rooted { IsRooted member.new.root (view_of member.new) }
    ensures awake { IsAwake (view_of member.new) }
    ensures leads { IsLeader (view_of member.old) → IsLeader (view_of member.new) }
{
    confirm_newest(shared, member)
}

/// Begins to wait: until it wakes, the member reads nothing and holds back no progress. It does not
/// lead, and no process of the member is in the midst of a turn.
pub fn wait<N: Served>(shared: &Shared<N>, member: &mut Member)
    requires token { IsMemberOf shared.now.table.shared.table_id member.old }
    requires may { MayWait (view_of member.old) }
    ensures token { IsMemberOf shared.now.table.shared.table_id member.new }
    ensures same { IsSameMember member.old member.new }
    ensures root { member.new.root ≡ member.old.root }
    ensures waits { view_of member.new ≡ now_waiting (view_of member.old) }
{
    shared.store_waiting(member);
}

/// Ends a wait: stores that the member enters, then reports.
#[tactic(auto, using(crate::proofs::Confirming::awake_now, crate::proofs::Confirming::entering_rests))]
pub fn wake<N: Served>(shared: &Shared<N>, member: &mut Member) -> u64
    requires token { IsMemberOf shared.now.table.shared.table_id member.old }
    requires waits { MayEnter (view_of member.old) }
    ensures token { IsMemberOf shared.now.table.shared.table_id member.new }
    ensures same { IsSameMember member.old member.new }
    ensures reported { HoldsReported N.served (now_entering (view_of member.old)) (view_of member.new) result }
    ensures rooted { IsRooted member.new.root (view_of member.new) }
    ensures awake { IsAwake (view_of member.new) }
{
    shared.store_entering(member);
    confirm_newest(shared, member)
}
