//! What a scheduler's member does between two rows of laps: it waits.

ghost use Rattle.std.specs.Prelude.{◌≡◌};
ghost use Rattle.shared_words.specs.declared.view.MemberView.{MemberView};
ghost use Rattle.progress_words.specs.Reports.{HoldsReported};
ghost use Rattle.anchors.specs.Holds.{view_of};
ghost use Rattle.word_lap.specs.Schedulers.{IsBetweenTurns, IsToken};
ghost use Rattle.word_lap.specs.Waiting.{IsWaiting, WaitsAfter};

use progress_words::{wait, wake};
use shared_words::{Member, Served, Shared};

/// The member waits from now on: it reads no generation, and holds back no progress.
#[tactic(auto, using(crate::proofs::Waits::waits_now))]
pub fn begin_wait<N: Served>(shared: &Shared<N>, member: &mut Member)
    requires token { IsToken shared.now.table.shared.table_id member.old }
    requires between { IsBetweenTurns (view_of member.old) }
    ensures waits { WaitsAfter shared.now.table.shared.table_id (view_of member.old) member.new }
    ensures number { member.new.number ≡ member.old.number }
{
    wait(shared, member);
}

/// Ends the wait with a report, which is one behind what the member knew before it waited. Answers the number of the generation that the member then holds.
#[tactic(auto, using(crate::proofs::Waits::may_wake, crate::proofs::Waits::token_woken, crate::proofs::Waits::between_woken))]
pub fn end_wait<N: Served>(shared: &Shared<N>, member: &mut Member) -> u64
    requires waits { IsWaiting shared.now.table.shared.table_id member.old }
    ensures token { IsToken shared.now.table.shared.table_id member.new }
    ensures number { member.new.number ≡ member.old.number }
    ensures between { IsBetweenTurns (view_of member.new) }
    ensures reported { (before : MemberView) → WaitsAfter shared.now.table.shared.table_id before member.old → HoldsReported N.served before (view_of member.new) result }
{
    wake(shared, member)
}
