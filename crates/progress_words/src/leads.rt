//! The calls by which a member takes the lead, and gives it up.

ghost use Rattle.std.specs.Prelude.{◌≡◌, ℕ};
ghost use Rattle.shared_words.specs.Kinds.{MayLead, lead_given};
ghost use Rattle.progress_words.specs.Tokens.{view_of, IsMemberOf, IsSameMember};
ghost use Rattle.progress_words.specs.Leads.{HasTried, IsLeader, held_by};

use crate::answers::Lead;
use shared_words::{Member, Served, Shared};

/// Takes the lead by one exchange, where no member has it. The member is awake, and does not lead.
#[tactic(auto, using(crate::proofs::Raising::leads_now))]
pub fn lead<N: Served>(shared: &Shared<N>, member: &mut Member) -> Lead
    requires token { IsMemberOf shared.now.table.shared.table_id member.old }
    requires may { MayLead (view_of member.old) }
    ensures token { IsMemberOf shared.now.table.shared.table_id member.new }
    ensures same { IsSameMember member.old member.new }
    ensures root { member.new.root ≡ member.old.root }
    ensures tried { HasTried (view_of member.old) (view_of member.new) result }
    ensures slots { (view_of member.new).slots ≡ (view_of member.old).slots }
    ensures led { result ≡ Lead.Led → IsLeader (view_of member.new) }
    ensures held { (by : ℕ) → result ≡ Lead.Held by → view_of member.new ≡ held_by by (view_of member.old) }
{
    match shared.take_lead(member) {
        0 => Lead::Led,
        leader => Lead::Held {
            by: (leader - 1) as u32,
        },
    }
}

/// Gives up the lead. Whoever takes it next raises the counter.
pub fn give_up<N: Served>(shared: &Shared<N>, member: &mut Member)
    requires token { IsMemberOf shared.now.table.shared.table_id member.old }
    requires leads { IsLeader (view_of member.old) }
    ensures token { IsMemberOf shared.now.table.shared.table_id member.new }
    ensures same { IsSameMember member.old member.new }
    ensures root { member.new.root ≡ member.old.root }
    ensures given { view_of member.new ≡ lead_given (view_of member.old) }
{
    shared.drop_lead(member);
}
