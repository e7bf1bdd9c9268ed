//! The call by which the leader raises the counter.

ghost use Rattle.std.specs.Prelude.{◌≡◌, ◌<◌, ◌≤◌, ℕ};
ghost use Rattle.progress_words.specs.Tokens.{view_of, IsMemberOf, IsSameMember};
ghost use Rattle.prgr_core.specs.declared.member.TheConstants.{LAST_VALUE};
ghost use Rattle.progress_words.specs.Leads.{IsLeader, LeadsAt};
ghost use Rattle.progress_words.specs.Advances.{HasLooked, HasFound, delay_found};

use crate::answers::Advance;
use crate::delays::count_of;
use prgr_core::{LAST_VALUE, WAITING};
use shared_words::{Member, Served, Shared};

/// A member that has not confirmed the value after the counter.
#[derive(Drop)]
struct Lag {
    member: u32,
    confirmed: u64,
}

/// Looks at the words of all members in the order of their numbers, up to the first that is behind.
fn first_behind<N: Served>(shared: &Shared<N>, member: &mut Member, counter: u64) -> Option<Lag>
    requires token { IsMemberOf shared.now.table.shared.table_id member.old }
    requires leads { LeadsAt counter (view_of member.old) }
    requires below { counter < LAST_VALUE }
    ensures token { IsMemberOf shared.now.table.shared.table_id member.new }
    ensures same { IsSameMember member.old member.new }
    ensures root { member.new.root ≡ member.old.root }
    ensures found { HasFound shared.now.table.shared.key.members counter (view_of member.old) (view_of member.new) result }
{
    for other in 0..shared.members() {
        let confirmed = shared.load_confirmed(member, other);
        if confirmed != WAITING && confirmed != counter + 1 {
            return Some(Lag {
                member: other,
                confirmed,
            });
        }
    }
    None
}

/// Looks at the delay count of the value after the counter.
fn delays<N: Served>(shared: &Shared<N>, member: &mut Member, counter: u64) -> u64
    requires token { IsMemberOf shared.now.table.shared.table_id member.old }
    requires leads { LeadsAt counter (view_of member.old) }
    requires below { counter < LAST_VALUE }
    ensures token { IsMemberOf shared.now.table.shared.table_id member.new }
    ensures same { IsSameMember member.old member.new }
    ensures root { member.new.root ≡ member.old.root }
    ensures few { result ≤ shared.now.table.shared.key.watchers }
    ensures view { view_of member.new ≡ delay_found result (view_of member.old) }
{
    shared.load_delay(member, count_of(counter + 1))
}

/// Loads the counter, looks at the words of all members in the order of their numbers and then at the
/// delay count, and raises the counter by one where each member waits or has confirmed the value after
/// it, and no watcher delays it. The member leads.
///
/// Source: Erlang/OTP erts internal documentation, ThreadProgress.
pub fn advance<N: Served>(shared: &Shared<N>, member: &mut Member) -> Advance
    requires token { IsMemberOf shared.now.table.shared.table_id member.old }
    requires leads { IsLeader (view_of member.old) }
    ensures token { IsMemberOf shared.now.table.shared.table_id member.new }
    ensures same { IsSameMember member.old member.new }
    ensures root { member.new.root ≡ member.old.root }
    ensures leads { IsLeader (view_of member.new) }
    ensures looked { HasLooked shared.now.table.shared.key.members (view_of member.old) (view_of member.new) result }
    ensures slots { (view_of member.new).slots ≡ (view_of member.old).slots }
    ensures few { (count : ℕ) → result ≡ Advance.Delayed count → count ≤ shared.now.table.shared.key.watchers }
{
    let counter = shared.load_counter(member);
    if counter == LAST_VALUE {
        return Advance::AtEnd;
    }
    if let Some(lag) = first_behind(shared, member, counter) {
        return Advance::Behind {
            member: lag.member,
            confirmed: lag.confirmed,
        };
    }
    let count = delays(shared, member, counter);
    if count > 0 {
        return Advance::Delayed { count };
    }
    shared.store_counter(member);
    Advance::Advanced(counter + 1)
}
