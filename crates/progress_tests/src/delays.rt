//! A watcher on a table of one member, all from one thread. The expected values are those of the rules:
//! the counter is 1 and the member's word is 2 at first, and generation 0 alone is published.

ghost use Rattle.std.specs.Prelude.{◌≡◌, IfSome};
ghost use Rattle.shared_words.specs.Making.{AreMembersBegun, AreWatchersBegun};
ghost use Rattle.shared_words.specs.Opening.{member_begun};
ghost use Rattle.progress_words.specs.Delays.{IsIdle};
ghost use Rattle.progress_words.specs.Tokens.{view_of, watched_by, IsMemberOf, IsWatcherOf};

use crate::published::publishing::Any;
use progress_words::*;
use shared_words::{Member, Parts, Shared, Watcher};
use std::alloc::Global;
use std::test::Fail;
use term_core::NoMemory;

/// The tokens of the one member and the one watcher of a table.
fn both_tokens(
    shared: &Shared<Any>,
    mut members: Vec<Member>,
    mut watchers: Vec<Watcher>,
) -> Option<(Member, Watcher)>
    requires begun { AreMembersBegun shared.now.table.shared.table_id 1 members.items }
    requires watching { AreWatchersBegun shared.now.table.shared.table_id 1 watchers.items }
    ensures member { IfSome result (λ both. IsMemberOf shared.now.table.shared.table_id both.0) }
    ensures view { IfSome result (λ both. view_of both.0 ≡ member_begun 0) }
    ensures watcher { IfSome result (λ both. IsWatcherOf shared.now.table.shared.table_id both.1) }
    ensures idle { IfSome result (λ both. IsIdle (watched_by both.1)) }
{
    let member = members.pop()?;
    let watcher = watchers.pop()?;
    Some((member, watcher))
}

/// What each call answered, in the order of the calls.
#[derive(Clone, Copy, Debug, PartialEq, Eq)]
struct Seen {
    generation: u64,
    raised: Advance,
    reported: u64,
    delayed: Advance,
    raised_again: Advance,
}

/// The member leads, while the watcher delays the counter and then resumes.
#[tactic(auto, using(new_tables::proofs::Begun::begun_may_lead, new_tables::proofs::Begun::empty_rests))]
fn delay_once(shared: &Shared<Any>, member: &mut Member, watcher: &mut Watcher) -> Option<Seen>
    requires member { IsMemberOf shared.now.table.shared.table_id member.old }
    requires view { view_of member.old ≡ member_begun 0 }
    requires watcher { IsWatcherOf shared.now.table.shared.table_id watcher.old }
    requires idle { IsIdle (watched_by watcher.old) }
{
    let Lead::Led = lead(shared, member) else {
        return None;
    };
    let generation = delay(shared, watcher);
    let raised = advance(shared, member);
    let reported = report(shared, member);
    let delayed = advance(shared, member);
    resume(shared, watcher);
    let raised_again = advance(shared, member);
    Some(Seen {
        generation,
        raised,
        reported,
        delayed,
        raised_again,
    })
}

/// The same on a new table.
fn delay_new(alloc: Global) -> Result<Option<Seen>, NoMemory> {
    let (shared, parts) = Shared::<Any>::new(alloc, 1, 1)?;
    let Parts {
        writer: _,
        members,
        watchers,
    } = parts;
    let Some((mut member, mut watcher)) = both_tokens(&shared, members, watchers) else {
        return Ok(None);
    };
    Ok(delay_once(&shared, &mut member, &mut watcher))
}

/// A delay that begins at the counter 1 stands in delay count 1. The advance to 2 looks at delay count 0,
/// the one to 3 at delay count 1.
#[test]
fn a_watcher_delays_the_counter_once(rt: HostRuntime) -> Result<(), Fail> {
    let seen = delay_new(rt.alloc())?;
    let wanted = Seen {
        generation: 0,
        raised: Advance::Advanced(2),
        reported: 0,
        delayed: Advance::Delayed { count: 1 },
        raised_again: Advance::Advanced(3),
    };
    assert_eq!(rt; seen, Some(wanted));
    Ok(())
}
