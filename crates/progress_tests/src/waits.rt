//! Thread progress on a table of two members, all from one thread. The expected values are those of
//! the rules: the counter is 1 and both words are 2 at first, and generation 0 alone is published.

ghost use Rattle.std.specs.Prelude.{◌≡◌, IfSome};
ghost use Rattle.shared_words.specs.Making.{AreMembersBegun};
ghost use Rattle.shared_words.specs.Opening.{member_begun};
ghost use Rattle.shared_words.specs.Seats.{IsRooted};
ghost use Rattle.progress_words.specs.Tokens.{view_of, IsMemberOf, IsWriterOf};

use crate::published::publishing::Any;
use progress_words::*;
use shared_words::{Member, Parts, Shared, Writer};
use std::alloc::Global;
use std::test::Fail;
use term_core::NoMemory;

/// The tokens of both members of a table.
pub fn both_members(shared: &Shared<Any>, mut members: Vec<Member>) -> Option<(Member, Member)>
    requires begun { AreMembersBegun shared.now.table.shared.table_id 2 members.items }
    ensures first { IfSome result (λ both. IsMemberOf shared.now.table.shared.table_id both.0) }
    ensures first_view { IfSome result (λ both. view_of both.0 ≡ member_begun 0) }
    ensures first_root { IfSome result (λ both. IsRooted both.0.root (view_of both.0)) }
    ensures second { IfSome result (λ both. IsMemberOf shared.now.table.shared.table_id both.1) }
    ensures second_view { IfSome result (λ both. view_of both.1 ≡ member_begun 1) }
    ensures second_root { IfSome result (λ both. IsRooted both.1.root (view_of both.1)) }
{
    let second = members.pop()?;
    let first = members.pop()?;
    Some((first, second))
}

/// What each call answered, in the order of the calls.
#[derive(Clone, Copy, Debug, PartialEq, Eq)]
struct Seen {
    need: u64,
    raised: Advance,
    behind: Advance,
    early: Result<(), NotYet>,
    generation: u64,
    raised_again: Advance,
    over: Result<(), NotYet>,
    woken: u64,
}

/// The first member leads and reports while the second one waits, and the writer asks for a value.
#[tactic(auto, using(new_tables::proofs::Begun::begun_may_lead, new_tables::proofs::Begun::begun_may_wait, new_tables::proofs::Begun::empty_rests))]
fn follow(
    shared: &Shared<Any>,
    writer: &mut Writer,
    first: &mut Member,
    second: &mut Member,
) -> Option<Seen>
    requires token { IsWriterOf shared.now.table.shared.table_id shared.now.table.shared.key writer.old }
    requires first { IsMemberOf shared.now.table.shared.table_id first.old }
    requires first_view { view_of first.old ≡ member_begun 0 }
    requires second { IsMemberOf shared.now.table.shared.table_id second.old }
    requires second_view { view_of second.old ≡ member_begun 1 }
{
    let Lead::Led = lead(shared, first) else {
        return None;
    };
    let need = later(shared, writer);
    let raised = advance(shared, first);
    let behind = advance(shared, first);
    let early = reached(shared, writer, need);
    wait(shared, second);
    let generation = report(shared, first);
    let raised_again = advance(shared, first);
    let over = reached(shared, writer, need);
    let woken = wake(shared, second);
    give_up(shared, first);
    Some(Seen {
        need,
        raised,
        behind,
        early,
        generation,
        raised_again,
        over,
        woken,
    })
}

/// The same on a new table.
fn follow_new(alloc: Global) -> Result<Option<Seen>, NoMemory> {
    let (shared, parts) = Shared::<Any>::new(alloc, 2, 0)?;
    let Parts {
        mut writer,
        members,
        watchers: _,
    } = parts;
    let Some((mut first, mut second)) = both_members(&shared, members) else {
        return Ok(None);
    };
    Ok(follow(&shared, &mut writer, &mut first, &mut second))
}

/// The first advance needs no report, since the words are 2 and the counter is 1; the next one does.
/// A member that waits holds back no progress, and the value that the writer took is reached once the
/// counter has gone on by two.
#[test]
fn the_counter_follows_the_members(rt: HostRuntime) -> Result<(), Fail> {
    let seen = follow_new(rt.alloc())?;
    let wanted = Seen {
        need: 3,
        raised: Advance::Advanced(2),
        behind: Advance::Behind {
            member: 0,
            confirmed: 2,
        },
        early: Err(NotYet {
            need: 3,
            current: 2,
        }),
        generation: 0,
        raised_again: Advance::Advanced(3),
        over: Ok(()),
        woken: 0,
    };
    assert_eq!(rt; seen, Some(wanted));
    Ok(())
}
