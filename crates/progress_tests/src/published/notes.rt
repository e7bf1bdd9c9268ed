//! Notes, all from one thread. The expected values are those of the rules: a root word is 32 times
//! the number of its generation where all blocks are the first ones, and process 0 is the first
//! member's.

ghost use Rattle.std.specs.Prelude.{◌≡◌};
ghost use Rattle.shared_words.specs.Making.{IsHanding};
ghost use Rattle.shared_words.specs.Opening.{member_begun};
ghost use Rattle.shared_words.specs.Seats.{IsRooted};
ghost use Rattle.progress_words.specs.Tokens.{view_of, IsMemberOf, IsWriterOf};

use super::publishing::{Any, publish};
use crate::waits::both_members;
use progress_words::*;
use shared_words::{Member, Parts, Shared, Writer};
use std::alloc::Global;
use std::test::Fail;
use term_core::NoMemory;

/// The root word that a member holds behind the note, what its report answers, and the root word that it holds then.
#[tactic(auto, using(new_tables::proofs::Emptied::handing_empty, new_tables::proofs::Emptied::handing_first, crate::proofs::Noted::first_note, crate::proofs::Noted::note_own, crate::proofs::Noted::own_process, crate::proofs::Noted::learnt_rooted, crate::proofs::Noted::learnt_awake))]
fn learn_and_report(
    shared: &Shared<Any>,
    writer: &mut Writer,
    first: &mut Member,
) -> (u64, u64, u64)
    requires token { IsWriterOf shared.now.table.shared.table_id shared.now.table.shared.key writer.old }
    requires handing { IsHanding shared.now.table.shared.table_id shared.now.table.shared.key 2 writer.old.seat }
    requires two { shared.now.table.shared.key.members ≡ 2 }
    requires first { IsMemberOf shared.now.table.shared.table_id first.old }
    requires first_view { view_of first.old ≡ member_begun 0 }
    requires first_root { IsRooted first.old.root (view_of first.old) }
{
    publish(shared, writer);
    let told = note(shared, writer, 0);
    learn(shared, first, told);
    let before = first.root();
    let generation = report(shared, first);
    (before, generation, first.root())
}

/// The same on a new table, and the root word that another member holds then.
fn learn_new(alloc: Global) -> Result<Option<((u64, u64, u64), u64)>, NoMemory> {
    let (shared, parts) = Shared::<Any>::new(alloc, 2, 0)?;
    let Parts {
        mut writer,
        members,
        watchers: _,
    } = parts;
    let Some((mut first, second)) = both_members(&shared, members) else {
        return Ok(None);
    };
    let seen = learn_and_report(&shared, &mut writer, &mut first);
    Ok(Some((seen, second.root())))
}

/// A member that learns by a note of a generation still holds the one that it held, and holds the
/// newest one from its next report on. Another one that has not reported holds generation 0.
#[test]
fn a_note_changes_nothing_that_is_held(rt: HostRuntime) -> Result<(), Fail> {
    let seen = learn_new(rt.alloc())?;
    assert_eq!(rt; seen, Some(((0, 1, 32), 0)));
    Ok(())
}
