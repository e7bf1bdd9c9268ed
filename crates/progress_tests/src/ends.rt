//! The end of a table, all from one thread. The expected values are those of the rules: a table has
//! 83,413 words, and its counter is 1 at first.

ghost use Rattle.std.specs.Prelude.{◌≡◌};
ghost use Rattle.shared_words.specs.Making.{IsHanding};
ghost use Rattle.shared_words.specs.Opening.{member_begun};
ghost use Rattle.progress_words.specs.Tokens.{view_of, IsMemberOf, IsSameMember, IsWriterOf};

use crate::published::publishing::Any;
use crate::waits::both_members;
use progress_words::{learn, note};
use shared_words::{COUNTER, Member, Parts, ROOT, Shared, Writer, close};
use std::alloc::Global;
use std::test::Fail;
use term_core::{NoMemory, WordList};

/// A note is made and learnt.
#[tactic(auto, using(crate::proofs::Noted::begun_note, crate::proofs::Noted::note_own, crate::proofs::Noted::own_process))]
fn learn_first(shared: &Shared<Any>, writer: &mut Writer, first: &mut Member)
    requires token { IsWriterOf shared.now.table.shared.table_id shared.now.table.shared.key writer.old }
    requires handing { IsHanding shared.now.table.shared.table_id shared.now.table.shared.key 3 writer.old.seat }
    requires two { shared.now.table.shared.key.members ≡ 2 }
    requires first { IsMemberOf shared.now.table.shared.table_id first.old }
    requires first_view { view_of first.old ≡ member_begun 0 }
    ensures token { IsWriterOf shared.now.table.shared.table_id shared.now.table.shared.key writer.new }
    ensures first { IsMemberOf shared.now.table.shared.table_id first.new }
    ensures same { IsSameMember first.old first.new }
{
    let told = note(shared, writer, 0);
    learn(shared, first, told);
}

/// How many generations a new table on which that was done has at its end, and its words.
#[tactic(auto, using(crate::proofs::Ended::both_again, shared_words::proofs::WatchersTaken::begun_are_watchers))]
fn learn_and_close(alloc: Global) -> Result<Option<(u64, WordList)>, NoMemory> {
    let (shared, parts) = Shared::<Any>::new(alloc, 2, 1)?;
    let Parts {
        mut writer,
        members,
        watchers,
    } = parts;
    let Some((mut first, second)) = both_members(&shared, members) else {
        return Ok(None);
    };
    learn_first(&shared, &mut writer, &mut first);
    let members = vec![in alloc; first, second]?;
    let parts = Parts {
        writer,
        members,
        watchers,
    };
    let closed = close(alloc, shared, parts)?;
    Ok(Some((closed.published(), closed.words())))
}

/// A note is made and learnt, and then the table is closed, whose root was never stored.
#[test]
fn a_table_is_made_and_closed(rt: HostRuntime) -> Result<(), Fail> {
    let Some((published, words)) = learn_and_close(rt.alloc())? else {
        assert!(rt; false, "there are two members");
        return Ok(());
    };
    assert_eq!(rt; published, 0, "the root was never stored");
    assert_eq!(rt; words.len(), 83_413);
    assert_eq!(rt; words.get(ROOT as usize).copied(), Some(0));
    assert_eq!(rt; words.get(COUNTER as usize).copied(), Some(1));
    Ok(())
}
