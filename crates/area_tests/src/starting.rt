//! A member of a table with one process of its own number, which makes turns.

ghost use Rattle.std.specs.Prelude.{◌≡◌, ◌≤◌, ◌<◌, length, true};
ghost use Rattle.shared_words.specs.Views.{published_at};
ghost use Rattle.shared_words.specs.Opening.{member_begun};
ghost use Rattle.shared_words.specs.Notes.{MaySplitNote, with_note};
ghost use Rattle.shared_words.specs.Processes.{AreCopied};
ghost use Rattle.progress_words.specs.Tokens.{view_of, written_by, IsMemberOf, IsWriterOf};
ghost use Rattle.area_tests.specs.Work.{IsWorking, IsUnder, turns_done};

use crate::tables::Any;
use progress_words::{learn, note, report};
use shared_words::{Member, Shared, Writer};

/// The member joins the note of its process, and reports. It answers whether it holds generation 1.
#[tactic(auto, using(crate::proofs::Started::begins, crate::proofs::Started::begins_under, crate::proofs::Started::begins_turns, crate::proofs::Started::own_note, crate::proofs::Started::note_its, crate::proofs::Started::joined_awake, crate::proofs::Started::joined_rests))]
pub fn begin_work(
    shared: &Shared<Any>,
    writer: &mut Writer,
    member: &mut Member,
    process: u32,
) -> bool
    // the writer has no note of the process away, and published one generation after the opening one
    requires writer { IsWriterOf shared.now.table.shared.table_id shared.now.table.shared.key writer.old }
    requires unnoted { MaySplitNote (written_by writer.old) process }
    requires two { length (written_by writer.old).published ≡ 2 }
    // the member is as it began
    requires token { IsMemberOf shared.now.table.shared.table_id member.old }
    requires begun { view_of member.old ≡ member_begun process }
    requires copied { AreCopied member.old.anchors.items (view_of member.old) }
    // the process has the member's number
    requires below { process < shared.now.table.shared.key.members }
    requires few { shared.now.table.shared.key.members ≤ 16 }
    // the note is split off
    ensures writer { IsWriterOf shared.now.table.shared.table_id shared.now.table.shared.key writer.new }
    ensures noted { written_by writer.new ≡ with_note process (written_by writer.old) }
    // the member is the same, and may make turns of its process where it holds generation 1
    ensures token { IsMemberOf shared.now.table.shared.table_id member.new }
    ensures number { member.new.number ≡ member.old.number }
    ensures works { result ≡ true → IsWorking shared.now.table.shared.table_id shared.now.table.shared.key process member.new }
    ensures under { result ≡ true → IsUnder (published_at (written_by writer.old).published 1) (view_of member.new) }
    ensures turns { turns_done process (view_of member.new) ≡ 0 }
{
    let told = note(shared, writer, process);
    learn(shared, member, told);
    report(shared, member) == 1
}
