//! The notes by which a process learns of the generations that its spawner knew.

ghost use Rattle.std.specs.Prelude.{◌≡◌, ◌≤◌, length, IsTrue};
ghost use Rattle.area_core.specs.declared.readers.Slots.TheVariants.{OfMember};
ghost use Rattle.area_core.specs.Readers.{is_slot_of};
ghost use Rattle.shared_words.specs.Notes.{MaySplitNote, with_note, note_begun, note_joined};
ghost use Rattle.progress_words.specs.Tokens.{view_of, written_by, noted_by, IsMemberOf, IsSameMember, IsWriterOf, IsSameWriter, IsNoteOf};

use shared_words::{Member, Note, Served, Shared, Writer};

/// A note for a process of number 0 to 63, for which none was made before. It has learnt of all
/// generations that are published.
pub fn note<N: Served>(shared: &Shared<N>, writer: &mut Writer, process: u32) -> Note
    requires token { IsWriterOf shared.now.table.shared.table_id shared.now.table.shared.key writer.old }
    requires may { MaySplitNote (written_by writer.old) process }
    ensures token { IsWriterOf shared.now.table.shared.table_id shared.now.table.shared.key writer.new }
    ensures same { IsSameWriter writer.old writer.new }
    ensures kept { written_by writer.new ≡ with_note process (written_by writer.old) }
    ensures note { IsNoteOf shared.now.table.shared.table_id process result }
    ensures learnt { noted_by result ≡ note_begun process (written_by writer.old) }
{
    shared.split_note(writer, process)
}

/// The member learns of all generations of which the note has learnt. The process of the note is one
/// of the member's. The member still holds the generation that it held.
#[tactic(auto, using(crate::proofs::Noting::learnt_as_much))]
pub fn learn<N: Served>(shared: &Shared<N>, member: &mut Member, note: Note)
    requires token { IsMemberOf shared.now.table.shared.table_id member.old }
    requires note { IsNoteOf shared.now.table.shared.table_id note.process note }
    requires own { IsTrue (is_slot_of (OfMember member.old.number shared.now.table.shared.key.members) note.process) }
    ensures token { IsMemberOf shared.now.table.shared.table_id member.new }
    ensures same { IsSameMember member.old member.new }
    ensures root { member.new.root ≡ member.old.root }
    ensures joined { view_of member.new ≡ note_joined (noted_by note) (view_of member.old) }
    ensures learnt { length (noted_by note).seen ≤ length (view_of member.new).seen }
{
    shared.join_note(member, note);
}
