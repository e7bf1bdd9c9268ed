//! The notes that processes take along as they are spawned.

ghost use Rattle.std.specs.Prelude.{◌≡◌, ◌<◌};
ghost use Rattle.shared_words.specs.declared.view.View.TheVariants as views;
ghost use Rattle.shared_words.specs.Seats.{IsSeatOf, IsSameSeat, IsWriterSeat, IsMemberSeat, IsNoteSeat, writer_of, member_of, note_of};
ghost use Rattle.shared_words.specs.Notes.{IsSplittingNote, MaySplitNote, note_left, note_right, with_note, note_begun, note_joined};

use crate::law::Served;
use crate::pass::Words;
use crate::plays::{JoinNote, SplitNote};
use crate::seats::{Member, Note, Writer};
use crate::table::Shared;
use crate::view::View;
use atomic_table::Seat;
use std::marker::Brand;

/// The process for which a note is split. The proof of a call picks it.
pub trait Spawned {
    ghost use Rattle.std.specs.Prelude.{ℕ};

    ghost process: { ℕ };
}

impl Spawned for Brand {
    ghost process = { 0 };
}

/// The note for the process that was picked.
fn note_for<N: Served, K: Spawned>(
    table: &Words<N>,
    writer: &mut Seat<(), View>,
    process: u32,
) -> Note
    requires picked { process ≡ K.process }
    requires token { IsSeatOf table.now.table_id writer.old }
    requires may { IsSplittingNote table.now.key K.process writer.old.me.0 }
    requires words { 0 < table.now.table_id.words }
    ensures token { IsSameSeat writer.old writer.new }
    ensures view { writer.new.me.0 ≡ note_left K.process writer.old.me.0 }
    ensures seat { IsSeatOf table.now.table_id result.seat }
    ensures note { result.seat.me.0 ≡ note_right K.process writer.old.me.0 }
    ensures process { result.process ≡ process }
{
    let seat = table.split_seat::<SplitNote<K>>(writer);
    Note { seat, process }
}

impl<N: Served> Shared<N> {
    /// A note for a process of number 0 to 63, for which none was made before. It has learnt of all
    /// generations that are published. It loads the root.
    pub fn split_note(&self, writer: &mut Writer, process: u32) -> Note
        requires token { IsWriterSeat self.now.table.shared.table_id self.now.table.shared.key writer.old.generation writer.old.seat }
        requires may { MaySplitNote (writer_of writer.old.seat.me.0) process }
        ensures token { IsWriterSeat self.now.table.shared.table_id self.now.table.shared.key writer.new.generation writer.new.seat }
        ensures same { IsSameSeat writer.old.seat writer.new.seat }
        ensures generation { writer.new.generation ≡ writer.old.generation }
        ensures view { writer.new.seat.me.0 ≡ views.Writer (with_note process (writer_of writer.old.seat.me.0)) }
        ensures seat { IsNoteSeat self.now.table.shared.table_id result.process result.seat }
        ensures process { result.process ≡ process }
        ensures note { result.seat.me.0 ≡ views.Note (note_begun process (writer_of writer.old.seat.me.0)) }
    {
        note_for::<N, Brand>(&self.table.shared, &mut writer.seat, process)
    }

    /// Joins a note to a member. The member has then learnt of at least as many generations as the note
    /// had, and the next load of the root tells that those which were published at the spawn are among
    /// them. It loads the root.
    pub fn join_note(&self, member: &mut Member, note: Note)
        requires token { IsMemberSeat self.now.table.shared.table_id member.old.number member.old.seat }
        requires note { IsNoteSeat self.now.table.shared.table_id note.process note.seat }
        ensures token { IsSameSeat member.old.seat member.new.seat }
        ensures number { member.new.number ≡ member.old.number }
        ensures root { member.new.root ≡ member.old.root }
        ensures anchors { member.new.anchors.items ≡ member.old.anchors.items }
        ensures view { member.new.seat.me.0 ≡ views.Member (note_joined (note_of note.seat.me.0) (member_of member.old.seat.me.0)) }
    {
        let Note { seat, process: _ } = note;
        self.table
            .shared
            .join_seat::<JoinNote>(&mut member.seat, seat);
    }
}
