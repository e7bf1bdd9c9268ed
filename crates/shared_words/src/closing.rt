//! The end of a table: no thread makes a step any more, and all seats come in.

ghost use Rattle.std.specs.Prelude.{◌≡◌, ◌+◌, ◌<◌, ℕ, length, IfOk, OnOk, Some, slice_get};
ghost use Rattle.shared_words.specs.declared.seats.Member as tokens;
ghost use Rattle.shared_words.specs.declared.seats.Watcher as watching;
ghost use Rattle.shared_words.specs.declared.view.View.TheVariants as views;
ghost use Rattle.shared_words.specs.Seats.{IsSeatOf, IsSameSeat, IsWriterSeat, writer_of, member_of, watcher_of};
ghost use Rattle.shared_words.specs.Closing.{AreAllMembers, AreWatchers, HasAllMembers, HasAllWatchers, HaveMarks, AreLastWords, member_taken, watcher_taken};
ghost use Rattle.shared_words.specs.Rule.{IsBeginning};
ghost use Rattle.area_core.specs.declared.map.TheConstants.{TABLE_WORDS};

use crate::law::Served;
use crate::pass::Words;
use crate::plays::{SeeMembers, SeeWatchers, SeeWord, TakeIn, TakeInWatcher};
use crate::seats::{Member, Parts, Watcher, Writer};
use crate::table::{ROOT, Shared};
use crate::view::View;
use area_core::TABLE_WORDS;
use atomic_table::Seat;
use std::alloc::{AllocError, Global};
use term_core::{NoMemory, WordList};

/// A table at its end: its words, and the one seat that is left. No step is made any more.
#[derive(Drop)]
pub struct Closed {
    words: WordList,
    writer: Writer,
    pub ghost numbered: { length (writer_of writer.seat.me.0).published ≡ writer.generation + 1 },
    pub ghost last: { AreLastWords (writer_of writer.seat.me.0) words },
}

/// The seat of a member comes in. It loads the root.
fn take_in<N: Served>(table: &Words<N>, writer: &mut Seat<(), View>, member: Member)
    requires token { IsSeatOf table.now.table_id writer.old }
    requires writer { writer.old.me.0 ≡ views.Writer (writer_of writer.old.me.0) }
    requires seat { IsSeatOf table.now.table_id member.seat }
    requires member { member.seat.me.0 ≡ views.Member (member_of member.seat.me.0) }
    requires words { 0 < table.now.table_id.words }
    ensures token { IsSameSeat writer.old writer.new }
    ensures view { writer.new.me.0 ≡ member_taken writer.old.me.0 member.seat.me.0 }
{
    let Member { seat, .. } = member;
    table.join_seat::<TakeIn>(writer, seat);
}

/// The seats of all members come in.
fn take_in_all<N: Served>(table: &Words<N>, writer: &mut Seat<(), View>, mut members: Vec<Member>)
    requires token { IsSeatOf table.now.table_id writer.old }
    requires writer { writer.old.me.0 ≡ views.Writer (writer_of writer.old.me.0) }
    requires members { AreAllMembers table.now.table_id (length (writer_of writer.old.me.0).members) members.items }
    requires words { 0 < table.now.table_id.words }
    ensures token { IsSameSeat writer.old writer.new }
    ensures view { writer.new.me.0 ≡ views.Writer (writer_of writer.new.me.0) }
    ensures members { HasAllMembers members.items (writer_of writer.old.me.0) (writer_of writer.new.me.0) }
{
    'members: while let Some(member) = members.pop() {
        take_in(table, writer, member);
    }
}

/// The seat of a watcher comes in, and the writer learns of which generations the watcher has learnt. It
/// loads the root twice.
fn take_in_watcher<N: Served>(table: &Words<N>, writer: &mut Seat<(), View>, watcher: Watcher)
    requires token { IsSeatOf table.now.table_id writer.old }
    requires writer { writer.old.me.0 ≡ views.Writer (writer_of writer.old.me.0) }
    requires seat { IsSeatOf table.now.table_id watcher.seat }
    requires watcher { watcher.seat.me.0 ≡ views.Watcher (watcher_of watcher.seat.me.0) }
    requires words { 0 < table.now.table_id.words }
    ensures token { IsSameSeat writer.old writer.new }
    ensures view { writer.new.me.0 ≡ watcher_taken writer.old.me.0 watcher.seat.me.0 }
    ensures learnt { IsBeginning (watcher_of watcher.seat.me.0).seen (writer_of writer.new.me.0).published }
{
    let Watcher { seat, .. } = watcher;
    table.join_seat::<TakeInWatcher>(writer, seat);
    table.load::<SeeWatchers>(writer, ROOT as usize);
}

/// The seats of these watchers come in.
fn take_in_all_watchers<N: Served>(
    table: &Words<N>,
    writer: &mut Seat<(), View>,
    mut watchers: Vec<Watcher>,
)
    requires token { IsSeatOf table.now.table_id writer.old }
    requires writer { writer.old.me.0 ≡ views.Writer (writer_of writer.old.me.0) }
    requires watchers { AreWatchers table.now.table_id watchers.items }
    requires words { 0 < table.now.table_id.words }
    ensures token { IsSameSeat writer.old writer.new }
    ensures view { writer.new.me.0 ≡ views.Writer (writer_of writer.new.me.0) }
    ensures watchers { HasAllWatchers watchers.items (writer_of writer.old.me.0) (writer_of writer.new.me.0) }
{
    'watchers: while let Some(watcher) = watchers.pop() {
        take_in_watcher(table, writer, watcher);
    }
}

/// Ends a table. In `parts` are the writer, all members in the order of their numbers, and those of the
/// watchers of which it is to say what they learnt; notes that were not joined may be left out. Their seats
/// come in to the writer's. It takes memory for the words.
pub fn close<N: Served>(alloc: Global, shared: Shared<N>, parts: Parts) -> Result<Closed, NoMemory>
    requires token { IsWriterSeat shared.table.shared.table_id shared.table.shared.key parts.writer.generation parts.writer.seat }
    requires members { AreAllMembers shared.table.shared.table_id shared.table.shared.key.members parts.members.items }
    requires watchers { AreWatchers shared.table.shared.table_id parts.watchers.items }
    ensures table { IfOk result (λ closed. closed.writer.seat.table_id ≡ shared.table.shared.table_id) }
    ensures generation { IfOk result (λ closed. closed.writer.generation ≡ parts.writer.generation) }
    ensures members { IfOk result (λ closed. HasAllMembers parts.members.items (writer_of parts.writer.seat.me.0) (writer_of closed.writer.seat.me.0)) }
    ensures marks { IfOk result (λ closed. HaveMarks parts.members.items (writer_of closed.writer.seat.me.0)) }
    ensures seen { IfOk result (λ closed. (k : ℕ) (token : tokens.Member) → slice_get parts.members.items k ≡ Some token → IsBeginning (member_of token.seat.me.0).seen (writer_of closed.writer.seat.me.0).published) }
    ensures watched { IfOk result (λ closed. (k : ℕ) (token : watching.Watcher) → slice_get parts.watchers.items k ≡ Some token → IsBeginning (watcher_of token.seat.me.0).seen (writer_of closed.writer.seat.me.0).published) }
{
    let Shared { table, members: _ } = shared;
    let Parts {
        mut writer,
        members,
        watchers,
    } = parts;
    take_in_all_watchers(&table.shared, &mut writer.seat, watchers);
    take_in_all(&table.shared, &mut writer.seat, members);
    table
        .shared
        .load::<SeeMembers>(&mut writer.seat, ROOT as usize);
    let words = copied(alloc, &table.shared, &mut writer.seat, TABLE_WORDS as usize)?;
    Ok(Closed {
        words: WordList::from_vec(words),
        writer,
    })
}

impl Closed {
    /// How often the root was stored.
    pub fn published(&self) -> u64
        ensures { length (writer_of self.now.writer.seat.me.0).published ≡ result + 1 }
    {
        self.writer.generation
    }

    /// The words of the table as `close` left them.
    pub fn words(self) -> WordList
        ensures { AreLastWords (writer_of self.writer.seat.me.0) result }
    {
        let Closed { words, writer: _ } = self;
        words
    }
}

/// The words of a table in which no other seat makes a step. The seat learns nothing by them.
fn copied<N: Served>(
    alloc: Global,
    table: &Words<N>,
    writer: &mut Seat<(), View>,
    count: usize,
) -> Result<Vec<u64>, AllocError>
    requires token { IsSeatOf table.now.table_id writer.old }
    requires writer { writer.old.me.0 ≡ views.Writer (writer_of writer.old.me.0) }
    requires sized { table.now.table_id.words ≡ count }
    requires count { count ≡ TABLE_WORDS }
    ensures table { OnOk result (writer.new.table_id ≡ writer.old.table_id) }
    ensures view { OnOk result (writer.new.me.0 ≡ writer.old.me.0) }
    ensures words { IfOk result (λ words. AreLastWords (writer_of writer.old.me.0) words.items) }
{
    let mut words = Vec::with_capacity(alloc, count)?;
    for place in 0..count {
        words.push_reserved(table.load::<SeeWord>(writer, place));
    }
    Ok(words)
}
