//! How a table is made.

ghost use Rattle.std.specs.Prelude.{◌≡◌, ◌≤◌, ◌<◌, ◌+◌, ◌*◌, IfOk, OnOk};
ghost use Rattle.prgr_core.specs.declared.member.TheConstants.{MOST_MEMBERS, OPENING_WORD, WAITING};
ghost use Rattle.area_core.specs.declared.map.TheConstants.{TABLE_WORDS};
ghost use Rattle.area_core.specs.Step.{opening_published};
ghost use Rattle.shared_words.specs.declared.table.TheConstants.{OPENING_ROOT, PROCESSES, ANCHORS};
ghost use Rattle.prgr_core.specs.declared.watcher.TheConstants.{MOST_WATCHERS};
ghost use Rattle.shared_words.specs.Making.{AreBegun, HasSeatsAtHome, HasWatchersAtHome, IsHanding, AreMembersBegun, AreWatchersBegun, handed_on, handed_out, watcher_handed_out};
ghost use Rattle.shared_words.specs.Seats.{IsSeatOf, IsSameSeat, IsWriterSeat};

use crate::law::Served;
use crate::opening::Opening;
use crate::pass::Words;
use crate::plays::{HandOut, HandOutWatcher};
use crate::seats::{Member, Parts, Watcher, Writer};
use crate::table::{ANCHORS, CONFIRMED, COUNTER, OPENING_ROOT, PROCESSES, Shared};
use crate::view::View;
use area_core::TABLE_WORDS;
use atomic_table::{Seat, Table};
use prgr_core::{MOST_MEMBERS, OPENING_COUNTER, OPENING_WORD, WAITING};
use std::alloc::{AllocError, Global};
use term_core::NoMemory;

/// The word of a member at first; one that is not made is as if it waited.
fn opening_word(number: usize, members: u32) -> u64
    ensures made { number < members → result ≡ OPENING_WORD }
    ensures other { members ≤ number → result ≡ WAITING }
{
    if number < members as usize {
        OPENING_WORD
    } else {
        WAITING
    }
}

/// The words of a table of so many members as they are at first.
fn opening_words(alloc: Global, members: u32, count: usize) -> Result<Vec<u64>, AllocError>
    requires members { members ≤ MOST_MEMBERS }
    requires count { count ≡ TABLE_WORDS }
    ensures { IfOk result (λ words. AreBegun members words.items) }
{
    let mut words = Vec::from_elem(alloc, 0u64, count)?;
    words[COUNTER as usize] = OPENING_COUNTER;
    for number in 0..MOST_MEMBERS {
        words[CONFIRMED as usize + number] = opening_word(number, members);
    }
    Ok(words)
}

/// The token of the member of this number, whose seat is the next that the writer hands out.
fn hand_out<N: Served>(
    table: &Words<N>,
    writer: &mut Seat<(), View>,
    number: u32,
    anchors: Vec<u64>,
) -> Member
    requires token { IsSeatOf table.now.table_id writer.old }
    requires home { HasSeatsAtHome table.now.key writer.old.me.0 }
    requires words { 0 < table.now.table_id.words }
    ensures token { IsSameSeat writer.old writer.new }
    ensures view { writer.new.me.0 ≡ handed_on writer.old.me.0 }
    ensures seat { IsSeatOf table.now.table_id result.seat }
    ensures member { result.seat.me.0 ≡ handed_out writer.old.me.0 }
    ensures number { result.number ≡ number }
    ensures root { result.root ≡ OPENING_ROOT }
    ensures anchors { result.anchors ≡ anchors }
{
    let seat = table.split_seat::<HandOut>(writer);
    Member {
        seat,
        number,
        root: OPENING_ROOT,
        anchors,
    }
}

/// The tokens of all members.
fn hand_out_all<N: Served>(
    alloc: Global,
    table: &Words<N>,
    writer: &mut Seat<(), View>,
    members: u32,
    anchors: usize,
) -> Result<Vec<Member>, AllocError>
    requires token { IsHanding table.now.table_id table.now.key 0 writer.old }
    requires anchors { anchors ≡ PROCESSES * ANCHORS }
    requires members { members ≡ table.now.key.members }
    requires words { 0 < table.now.table_id.words }
    ensures writer { OnOk result (IsHanding table.now.table_id table.now.key members writer.new) }
    ensures tokens { IfOk result (λ tokens. AreMembersBegun table.now.table_id members tokens.items) }
{
    let mut tokens = Vec::with_capacity(alloc, members as usize)?;
    for number in 0..members {
        let none = Vec::from_elem(alloc, 0u64, anchors)?;
        tokens.push_reserved(hand_out(table, writer, number, none));
    }
    Ok(tokens)
}

/// The token of the watcher whose seat is the next that the writer hands out.
fn hand_out_watcher<N: Served>(table: &Words<N>, writer: &mut Seat<(), View>) -> Watcher
    requires token { IsSeatOf table.now.table_id writer.old }
    requires home { HasWatchersAtHome table.now.key writer.old.me.0 }
    requires words { 0 < table.now.table_id.words }
    ensures token { IsSameSeat writer.old writer.new }
    ensures view { writer.new.me.0 ≡ handed_on writer.old.me.0 }
    ensures seat { IsSeatOf table.now.table_id result.seat }
    ensures watcher { result.seat.me.0 ≡ watcher_handed_out writer.old.me.0 }
    ensures holds { result.holds ≡ 0 }
{
    let seat = table.split_seat::<HandOutWatcher>(writer);
    Watcher {
        seat,
        root: OPENING_ROOT,
        holds: 0,
    }
}

/// The tokens of all watchers, once those of the members are handed out.
fn hand_out_watchers<N: Served>(
    alloc: Global,
    table: &Words<N>,
    writer: &mut Seat<(), View>,
    watchers: u32,
) -> Result<Vec<Watcher>, AllocError>
    requires token { IsHanding table.now.table_id table.now.key table.now.key.members writer.old }
    requires watchers { watchers ≡ table.now.key.watchers }
    requires words { 0 < table.now.table_id.words }
    ensures writer { OnOk result (IsHanding table.now.table_id table.now.key (table.now.key.members + watchers) writer.new) }
    ensures tokens { IfOk result (λ tokens. AreWatchersBegun table.now.table_id watchers tokens.items) }
{
    let mut tokens = Vec::with_capacity(alloc, watchers as usize)?;
    for _number in 0..watchers {
        tokens.push_reserved(hand_out_watcher(table, writer));
    }
    Ok(tokens)
}

impl<N: Served> Shared<N> {
    /// A table for 1 to 16 members, all awake and holding generation 0, which is empty, and for up to 4
    /// watchers, who hold nothing.
    pub fn new(alloc: Global, members: u32, watchers: u32) -> Result<(Shared<N>, Parts), NoMemory>
        requires members { (1 ≤ members) × (members ≤ MOST_MEMBERS) }
        requires watchers { watchers ≤ MOST_WATCHERS }
        requires served { N.served opening_published }
        ensures opening { IfOk result (λ made. (made.0.table.shared.key.members ≡ members) × (made.0.table.shared.key.watchers ≡ watchers)) }
        ensures token { IfOk result (λ made. IsWriterSeat made.0.table.shared.table_id made.0.table.shared.key made.1.writer.generation made.1.writer.seat) }
        ensures writer { IfOk result (λ made. IsHanding made.0.table.shared.table_id made.0.table.shared.key (members + watchers) made.1.writer.seat) }
        ensures members { IfOk result (λ made. AreMembersBegun made.0.table.shared.table_id members made.1.members.items) }
        ensures watchers { IfOk result (λ made. AreWatchersBegun made.0.table.shared.table_id watchers made.1.watchers.items) }
    {
        let words = opening_words(alloc, members, TABLE_WORDS as usize)?;
        let opening = Opening { members, watchers };
        let (table, mut seat) = Table::of_words(alloc, words.as_slice(), &opening)?;
        let anchors = PROCESSES as usize * ANCHORS as usize;
        let tokens = hand_out_all(alloc, &table.shared, &mut seat, members, anchors)?;
        let observers = hand_out_watchers(alloc, &table.shared, &mut seat, watchers)?;
        let writer = Writer {
            seat,
            generation: 0,
        };
        let parts = Parts {
            writer,
            members: tokens,
            watchers: observers,
        };
        Ok((Shared { table, members }, parts))
    }
}
