//! A turn of a process over the words that all threads share.

ghost use Rattle.std.specs.Prelude.{IfOk};
ghost use Rattle.shared_words.specs.Processes.{AreCopied, held_by_view};
ghost use Rattle.shared_words.specs.Seats.{IsMemberSeat};
ghost use Rattle.anchors.specs.Holds.{anchors_of, view_of};
ghost use Rattle.machine_core.specs.Turn.{MayTurn};
ghost use Rattle.machine_core.specs.View.{IsLawful};
ghost use Rattle.word_view.specs.Anchored.{holds_by};
ghost use Rattle.word_view.specs.Turned.{HasTurned, IsTurn};
ghost use Rattle.word_view.specs.Views.{HasGoneOn, IsFrom, IsReading, IsView, MayBegin, held_of_view, shown_by, shown_of_view};

use crate::began::Began;
use crate::view::WordView;
use export_table::ExportTable;
use machine_core::{LineList, Process, TurnEnd, turn};
use shared_words::{Member, Served, Shared};
use std::alloc::Global;
use std::marker::Brand;
use term_core::NoMemory;

/// A turn over a view, which is then taken apart.
fn turn_over<N: Served, K: Began>(
    alloc: Global,
    view: WordView<N, K>,
    process: &mut Process,
    lines: &mut LineList,
) -> (Member, Result<TurnEnd, NoMemory>)
    requires lawful { IsLawful (shown_of_view view) }
    requires ready { MayTurn (shown_of_view view) (held_of_view view) process.old }
    ensures { HasTurned K.began (shown_of_view view.entry) result.0 result.1 process.old process.new lines.old lines.new }
{
    let mut view = view;
    let end = turn(alloc, process, &mut view, lines);
    (view.into_member(), end)
}

/// A turn over the view that begins with this member.
fn begin_turn<N: Served, K: Began>(
    alloc: Global,
    shared: &Shared<N>,
    member: Member,
    exports: &ExportTable,
    number: u32,
    process: &mut Process,
    lines: &mut LineList,
) -> (Member, Result<TurnEnd, NoMemory>)
    requires token { IsMemberSeat shared.now.table.shared.table_id member.number member.seat }
    requires copied { AreCopied member.anchors.items (view_of member) }
    requires reading { IsReading member.root (view_of member) }
    requires begun { MayBegin exports.now shared.now.table.shared.key number (view_of member) }
    requires ready { MayTurn (shown_by exports.now (held_by_view (view_of member))) (holds_by (anchors_of (view_of member) number)) process.old }
    requires from { IsFrom K.began (record { table = shared.now.table.shared.table_id; opening = shared.now.table.shared.key; token = member; names = exports.now; process = number }) }
    ensures { HasTurned K.began (shown_by exports.now (held_by_view (view_of member))) result.0 result.1 process.old process.new lines.old lines.new }
{
    let view = WordView::<N, K>::new(shared, member, exports, number);
    turn_over(alloc, view, process, lines)
}

/// One turn of the process of this number, under the generation that its member holds, over the shared words. It
/// takes memory for what the turn makes.
///
/// The member comes back, also after `NoMemory`. It has read words and stored anchors of this process, and
/// else knows what it knew.
/// Rule: Erlang/OTP erts internal documentation, CodeLoading; a turn sees one generation.
pub fn turn_of<N: Served>(
    alloc: Global,
    shared: &Shared<N>,
    member: Member,
    exports: &ExportTable,
    number: u32,
    process: &mut Process,
    lines: &mut LineList,
) -> (Member, Result<TurnEnd, NoMemory>)
    requires token { IsMemberSeat shared.now.table.shared.table_id member.number member.seat }
    requires copied { AreCopied member.anchors.items (view_of member) }
    requires reading { IsReading member.root (view_of member) }
    requires begun { MayBegin exports.now shared.now.table.shared.key number (view_of member) }
    requires ready { MayTurn (shown_by exports.now (held_by_view (view_of member))) (holds_by (anchors_of (view_of member) number)) process.old }
    ensures turn { IfOk result.1 (IsTurn (shown_by exports.now (held_by_view (view_of member))) (holds_by (anchors_of (view_of result.0) number)) process.old process.new lines.old lines.new) }
    ensures view { IsView (record { table = shared.now.table.shared.table_id; opening = shared.now.table.shared.key; token = result.0; names = exports.now; process = number }) }
    ensures gone { HasGoneOn (record { table = shared.now.table.shared.table_id; opening = shared.now.table.shared.key; token = member; names = exports.now; process = number }) (record { table = shared.now.table.shared.table_id; opening = shared.now.table.shared.key; token = result.0; names = exports.now; process = number }) }
{
    begin_turn::<N, Brand>(alloc, shared, member, exports, number, process, lines)
}
