//! The end of a process: it names nothing any more, and its slot tells whether an instance killed it.

ghost use Rattle.std.specs.Prelude.{◌≡◌, ◌≤◌};
ghost use Rattle.shared_words.specs.declared.table.TheConstants.{ANCHORS};
ghost use Rattle.anchors.specs.Drops.{AnchorsStored};
ghost use Rattle.anchors.specs.Holds.{IsUnkilled, MayRun, anchors_of, view_of};
ghost use Rattle.word_lap.specs.Laps.{HasClearedAt, HasDroppedAll, HasEndedIn, MayEndBy, TellsOf, killer_of};
ghost use Rattle.word_lap.specs.Schedulers.{IsToken};

use anchors::kill;
use machine_core::End;
use shared_words::{ANCHORS, Member, Served, Shared};
use term_core::AreaRef;

/// An anchor is the serial of an area times this, and then what the area is named for: where it is named for nothing, the anchor tells of a kill.
const SERIAL_UNIT: u64 = 4;

/// The anchor at this place, counted from 1, names nothing any more. One that tells of a kill stays as it is.
#[tactic(auto, using(crate::proofs::Tokens::token_stored, crate::proofs::Clearing::clear_may, crate::proofs::Clearing::cleared_now, crate::proofs::Clearing::cleared_none))]
fn clear_anchor<N: Served>(shared: &Shared<N>, member: &mut Member, process: u32, place: u32)
    requires token { IsToken shared.now.table.shared.table_id member.old }
    requires run { MayRun shared.now.table.shared.key process (view_of member.old) }
    requires first { 1 ≤ place }
    requires last { place ≤ ANCHORS }
    ensures token { IsToken shared.now.table.shared.table_id member.new }
    ensures number { member.new.number ≡ member.old.number }
    ensures cleared { HasClearedAt process place (view_of member.old) (view_of member.new) }
{
    let word = member.anchor(process, place);
    if word % SERIAL_UNIT != 0 {
        shared.store_slot(member, process, place, 0);
    }
}

/// The process names nothing any more. What its slot tells of a kill stays.
pub fn drop_names<N: Served>(shared: &Shared<N>, member: &mut Member, process: u32)
    requires token { IsToken shared.now.table.shared.table_id member.old }
    requires run { MayRun shared.now.table.shared.key process (view_of member.old) }
    ensures token { IsToken shared.now.table.shared.table_id member.new }
    ensures number { member.new.number ≡ member.old.number }
    ensures dropped { HasDroppedAll process (view_of member.old) (view_of member.new) }
{
    for place in 1..ANCHORS + 1 {
        clear_anchor(shared, member, process, place);
    }
}

/// The instance that killed a process which ended so, by its serial.
fn killer(fin: End) -> Option<u64>
    ensures { result ≡ killer_of fin }
{
    match fin {
        End::Killed(serial) => Some(serial),
        _ => None,
    }
}

/// The slot tells of the instance that killed the process, if one did.
#[tactic(auto, using(crate::proofs::Killings::kill_named, crate::proofs::Killings::kill_doomed, crate::proofs::Killings::kill_token, crate::proofs::Killings::kill_stored, crate::proofs::Killings::kill_tells, crate::proofs::Killings::none_stored_at, crate::proofs::Killings::none_tells))]
fn tell_kill<N: Served>(shared: &Shared<N>, member: &mut Member, process: u32, fin: End)
    requires token { IsToken shared.now.table.shared.table_id member.old }
    requires run { MayRun shared.now.table.shared.key process (view_of member.old) }
    requires unkilled { IsUnkilled (anchors_of (view_of member.old) process) }
    requires by { MayEndBy process (view_of member.old) fin }
    ensures token { IsToken shared.now.table.shared.table_id member.new }
    ensures number { member.new.number ≡ member.old.number }
    ensures stored { AnchorsStored process (view_of member.old) (view_of member.new) }
    ensures told { TellsOf process fin (view_of member.new) }
{
    if let Some(serial) = killer(fin) {
        kill(shared, member, process, AreaRef { serial, block: 0 });
    }
}

/// The process has ended so: its slot tells of the instance that killed it, if one did, and names nothing any more.
///
/// Rule: the manual page of the module `code`, on `purge`.
#[tactic(auto, using(crate::proofs::Killings::still_runs, crate::proofs::Killings::ended_so))]
pub fn end_names<N: Served>(shared: &Shared<N>, member: &mut Member, process: u32, fin: End)
    requires token { IsToken shared.now.table.shared.table_id member.old }
    requires run { MayRun shared.now.table.shared.key process (view_of member.old) }
    requires unkilled { IsUnkilled (anchors_of (view_of member.old) process) }
    requires by { MayEndBy process (view_of member.old) fin }
    ensures token { IsToken shared.now.table.shared.table_id member.new }
    ensures number { member.new.number ≡ member.old.number }
    ensures ended { HasEndedIn process fin (view_of member.old) (view_of member.new) }
{
    tell_kill(shared, member, process, fin);
    drop_names(shared, member, process);
}
