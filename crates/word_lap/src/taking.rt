//! What a scheduler takes out of its inbox.

ghost use Rattle.std.specs.Prelude.{◌≡◌, ◌<◌, true, false, Some, length};
ghost use mathlib.Core.List.{IsPrefix};
ghost use Rattle.shared_words.specs.declared.table.TheConstants.{PROCESSES};
ghost use Rattle.anchors.specs.Holds.{view_of};
ghost use Rattle.word_lap.specs.Schedulers.{IsBetweenTurns, IsToken};
ghost use Rattle.word_lap.specs.Taking.{BelongsNot, HaveCome, IsFreeFor, KeepsOneMore, KeepsWhatCame};

use crate::newcomer::{Newcomer, begin};
use crate::process_run::ProcessRun;
use crate::reporting::catch_up;
use crate::table_name::TableName;
use code_law::{CodeLaw, Naming};
use inbox::{Inbox, InboxNames, Taker};
use progress_words::learn;
use shared_words::{Member, PROCESSES, Shared};
use std::alloc::Global;
use std::sync::Wait;

/// Whether a process of this number is one of the member's, and none stands at its place.
fn belongs(number: u32, member: u32, members: u32, processes: &[Option<ProcessRun>]) -> bool
    requires some { 0 < members }
    requires all { length processes.now ≡ PROCESSES }
    ensures yes { result ≡ true → IsFreeFor number member members processes.now }
    ensures no { result ≡ false → BelongsNot number member members processes.now }
{
    if number >= PROCESSES || number % members != member {
        return false;
    }
    processes[number as usize].is_none()
}

/// A process that belongs here comes to its place: the member reports up to the generation that was the newest when it was spawned, and learns its note. So
/// its first turn is under a generation that reaches its note's.
fn welcome<K: Naming, T: TableName, R: Wait>(
    alloc: Global,
    rt: &R,
    shared: &Shared<CodeLaw<K>>,
    member: &mut Member,
    newcomer: Newcomer<T>,
    processes: &mut [Option<ProcessRun>],
)
    // the newcomer is one of this table's run
    requires table { T.table ≡ Some shared.now.table.shared.table_id }
    // no turn is under way, and each process has a place
    requires token { IsToken shared.now.table.shared.table_id member.old }
    requires between { IsBetweenTurns (view_of member.old) }
    requires some { 0 < shared.now.table.shared.key.members }
    requires all { length processes.old ≡ PROCESSES }
    requires free { IsFreeFor newcomer.number member.old.number shared.now.table.shared.key.members processes.old }
    // no turn is under way still
    ensures token { IsToken shared.now.table.shared.table_id member.new }
    ensures number { member.new.number ≡ member.old.number }
    ensures between { IsBetweenTurns (view_of member.new) }
    ensures all { length processes.new ≡ PROCESSES }
    // what the scheduler keeps of its processes it keeps of the newcomer too
    ensures kept { KeepsOneMore K.names shared.now.table.shared.key (view_of member.old) (view_of member.new) newcomer processes.old processes.new }
    // no process had a turn
    ensures came { HaveCome (view_of member.old) (view_of member.new) processes.old processes.new }
{
    let place = newcomer.number as usize;
    let published = newcomer.published;
    let (run, note) = begin(alloc, newcomer);
    catch_up(rt, shared, member, published);
    learn(shared, member, note);
    processes[place] = Some(run);
}

/// A process comes to its place. One that does not belong here is let go: none such is posted, but no type tells it.
#[tactic(auto, using(crate::proofs::Welcomes::let_go_keeps, crate::proofs::Welcomes::none_come))]
fn take_one<K: Naming, T: TableName, R: Wait>(
    alloc: Global,
    rt: &R,
    shared: &Shared<CodeLaw<K>>,
    member: &mut Member,
    number: u32,
    newcomer: Newcomer<T>,
    processes: &mut [Option<ProcessRun>],
)
    // the inbox is one of this table's run
    requires table { T.table ≡ Some shared.now.table.shared.table_id }
    // no turn is under way, and each process has a place
    requires token { IsToken shared.now.table.shared.table_id member.old }
    requires between { IsBetweenTurns (view_of member.old) }
    requires own { member.old.number ≡ number }
    requires some { 0 < shared.now.table.shared.key.members }
    requires all { length processes.old ≡ PROCESSES }
    // no turn is under way still
    ensures token { IsToken shared.now.table.shared.table_id member.new }
    ensures number { member.new.number ≡ member.old.number }
    ensures between { IsBetweenTurns (view_of member.new) }
    ensures all { length processes.new ≡ PROCESSES }
    // what the scheduler keeps of its processes it keeps of the newcomer too
    ensures kept { KeepsOneMore K.names shared.now.table.shared.key (view_of member.old) (view_of member.new) newcomer processes.old processes.new }
    // no process had a turn
    ensures came { HaveCome (view_of member.old) (view_of member.new) processes.old processes.new }
{
    if belongs(newcomer.number, number, shared.members(), processes) {
        welcome(alloc, rt, shared, member, newcomer, processes);
    }
}

/// Takes processes out of the inbox until it answers that it is empty, and hands that answer out. They take no memory: each has its place.
pub fn take_in<K: Naming, T: TableName, I: InboxNames, R: Wait>(
    alloc: Global,
    rt: &R,
    shared: &Shared<CodeLaw<K>>,
    inbox: &Inbox<Newcomer<T>, I>,
    member: &mut Member,
    taker: &mut Taker<Newcomer<T>, I>,
    processes: &mut [Option<ProcessRun>],
) -> bool
    // the inbox is one of this table's run
    requires table { T.table ≡ Some shared.now.table.shared.table_id }
    requires inbox { taker.old.number ≡ inbox.now }
    // no turn is under way, and each process has a place
    requires token { IsToken shared.now.table.shared.table_id member.old }
    requires own { member.old.number ≡ inbox.now }
    requires between { IsBetweenTurns (view_of member.old) }
    requires some { 0 < shared.now.table.shared.key.members }
    requires all { length processes.old ≡ PROCESSES }
    // no turn is under way still
    ensures token { IsToken shared.now.table.shared.table_id member.new }
    ensures number { member.new.number ≡ member.old.number }
    ensures between { IsBetweenTurns (view_of member.new) }
    ensures all { length processes.new ≡ PROCESSES }
    ensures inbox { taker.new.number ≡ inbox.now }
    // what the scheduler keeps of its processes it keeps of all that it took
    ensures kept { KeepsWhatCame K.names shared.now.table.shared.key (view_of member.old) (view_of member.new) taker.old.taken taker.new.taken processes.old processes.new }
    // no process had a turn
    ensures came { HaveCome (view_of member.old) (view_of member.new) processes.old processes.new }
    // the inbox answered that it is empty: the scheduler took all that it was told of, and it was told of nothing meanwhile
    ensures answer { result ≡ true }
    ensures empty { result ≡ true → IsPrefix taker.new.told taker.new.taken }
    ensures told { taker.new.told ≡ taker.old.told }
{
    let number = inbox.number();
    for _ in rt.forever() {
        let Some(newcomer) = inbox.take(rt, taker) else {
            return true;
        };
        take_one(alloc, rt, shared, member, number, newcomer, processes);
    }
    unreachable!()
}
