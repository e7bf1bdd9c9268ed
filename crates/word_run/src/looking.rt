//! The observers of a run: as it begins, their looks beside the slices of a round, and what they leave at its end.

ghost use Rattle.std.specs.Prelude.{◌≡◌, ◌<◌, ◌≤◌, ℕ, All, length, slice_get, slice_index_or, IfOk, OnOk, Some};
ghost use Rattle.observers.specs.Observing.{Observes};
ghost use Rattle.word_run.specs.declared.onlooker.Onlooker.{Onlooker};
ghost use Rattle.word_run.specs.Onlookers.{AddsLeft, AreWaiting, HadLook, HaveLeft};
ghost use Rattle.word_run.specs.Places.{EachBecame};

use crate::onlooker::Onlooker;
use code_law::{CodeLaw, Naming};
use export_table::ExportTable;
use observers::Observer;
use run_log::{MfaList, ObserverList, SnapshotList};
use shared_words::{Shared, Watcher};
use std::alloc::Global;
use std::thread;
use std::thread::Threads;
use term_core::NoMemory;

/// What the observers of a run leave, each by number: the tokens of their watchers, and what they saw.
#[derive(Drop)]
pub struct Watched {
    pub watchers: Vec<Watcher>,
    pub logs: ObserverList,
}

/// An observer for each of these counts of snapshots, before its first look, with the token of the watcher of its number. Watchers that are left over are
/// not used.
pub fn open_onlookers(
    alloc: Global,
    counts: &[u64],
    watchers: Vec<Watcher>,
) -> Result<Vec<Onlooker>, NoMemory>
    requires { length counts.now ≤ length watchers.items }
    ensures { IfOk result (λ onlookers. AreWaiting counts.now watchers.items onlookers.items) }
{
    let mut onlookers = Vec::new(alloc);
    let mut watchers = watchers.into_iter();
    for count in counts {
        let Some(watcher) = watchers.next() else {
            unreachable!()
        };
        let observer = Observer {
            watcher,
            left: *count,
            shots: SnapshotList::new(alloc),
        };
        onlookers.push(Onlooker {
            observer,
            answer: Ok(()),
        })?;
    }
    Ok(onlookers)
}

/// A look of each of these observers, each in a thread of its own where one can be made. One that has all its snapshots does nothing.
pub fn look_all<K: Naming + Send + Sync, R: Threads + Sync>(
    rt: &R,
    alloc: Global,
    shared: &Shared<CodeLaw<K>>,
    functions: &MfaList,
    exports: &ExportTable,
    onlookers: Vec<Onlooker>,
) -> Vec<Onlooker>
    requires exports { exports.now ≡ K.names }
    requires observe { All (λ onlooker. Observes K.names functions.now shared.now.table.shared.table_id onlooker.observer) onlookers.items }
    ensures { EachBecame (HadLook K.names functions.now shared.now.table.shared.table_id) onlookers.items result.items }
{
    let mut onlookers = onlookers;
    take_looks(rt, alloc, shared, functions, exports, &mut onlookers);
    onlookers
}

/// The same, of those that are lent.
fn take_looks<K: Naming + Send + Sync, R: Threads + Sync>(
    rt: &R,
    alloc: Global,
    shared: &Shared<CodeLaw<K>>,
    functions: &MfaList,
    exports: &ExportTable,
    onlookers: &mut [Onlooker],
)
    requires exports { exports.now ≡ K.names }
    requires observe { All (λ onlooker. Observes K.names functions.now shared.now.table.shared.table_id onlooker.observer) onlookers.old }
    ensures { (k : ℕ) (onlooker : Onlooker) → k < length onlookers.old → HadLook K.names functions.now shared.now.table.shared.table_id (slice_index_or onlookers.old k onlooker) (slice_index_or onlookers.new k onlooker) }
{
    if onlookers.is_empty() {
        return;
    }
    thread::for_each_mut(
        rt,
        onlookers,
        onlookers.len(),
        &|_: usize, onlooker: &mut Onlooker|
            requires exports { exports.now ≡ K.names }
            requires observe { Observes K.names functions.now shared.now.table.shared.table_id onlooker.now.observer }
        { take_look(alloc, shared, functions, exports, onlooker) },
    );
}

/// A look of one observer.
fn take_look<K: Naming>(
    alloc: Global,
    shared: &Shared<CodeLaw<K>>,
    functions: &MfaList,
    exports: &ExportTable,
    onlooker: &mut Onlooker,
)
    requires exports { exports.now ≡ K.names }
    requires observe { Observes K.names functions.now shared.now.table.shared.table_id onlooker.old.observer }
    ensures { HadLook K.names functions.now shared.now.table.shared.table_id onlooker.old onlooker.new }
{
    onlooker.answer = onlooker.observer.look(alloc, shared, functions, exports);
}

/// Each observer takes the snapshots that it lacks, and leaves the token of its watcher and what it saw.
pub fn take_rest<K: Naming>(
    alloc: Global,
    shared: &Shared<CodeLaw<K>>,
    functions: &MfaList,
    exports: &ExportTable,
    onlookers: Vec<Onlooker>,
) -> Result<Watched, NoMemory>
    requires exports { exports.now ≡ K.names }
    requires observe { (k : ℕ) (onlooker : Onlooker) → slice_get onlookers.items k ≡ Some onlooker → Observes K.names functions.now shared.now.table.shared.table_id onlooker.observer }
    ensures { IfOk result (λ watched. HaveLeft K.names functions.now shared.now.table.shared.table_id onlookers.items watched.watchers.items watched.logs) }
{
    let mut watched = Watched {
        watchers: Vec::new(alloc),
        logs: ObserverList::new(alloc),
    };
    for onlooker in onlookers {
        leave(alloc, shared, functions, exports, onlooker, &mut watched)?;
    }
    Ok(watched)
}

/// One observer takes what it lacks, and leaves its token and what it saw.
fn leave<K: Naming>(
    alloc: Global,
    shared: &Shared<CodeLaw<K>>,
    functions: &MfaList,
    exports: &ExportTable,
    onlooker: Onlooker,
    watched: &mut Watched,
) -> Result<(), NoMemory>
    requires exports { exports.now ≡ K.names }
    requires observe { Observes K.names functions.now shared.now.table.shared.table_id onlooker.observer }
    ensures { OnOk result (AddsLeft K.names functions.now shared.now.table.shared.table_id onlooker watched.old.watchers.items watched.new.watchers.items watched.old.logs watched.new.logs) }
{
    let Onlooker {
        mut observer,
        answer: _,
    } = onlooker;
    observer.look_on(alloc, shared, functions, exports)?;
    let Observer { watcher, shots, .. } = observer;
    watched.watchers.push(watcher)?;
    watched.logs.push(shots)?;
    Ok(())
}
