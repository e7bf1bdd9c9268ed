ghost use Rattle.std.specs.Prelude.{◌≡◌, ◌≤◌, ◌↔◌, ℕ, List, length, slice_get, IfOk, IsTrue, Some};
ghost use Rattle.run_log.specs.declared.logs.Snapshot.{Snapshot};
ghost use Rattle.run_log.specs.Snapshots.{AreExports};
ghost use Rattle.run_log.specs.ExportedFunctions.{AreExportedFunctions};
ghost use Rattle.run_log.specs.InstanceTexts.{AreOfTexts};
ghost use Rattle.legality.specs.Observers.{AreShotsJudged, SeesSo};

use crate::breach::Place;
use crate::sweep::Sweep;
use run_log::{ExportList, MfaList, RunLog, Snapshot, SnapshotList, exports_of};
use script_core::Script;
use server_core::Server;
use std::alloc::Global;
use term_core::NoMemory;

/// Looks at the snapshots of the server's generation. Answers whether each is of the exports of that generation.
pub fn see_snapshots(
    alloc: Global,
    script: &Script,
    server: &Server,
    functions: &MfaList,
    observers: &[SnapshotList],
    seen: &mut [usize],
) -> Result<bool, NoMemory>
    requires functions { AreExportedFunctions script.now.names script.now.modules functions.now }
    requires texts { AreOfTexts script.now.modules server.now }
    requires many { length seen.old ≡ length observers.now }
    requires within { (observer count : ℕ) (shots : List Snapshot) → slice_get observers.now observer ≡ Some shots → slice_get seen.old observer ≡ Some count → count ≤ length shots }
    ensures { IfOk result (λ yes. AreShotsJudged script.now.names server.now observers.now seen.old seen.new yes) }
{
    for (observer, shots) in observers.iter().enumerate() {
        if !see(
            alloc,
            script,
            server,
            functions,
            shots.as_slice(),
            &mut seen[observer],
        )? {
            return Ok(false);
        }
    }
    Ok(true)
}

/// Looks at the next snapshots of an observer, as far as they are of the server's generation.
fn see(
    alloc: Global,
    script: &Script,
    server: &Server,
    functions: &MfaList,
    shots: &[Snapshot],
    seen: &mut usize,
) -> Result<bool, NoMemory>
    requires functions { AreExportedFunctions script.now.names script.now.modules functions.now }
    requires texts { AreOfTexts script.now.modules server.now }
    requires within { seen.old ≤ length shots.now }
    ensures { IfOk result (λ yes. SeesSo script.now.names server.now shots.now seen.old seen.new yes) }
{
    let generation = server.generation();
    for place in *seen..shots.len() {
        let shot = &shots[place];
        if shot.generation != generation {
            return Ok(true);
        }
        if !is_true(alloc, script, server, functions, shot)? {
            return Ok(false);
        }
        *seen = place + 1;
    }
    Ok(true)
}

/// Whether the snapshot is of the server's exports.
fn is_true(
    alloc: Global,
    script: &Script,
    server: &Server,
    functions: &MfaList,
    shot: &Snapshot,
) -> Result<bool, NoMemory>
    requires functions { AreExportedFunctions script.now.names script.now.modules functions.now }
    requires texts { AreOfTexts script.now.modules server.now }
    ensures { IfOk result (λ yes. IsTrue yes ↔ AreExports script.now.names server.now shot.now.exports) }
{
    let exports = exports_of(alloc, server, functions)?;
    Ok(are_same(&exports, &shot.exports))
}

/// Whether the two lists are one.
fn are_same(exports: &ExportList, others: &ExportList) -> bool
    ensures { IsTrue result ↔ (exports.now ≡ others.now) }
{
    exports.as_slice() == others.as_slice()
}

/// The first snapshot of the newest generation that was not seen as a true one, where one was found that is not.
pub fn first_unseen(log: &RunLog, sweep: &Sweep) -> Place {
    let generation = sweep.server.generation();
    for (observer, shots) in log.observers.as_slice().iter().enumerate() {
        if let Some(snapshot) = sweep.seen.get(observer) {
            if is_of(shots, *snapshot, generation) {
                return Place::Snapshot {
                    observer,
                    snapshot: *snapshot,
                };
            }
        }
    }
    Place::Whole
}

/// Whether there is a snapshot at the place, and it is of the generation.
fn is_of(shots: &SnapshotList, place: usize, generation: u64) -> bool {
    match shots.get(place) {
        Some(shot) => shot.generation == generation,
        None => false,
    }
}
