//! What of a log's lawfulness can be judged without a run: whether it is complete, its commands in order, its spawns before their turns.

mod commands;
mod completeness;
mod generations;
mod kills;
mod matching;
mod order;
mod same;
mod snapshots;
mod spans;
mod spawns;

ghost use Rattle.std.specs.Prelude.{◌≡◌, IfSome, None};
ghost use Rattle.script_core.specs.Sound.{IsScript};
ghost use Rattle.legality.specs.Breaches.{ClauseHolds};
ghost use Rattle.legality.specs.Shape.{IsShaped};

use crate::breach::Clause;
pub use completeness::is_complete;
pub use kills::{is_killed, killed_serials};
pub use order::has_commands_in_order;
use run_log::RunLog;
use script_core::Script;
pub use snapshots::snapshots_fit;
pub use spans::spans_rise;
pub use spawns::spawns_come_first;

/// The clause that the log breaks in what needs no run, if it breaks one there.
pub fn broken_shape(script: &Script, log: &RunLog) -> Option<Clause>
    requires { IsScript script.now }
    ensures shaped { result ≡ None → IsShaped script.now log.now }
    ensures broken { IfSome result (λ clause. ClauseHolds clause script.now log.now → ⊥) }
{
    if !is_complete(script, log) {
        return Some(Clause::Complete);
    }
    if !has_commands_in_order(script, log) {
        return Some(Clause::LoadersInOrder);
    }
    if !spawns_come_first(script, log) {
        return Some(Clause::SpawnBeforeTurns);
    }
    if !snapshots_fit(script, log) {
        return Some(Clause::SnapshotsTrue);
    }
    if !spans_rise(log) {
        return Some(Clause::TurnsFollow);
    }
    None
}
