// What still waits after the last entry.
ghost use Rattle.std.specs.Prelude.{◌≡◌, ◌↔◌, true, [], None, All, IfSome, IsTrue};
ghost use Rattle.legality.specs.Sweeps.{HasEnded, IsLeft};

use crate::breach::{Breach, Clause, Place};
use crate::sweep::Sweep;
use span_check::Standing;

/// The clause that is broken where something still waits after the last entry.
pub fn left_over(sweep: &Sweep) -> Option<Breach>
    ensures none { result ≡ None → HasEnded sweep.now }
    ensures some { IfSome result (λ b. IsLeft sweep.now b.clause) }
{
    if !is_none_waiting(sweep) {
        return Some(Breach {
            clause: Clause::LoadersInOrder,
            at: Place::End,
        });
    }
    if !is_all_released(sweep) {
        return Some(Breach {
            clause: Clause::NothingRetired,
            at: Place::End,
        });
    }
    if !have_ended(&sweep.standings) {
        return Some(Breach {
            clause: Clause::TurnsFollow,
            at: first_going(&sweep.standings),
        });
    }
    None
}

/// Whether no purge waits.
fn is_none_waiting(sweep: &Sweep) -> bool
    ensures { IsTrue result ↔ (sweep.now.half ≡ None) }
{
    sweep.half.is_none()
}

/// Whether no area waits for its release.
fn is_all_released(sweep: &Sweep) -> bool
    ensures { IsTrue result ↔ (sweep.now.server.retired ≡ []) }
{
    sweep.server.oldest_retired().is_none()
}

/// Whether each process has ended.
fn have_ended(standings: &[Standing]) -> bool
    ensures { IsTrue result ↔ All (λ standing. standing.ended ≡ true) standings.now }
{
    standings.iter().all(|standing| standing.ended)
}

/// The first process that has not ended, if there is one.
fn first_going(standings: &[Standing]) -> Place {
    for (number, standing) in standings.iter().enumerate() {
        if !standing.ended {
            return Place::Process(number);
        }
    }
    Place::Whole
}
