ghost use Rattle.std.specs.Prelude.{◌≡◌};
ghost use Rattle.beam_why.specs.Why.{clause_name};

use legality::Clause;

/// The name of a clause, as the definition of a lawful log has it.
pub fn name_of(clause: Clause) -> &'static [u8]
    ensures { result.now ≡ clause_name clause }
{
    match clause {
        Clause::Replays => b"Replays".as_slice(),
        Clause::LoadersInOrder => b"LoadersInOrder".as_slice(),
        Clause::SpawnBeforeTurns => b"SpawnBeforeTurns".as_slice(),
        Clause::TurnsFollow => b"TurnsFollow".as_slice(),
        Clause::ReleasedUnnamed => b"ReleasedUnnamed".as_slice(),
        Clause::LingersTold => b"LingersTold".as_slice(),
        Clause::PurgedUnnamed => b"PurgedUnnamed".as_slice(),
        Clause::SnapshotsTrue => b"SnapshotsTrue".as_slice(),
        Clause::NothingRetired => b"NothingRetired".as_slice(),
        Clause::Complete => b"Complete".as_slice(),
    }
}

/// What the clause asks for, in words.
pub fn wanted(clause: Clause) -> &'static [u8] {
    match clause {
        Clause::Replays => {
            b"the reply and the generation that the command has here, a release by the runtime alone, and nothing where there is no such area to release".as_slice()
        }
        Clause::LoadersInOrder => {
            b"the commands of each loader in the order of the script and all of them, a purge over old code as a doom and then a purge".as_slice()
        }
        Clause::SpawnBeforeTurns => {
            b"the first turn of each process under a generation that was published when it was spawned, or a later one".as_slice()
        }
        Clause::TurnsFollow => {
            b"the turns that the process has under this generation, with just the lines that they make and the end that they have, and no older generation behind".as_slice()
        }
        Clause::ReleasedUnnamed => {
            b"that no process names the area where it is released".as_slice()
        }
        Clause::LingersTold => {
            b"a process that stands in the old code after the turn that the soft purge tells".as_slice()
        }
        Clause::PurgedUnnamed => {
            b"that no process stands in the code that is dropped, and that a purge tells whether it killed one".as_slice()
        }
        Clause::SnapshotsTrue => {
            b"the exports of the generation, as many snapshots as the observer's line says, and no older generation behind".as_slice()
        }
        Clause::NothingRetired => { b"a release of each area that was retired".as_slice() }
        Clause::Complete => {
            b"a log with a turn for each spawned process and no other, the snapshots of each observer, and published generations alone".as_slice()
        }
    }
}
