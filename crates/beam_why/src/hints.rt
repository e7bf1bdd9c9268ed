// What was expected where a log breaks a clause. All of it is a hint: contracts speak of the clause alone.
ghost use Rattle.std.specs.Prelude.{All};
ghost use Rattle.server_core.specs.CommandTable.{IsOfText};
ghost use Rattle.script_core.specs.Sound.{IsScript};

use crate::complete::expected_part;
use crate::course::expected_turn;
use crate::expected::Expected;
use crate::finding::Finding;
use crate::generations::{expected_first_turn, expected_later_span, expected_snapshot};
use crate::halves::{expected_half, expected_last_half};
use crate::inquiry::Inquiry;
use crate::lingering::{expected_linger, expected_other_process};
use crate::order::expected_command;
use crate::places::write_place;
use crate::replay::{expected_entry, expected_release};
use crate::seen::expected_export;
use crate::standing::expected_unnamed;
use crate::words::wanted;
use legality::{Breach, Clause, Place};
use run_log::RunLog;
use script_core::Script;
use std::alloc::Global;
use term_core::{ByteList, NoMemory};

/// Appends what stands behind the name of a clause: where it was found broken, and what was expected there.
pub fn write_hint(
    alloc: Global,
    script: &Script,
    log: &RunLog,
    breach: Breach,
    out: &mut ByteList,
) -> Result<(), NoMemory>
    requires script { IsScript script.now }
    requires put { All (λ e. IsOfText e.cmd) log.now.journal }
{
    let mut inquiry = Inquiry::new(alloc)?;
    write_found(alloc, script, log, breach, &mut inquiry, out)
}

/// Appends what an inquiry finds.
fn write_found(
    alloc: Global,
    script: &Script,
    log: &RunLog,
    breach: Breach,
    inquiry: &mut Inquiry,
    out: &mut ByteList,
) -> Result<(), NoMemory>
    requires script { IsScript script.now }
    requires put { All (λ e. IsOfText e.cmd) log.now.journal }
{
    let finding = find(alloc, script, log, breach, inquiry)?;
    write_place(log, finding.at, finding.line, out)?;
    out.extend_from_slice(b"\nexpected ")?;
    out.extend_from_slice(inquiry.expected.words.as_slice())?;
    out.push(b'\n')
}

/// Where a log breaks this clause. What was expected there is said.
fn find(
    alloc: Global,
    script: &Script,
    log: &RunLog,
    breach: Breach,
    inquiry: &mut Inquiry,
) -> Result<Finding, NoMemory>
    requires script { IsScript script.now }
    requires put { All (λ e. IsOfText e.cmd) log.now.journal }
{
    if let Some(finding) = find_more(alloc, script, log, breach, inquiry)? {
        return Ok(finding);
    }
    inquiry.expected.say(wanted(breach.clause))?;
    Ok(Finding::new(breach.at))
}

/// Where a log breaks this clause, if more can be said than the clause asks for.
fn find_more(
    alloc: Global,
    script: &Script,
    log: &RunLog,
    breach: Breach,
    inquiry: &mut Inquiry,
) -> Result<Option<Finding>, NoMemory>
    requires script { IsScript script.now }
    requires put { All (λ e. IsOfText e.cmd) log.now.journal }
{
    let clause = breach.clause;
    match breach.at {
        Place::Whole => in_whole(alloc, script, log, clause, &mut inquiry.expected),
        Place::End => at_end(alloc, script, log, clause, inquiry),
        Place::Entry(place) => at_entry(alloc, script, log, clause, place, inquiry),
        Place::Process(process) | Place::Span { process, .. } => {
            of_process(alloc, script, log, clause, process, inquiry)
        }
        Place::Snapshot { observer, snapshot } => {
            expected_export(alloc, script, log, observer, snapshot, inquiry)
        }
    }
}

/// What needs no run.
fn in_whole(
    alloc: Global,
    script: &Script,
    log: &RunLog,
    clause: Clause,
    expected: &mut Expected,
) -> Result<Option<Finding>, NoMemory>
    requires { IsScript script.now }
{
    match clause {
        Clause::LoadersInOrder => expected_command(alloc, script, log, expected),
        Clause::SpawnBeforeTurns => expected_first_turn(script, log, expected),
        Clause::SnapshotsTrue => expected_snapshot(script, log, expected),
        Clause::TurnsFollow => expected_later_span(log, expected),
        Clause::Complete => expected_part(alloc, script, log, expected),
        _ => Ok(None),
    }
}

/// What still waits behind the last entry.
fn at_end(
    alloc: Global,
    script: &Script,
    log: &RunLog,
    clause: Clause,
    inquiry: &mut Inquiry,
) -> Result<Option<Finding>, NoMemory>
    requires script { IsScript script.now }
    requires put { All (λ e. IsOfText e.cmd) log.now.journal }
{
    match clause {
        Clause::LoadersInOrder => expected_last_half(script, log, &mut inquiry.expected),
        Clause::NothingRetired => Ok(Some(expected_release(alloc, script, log, inquiry)?)),
        _ => Ok(None),
    }
}

/// What a run shows at an entry.
fn at_entry(
    alloc: Global,
    script: &Script,
    log: &RunLog,
    clause: Clause,
    place: usize,
    inquiry: &mut Inquiry,
) -> Result<Option<Finding>, NoMemory>
    requires script { IsScript script.now }
    requires put { All (λ e. IsOfText e.cmd) log.now.journal }
{
    match clause {
        Clause::Replays => Ok(Some(expected_entry(alloc, script, log, place, inquiry)?)),
        Clause::LoadersInOrder => expected_half(script, log, place, &mut inquiry.expected),
        Clause::LingersTold => expected_other_process(log, place, &mut inquiry.expected),
        Clause::ReleasedUnnamed | Clause::PurgedUnnamed => {
            expected_unnamed(alloc, script, log, place, inquiry)
        }
        _ => Ok(None),
    }
}

/// What a run shows of a process.
fn of_process(
    alloc: Global,
    script: &Script,
    log: &RunLog,
    clause: Clause,
    process: usize,
    inquiry: &mut Inquiry,
) -> Result<Option<Finding>, NoMemory>
    requires script { IsScript script.now }
    requires put { All (λ e. IsOfText e.cmd) log.now.journal }
{
    match clause {
        Clause::TurnsFollow => expected_turn(alloc, script, log, process, inquiry),
        Clause::LingersTold => expected_linger(alloc, script, log, process, inquiry),
        _ => Ok(None),
    }
}
