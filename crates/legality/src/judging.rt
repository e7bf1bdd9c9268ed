ghost use Rattle.std.specs.Prelude.{◌≡◌, ◌↔◌, ◌<◌, ◌+◌, ◌^◌, Bool, true, None, length, All, IfOk, IfSome, IsTrue};
ghost use Rattle.script_core.specs.declared.script.Script.{Script};
ghost use Rattle.script_core.specs.Sound.{IsScript};
ghost use Rattle.run_log.specs.Legal.{Legal};
ghost use Rattle.legality.specs.Breaches.{ClauseHolds, IsBroken, IsJudged, is_of_linger};
ghost use Rattle.legality.specs.Shape.{IsShaped};
ghost use Rattle.legality.specs.Sweeps.{AreBegun, IsKnown, IsMade, IsSwept, clause_of_spans};

use crate::breach::{Breach, Clause, Place};
use crate::ending::left_over;
use crate::entries::make_entry;
use crate::known::Known;
use crate::observers::{first_unseen, see_snapshots};
use crate::shape::{broken_shape, killed_serials};
use crate::spans::{first_under, take_all_spans, watched_ahead};
use crate::sweep::Sweep;
use run_log::{ProcessLog, RunLog, exported_functions};
use script_core::Script;
use server_core::Server;
use span_check::Standing;
use std::alloc::Global;
use term_core::NoMemory;

/// Whether the log is lawful for the script: a history of one code server.
///
/// It goes over the journal once, with one server. Just after a generation was made, the snapshots of that generation are held
/// against the server's exports, and the turns under it are run; each entry is then asked of the processes as they stand. So it
/// takes time as the log is long, and memory for the server and for each process.
pub fn legal(alloc: Global, script: &Script, log: &RunLog) -> Result<bool, NoMemory>
    requires { IsScript script.now }
    ensures { IfOk result (λ yes. IsTrue yes ↔ Legal script.now log.now) }
{
    let breach = judge(alloc, script, log, true)?;
    Ok(breach.is_none())
}

/// A clause that the log breaks for the script, or none where it is lawful.
///
/// It is the first that is met: before the journal what needs no run, then entry by entry, and just after a generation its snapshots
/// and turns. What soft purges tell of processes that linger comes last, since it is said of turns that follow. The place is where
/// the judge stood. It takes the time and memory of `legal`, and twice that where a turn or a lingering process is in doubt.
pub fn first_breach(
    alloc: Global,
    script: &Script,
    log: &RunLog,
) -> Result<Option<Breach>, NoMemory>
    requires { IsScript script.now }
    ensures lawful { IfOk result (λ breach. breach ≡ None ↔ Legal script.now log.now) }
    ensures broken { IfOk result (λ breach. IfSome breach (λ b. ClauseHolds b.clause script.now log.now → ⊥)) }
{
    let Some(breach) = judge(alloc, script, log, true)? else {
        return Ok(None);
    };
    if !is_of_linger(breach.clause) {
        return Ok(Some(breach));
    }
    Ok(Some(apart(alloc, script, log, breach)?))
}

/// What is broken apart from what soft purges tell of processes that linger, else just that.
fn apart(alloc: Global, script: &Script, log: &RunLog, breach: Breach) -> Result<Breach, NoMemory>
    requires script { IsScript script.now }
    requires broken { IsBroken true script.now log.now breach.clause }
    ensures { IfOk result (λ b. ClauseHolds b.clause script.now log.now → ⊥) }
{
    match judge(alloc, script, log, false)? {
        None => Ok(breach),
        Some(other) => Ok(other),
    }
}

/// Whether the clause is what soft purges tell of processes that linger.
fn is_of_linger(clause: Clause) -> bool
    ensures { result ≡ is_of_linger clause }
{
    matches!(clause, Clause::LingersTold)
}

/// A clause that the log breaks, if it breaks one. Where it is not watched who lingers, that is left out.
fn judge(
    alloc: Global,
    script: &Script,
    log: &RunLog,
    watched: bool,
) -> Result<Option<Breach>, NoMemory>
    requires { IsScript script.now }
    ensures { IfOk result (IsJudged watched script.now log.now) }
{
    if let Some(clause) = broken_shape(script, log) {
        return Ok(Some(Breach {
            clause,
            at: Place::Whole,
        }));
    }
    let known = look_up(alloc, script, log, watched)?;
    let mut sweep = begin(alloc, log)?;
    go_over(alloc, script, log, &known, &mut sweep)
}

/// What is looked up of the script and the log.
fn look_up(alloc: Global, script: &Script, log: &RunLog, watched: bool) -> Result<Known, NoMemory>
    requires { IsScript script.now }
    ensures known { IfOk result (IsKnown script.now log.now) }
    ensures watched { IfOk result (λ known. known.watched ≡ watched) }
{
    Ok(Known {
        functions: exported_functions(alloc, script)?,
        killed: killed_serials(alloc, log)?,
        watched,
    })
}

/// What is known before the first entry.
fn begin(alloc: Global, log: &RunLog) -> Result<Sweep, NoMemory>
    requires arity { All (λ process. length process.args ≡ process.target.arity) log.now.processes }
    requires few { length log.now.processes < 2 ^ 32 }
    ensures { IfOk result (λ sweep. (s : Script) (watched : Bool) → IsMade s log.now watched 0 sweep) }
{
    let server = Server::new(alloc)?;
    let _generation = server.generation();
    Ok(Sweep {
        server,
        half: None,
        standings: stand_first(alloc, log.processes.as_slice())?,
        seen: vec![in alloc; 0; log.observers.len()]?,
    })
}

/// Where each process stands before its first turn.
fn stand_first(alloc: Global, processes: &[ProcessLog]) -> Result<Vec<Standing>, NoMemory>
    requires arity { All (λ process. length process.args ≡ process.target.arity) processes.now }
    requires few { length processes.now < 2 ^ 32 }
    ensures { IfOk result (λ standings. AreBegun processes.now (length processes.now) standings.items) }
{
    let mut standings = Vec::new(alloc);
    for (number, process) in processes.iter().enumerate() {
        standings.push(Standing::new(alloc, number as u32, process)?)?;
    }
    Ok(standings)
}

/// Goes over the journal.
fn go_over(
    alloc: Global,
    script: &Script,
    log: &RunLog,
    known: &Known,
    sweep: &mut Sweep,
) -> Result<Option<Breach>, NoMemory>
    requires script { IsScript script.now }
    requires shaped { IsShaped script.now log.now }
    requires known { IsKnown script.now log.now known.now }
    requires made { IsMade script.now log.now known.now.watched 0 sweep.old }
    ensures { IfOk result (IsJudged known.now.watched script.now log.now) }
{
    if let Some(breach) = take_generation(alloc, script, log, known, 0, sweep)? {
        return Ok(Some(breach));
    }
    take_journal(alloc, script, log, known, sweep)
}

/// Judges the entries, with the generations that they make.
fn take_journal(
    alloc: Global,
    script: &Script,
    log: &RunLog,
    known: &Known,
    sweep: &mut Sweep,
) -> Result<Option<Breach>, NoMemory>
    requires script { IsScript script.now }
    requires shaped { IsShaped script.now log.now }
    requires known { IsKnown script.now log.now known.now }
    requires swept { IsSwept script.now log.now known.now.watched 0 sweep.old }
    ensures { IfOk result (IsJudged known.now.watched script.now log.now) }
{
    for place in 0..log.journal.len() {
        if let Some(breach) = take_entry(alloc, script, log, known, place, sweep)? {
            return Ok(Some(breach));
        }
    }
    Ok(left_over(sweep))
}

/// Judges the entry at a place, and the generation that it makes, if it makes one.
fn take_entry(
    alloc: Global,
    script: &Script,
    log: &RunLog,
    known: &Known,
    place: usize,
    sweep: &mut Sweep,
) -> Result<Option<Breach>, NoMemory>
    requires script { IsScript script.now }
    requires shaped { IsShaped script.now log.now }
    requires known { IsKnown script.now log.now known.now }
    requires swept { IsSwept script.now log.now known.now.watched place sweep.old }
    requires there { place < length log.now.journal }
    ensures on { IfOk result (λ breach. breach ≡ None → IsSwept script.now log.now known.now.watched (place + 1) sweep.new) }
    ensures off { IfOk result (λ breach. IfSome breach (λ b. IsBroken known.now.watched script.now log.now b.clause)) }
{
    if let Some(clause) = make_entry(script, log, known, place, sweep)? {
        return Ok(Some(Breach {
            clause,
            at: Place::Entry(place),
        }));
    }
    if log.journal.as_slice()[place].published.is_none() {
        return Ok(None);
    }
    take_generation(alloc, script, log, known, place + 1, sweep)
}

/// Judges the snapshots and the turns of the generation that was just made, before the entry at a place.
fn take_generation(
    alloc: Global,
    script: &Script,
    log: &RunLog,
    known: &Known,
    place: usize,
    sweep: &mut Sweep,
) -> Result<Option<Breach>, NoMemory>
    requires script { IsScript script.now }
    requires shaped { IsShaped script.now log.now }
    requires known { IsKnown script.now log.now known.now }
    requires made { IsMade script.now log.now known.now.watched place sweep.old }
    ensures on { IfOk result (λ breach. breach ≡ None → IsSwept script.now log.now known.now.watched place sweep.new) }
    ensures off { IfOk result (λ breach. IfSome breach (λ b. IsBroken known.now.watched script.now log.now b.clause)) }
{
    if !see_snapshots(
        alloc,
        script,
        &sweep.server,
        &known.functions,
        log.observers.as_slice(),
        &mut sweep.seen,
    )? {
        return Ok(Some(Breach {
            clause: Clause::SnapshotsTrue,
            at: first_unseen(log, sweep),
        }));
    }
    let ahead = watched_ahead(known.watched, log.journal.as_slice(), place);
    match take_all_spans(
        alloc,
        &sweep.server,
        ahead,
        log.processes.as_slice(),
        &mut sweep.standings,
    )? {
        None => Ok(None),
        Some(number) => Ok(Some(Breach {
            clause: clause_of_spans(known.watched),
            at: first_under(log, number, sweep.server.generation()),
        })),
    }
}

/// The clause that refused spans break.
fn clause_of_spans(watched: bool) -> Clause
    ensures { result ≡ clause_of_spans watched }
{
    if watched {
        Clause::LingersTold
    } else {
        Clause::TurnsFollow
    }
}
