ghost use Rattle.std.specs.Prelude.{◌≡◌, ◌||◌, ℕ, ◌+◌, ◌<◌, ◌≤◌, drop, length, true, false, IfOk};
ghost use Rattle.std.specs.List.{AllByRecursion};
ghost use Rattle.server_core.specs.ServerState.{ServerState};
ghost use Rattle.machine_core.specs.Holds.{is_among};
ghost use Rattle.machine_core.specs.Process.{Words, names_of, process_of};
ghost use Rattle.span_check.specs.Standings.{HasItsNames, IsReached, IsReady, MayGoOn, NeverFall, StandsAt};
ghost use Rattle.span_check.specs.Sweeps.{IsMoved, IsRefused, IsTaken, end_at, spans_from};
ghost use Rattle.span_check.specs.Watches.{AreInOrder, AreLater};

use crate::named::{Named, is_among, names_of};
use crate::spans::{count_under, take_all};
use crate::watch::{Watch, are_from, look};
use machine_core::{End, Process};
use run_log::ProcessLog;
use server_core::Server;
use std::alloc::Global;
use term_core::NoMemory;

/// How far the log of a process was judged.
#[derive(Debug, Drop)]
pub struct Standing {
    /// The process after the spans that are gone.
    pub process: Process,
    /// How many spans are gone.
    pub gone: usize,
    /// Whether the last turn that is gone ended the process.
    pub ended: bool,
    /// What the process names.
    pub named: Named,
}

impl Standing {
    /// A log of which nothing was judged. It takes memory for the process.
    pub fn new(alloc: Global, number: u32, log: &ProcessLog) -> Result<Standing, NoMemory>
        requires { length log.now.args ≡ log.now.target.arity }
        ensures stands { IfOk result (λ standing. (states : ℕ → ServerState) (words : Words) → StandsAt states words number log.now standing) }
        ensures reached { IfOk result (λ standing. (generation : ℕ) → AllByRecursion (λ span. generation ≤ span.generation) log.now.spans → IsReached generation log.now standing) }
        ensures ready { IfOk result (λ standing. (s : ServerState) → IsReady s standing) }
        ensures named { IfOk result HasItsNames }
    {
        let args = log.args.copy(alloc)?;
        let process = Process::new(alloc, number, log.target, args)?;
        let named = names_of(alloc, process.frames.as_slice())?;
        Ok(Standing {
            process,
            gone: 0,
            ended: false,
            named,
        })
    }

    /// Whether a frame of the process is of this instance.
    pub fn stands_in(&self, serial: u64) -> bool
        requires { HasItsNames self.now }
        ensures { (words : Words) → result ≡ is_among (names_of (process_of words self.now.process)).frames serial }
    {
        is_among(self.named.frames.as_slice(), serial)
    }

    /// Whether the process names this area: a frame is of the instance, or a register holds a literal of the area.
    pub fn names(&self, serial: u64) -> bool
        requires { HasItsNames self.now }
        ensures { (words : Words) → result ≡ (is_among (names_of (process_of words self.now.process)).frames serial || is_among (names_of (process_of words self.now.process)).literals serial) }
    {
        self.stands_in(serial) || is_among(self.named.literals.as_slice(), serial)
    }
}

/// Takes the next spans of a log, as far as they are under the server's generation, and judges the watches of its process that were
/// told when so many generations were published.
///
/// The server is just after the publication of its generation. After `NoMemory` the standing is only dropped.
pub fn take_spans(
    alloc: Global,
    server: &Server,
    log: &ProcessLog,
    watches: &[Watch],
    standing: &mut Standing,
) -> Result<bool, NoMemory>
    requires falls { NeverFall log.now.spans }
    requires reached { IsReached server.now.generation log.now standing.old }
    requires ready { IsReady server.now standing.old }
    requires named { HasItsNames standing.old }
    requires order { AreInOrder watches.now }
    // True: the log was judged up to the next generation, and what was told is so.
    ensures taken { IfOk result (λ yes. yes ≡ true → IsTaken server.now log.now watches.now standing.old standing.new) }
    // False: the turns do not follow as the log tells, or not all that was told is so.
    ensures refused { IfOk result (λ yes. yes ≡ false → IsRefused server.now log.now watches.now standing.old) }
{
    if standing.ended {
        return Ok(watches.is_empty());
    }
    let mut told = 0;
    if !are_from(watches, standing.process.turns) {
        return Ok(false);
    }
    if !look(&standing.process, watches, &mut told) {
        return Ok(false);
    }
    let here = count_under(&log.spans.as_slice()[standing.gone..], server.generation());
    if here == 0 {
        return Ok(told == watches.len());
    }
    if !move_on(alloc, server, log, here, watches, &mut told, standing)? {
        return Ok(false);
    }
    Ok(told == watches.len())
}

/// Takes so many spans of a log, and keeps what its process then names.
fn move_on(
    alloc: Global,
    server: &Server,
    log: &ProcessLog,
    here: usize,
    watches: &[Watch],
    told: &mut usize,
    standing: &mut Standing,
) -> Result<bool, NoMemory>
    requires some { 0 < here }
    requires room { standing.old.gone + here ≤ length log.now.spans }
    requires here { AllByRecursion (λ span. span.generation ≡ server.now.generation) (spans_from log.now standing.old.gone here) }
    requires ready { MayGoOn server.now standing.old.process }
    requires within { told.old ≤ length watches.now }
    requires order { AreInOrder watches.now }
    requires later { AreLater standing.old.process.turns (drop told.old watches.now) }
    ensures moved { IfOk result (IsMoved server.now log.now here standing.old standing.new (drop told.old watches.now) (drop told.new watches.now)) }
    ensures within { IfOk result (λ _. told.new ≤ length watches.now) }
{
    let spans = log.spans.as_slice();
    let to = standing.gone + here;
    let fin = end_at(log, to);
    let taken = take_all(
        alloc,
        server,
        &spans[standing.gone..to],
        fin,
        &mut standing.process,
        watches,
        told,
    )?;
    standing.gone = to;
    standing.ended = fin.is_some();
    standing.named = names_of(alloc, standing.process.frames.as_slice())?;
    Ok(taken)
}

/// The end of the process, where this place is the end of its log.
fn end_at(log: &ProcessLog, place: usize) -> Option<End>
    ensures { result ≡ end_at log.now place }
{
    if place == log.spans.len() {
        return Some(log.fin);
    }
    None
}
