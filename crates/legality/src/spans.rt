ghost use Rattle.std.specs.Prelude.{◌≡◌, ◌<◌, ◌≤◌, ◌^◌, ℕ, length, slice_get, is_none, IfOk, Some};
ghost use Rattle.run_log.specs.declared.logs.ProcessLog.{ProcessLog};
ghost use Rattle.span_check.specs.declared.standing.Standing.{Standing};
ghost use Rattle.legality.specs.Sweeps.{AreSpansJudged, MayBeTaken, stretch, watched_ahead};

use crate::breach::Place;
use crate::watches::watches_of;
use run_log::{Entry, ProcessLog, RunLog};
use server_core::Server;
use span_check::{Standing, take_spans};
use std::alloc::Global;
use term_core::NoMemory;

/// The entries up to the one that makes the next generation, that one with them.
pub fn stretch(journal: &[Entry]) -> &[Entry]
    ensures { result.now ≡ stretch journal.now }
{
    for (place, entry) in journal.iter().enumerate() {
        if entry.published.is_some() {
            return &journal[..place + 1];
        }
    }
    journal
}

/// The entries from a place on that tell of processes in the newest generation, where it is watched what they tell.
pub fn watched_ahead(watched: bool, journal: &[Entry], place: usize) -> &[Entry]
    requires { place ≤ length journal.now }
    ensures { result.now ≡ watched_ahead watched place journal.now }
{
    if !watched {
        return &[];
    }
    stretch(&journal[place..])
}

/// Takes the spans of each process under the server's generation. Answers for which process they are not its turns, or what the
/// entries ahead tell of it is not so, if there is one.
pub fn take_all_spans(
    alloc: Global,
    server: &Server,
    ahead: &[Entry],
    processes: &[ProcessLog],
    standings: &mut [Standing],
) -> Result<Option<usize>, NoMemory>
    requires many { length standings.old ≡ length processes.now }
    requires few { length processes.now < 2 ^ 32 }
    requires each { (number : ℕ) (process : ProcessLog) (standing : Standing) → slice_get processes.now number ≡ Some process → slice_get standings.old number ≡ Some standing → MayBeTaken server.now process standing }
    ensures { IfOk result (λ refused. AreSpansJudged server.now ahead.now processes.now standings.old standings.new (is_none refused)) }
{
    for (number, process) in processes.iter().enumerate() {
        let watches = watches_of(alloc, server, number as u32, ahead)?;
        let standing = &mut standings[number];
        if !take_spans(alloc, server, process, watches.as_slice(), standing)? {
            return Ok(Some(number));
        }
    }
    Ok(None)
}

/// The first span of a process under a generation or a later one, as the place where its spans under the generation begin.
pub fn first_under(log: &RunLog, number: usize, generation: u64) -> Place {
    let Some(process) = log.processes.get(number) else {
        return Place::Whole;
    };
    let spans = process.spans.as_slice();
    let earlier = spans
        .iter()
        .take_while(|span| span.generation < generation)
        .count();
    Place::Span {
        process: number,
        span: earlier,
    }
}
