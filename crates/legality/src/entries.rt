ghost use Rattle.std.specs.Prelude.{◌≡◌, ◌<◌, ◌↔◌, true, false, length, None, IfOk, IfSome, IsTrue};
ghost use Rattle.server_core.specs.CommandTable.{AreTexts, IsOfText};
ghost use Rattle.script_core.specs.Sound.{IsScript};
ghost use Rattle.run_log.specs.Legal.{EntryFollows, is_release, is_runtime};
ghost use Rattle.legality.specs.Breaches.{IsBroken};
ghost use Rattle.legality.specs.Shape.{IsShaped};
ghost use Rattle.legality.specs.Sweeps.{AfterPlace, HasFollowed, IsKnown, IsSwept, told_by};

use crate::breach::Clause;
use crate::halves::{half_after, may_stand};
use crate::known::Known;
use crate::looks::is_told;
use crate::replies::is_same_reply;
use crate::sweep::Sweep;
use mod_core::ModuleList;
use run_log::{Entry, RunLog, Who};
use script_core::Script;
use server_core::{Applied, ApplyFault, Cmd, Server};
use term_core::NoMemory;

/// Makes the next entry of the journal. Answers the clause that it breaks beside those before it, if it breaks one.
pub fn make_entry(
    script: &Script,
    log: &RunLog,
    known: &Known,
    place: usize,
    sweep: &mut Sweep,
) -> Result<Option<Clause>, NoMemory>
    requires script { IsScript script.now }
    requires shaped { IsShaped script.now log.now }
    requires known { IsKnown script.now log.now known.now }
    requires swept { IsSwept script.now log.now known.now.watched place sweep.old }
    requires there { place < length log.now.journal }
    ensures on { IfOk result (λ broken. broken ≡ None → AfterPlace script.now log.now known.now.watched place sweep.new) }
    ensures off { IfOk result (λ broken. IfSome broken (IsBroken known.now.watched script.now log.now)) }
{
    let entry = &log.journal.as_slice()[place];
    if !is_by_whom(entry) {
        return Ok(Some(Clause::Replays));
    }
    if !may_stand(&sweep.server, sweep.half, entry) {
        return Ok(Some(Clause::LoadersInOrder));
    }
    if !is_told(
        &sweep.server,
        &sweep.standings,
        &log.processes,
        &known.killed,
        &entry.cmd,
    ) {
        return Ok(Some(told_by(&entry.cmd)));
    }
    if !follow(entry, &script.modules, &mut sweep.server)? {
        return Ok(Some(Clause::Replays));
    }
    sweep.half = half_after(sweep.half, entry);
    Ok(None)
}

/// The clause that an entry breaks where what its command tells of the processes is not so.
fn told_by(cmd: &Cmd) -> Clause
    ensures { result ≡ told_by cmd.now }
{
    match cmd {
        Cmd::SoftPurge {
            lingers: Some(_),
            ..
        } => Clause::LingersTold,
        Cmd::Release(_) => Clause::ReleasedUnnamed,
        _ => Clause::PurgedUnnamed,
    }
}

/// Whether the entry is made by whom it may be: the runtime makes releases, and nobody else does.
fn is_by_whom(entry: &Entry) -> bool
    ensures { IsTrue result ↔ (is_runtime entry.now.who ≡ is_release entry.now.cmd) }
{
    is_runtime(entry.who) == is_release(&entry.cmd)
}

/// Whether it is the runtime.
fn is_runtime(who: Who) -> bool
    ensures { result ≡ is_runtime who }
{
    matches!(who, Who::Runtime)
}

/// Whether the command is a release.
fn is_release(cmd: &Cmd) -> bool
    ensures { result ≡ is_release cmd.now }
{
    matches!(cmd, Cmd::Release(_))
}

/// Makes the command of an entry on the server. Answers whether it gives what the entry tells.
fn follow(entry: &Entry, texts: &ModuleList, server: &mut Server) -> Result<bool, NoMemory>
    requires texts { AreTexts texts.now }
    requires put { IsOfText entry.now.cmd }
    requires by_whom { is_runtime entry.now.who ≡ is_release entry.now.cmd }
    ensures on { IfOk result (λ yes. yes ≡ true → HasFollowed texts.now server.old server.new entry.now) }
    ensures off { IfOk result (λ yes. yes ≡ false → EntryFollows texts.now server.old entry.now → ⊥) }
{
    match server.apply(&entry.cmd, texts) {
        Ok(applied) => Ok(is_answer(&applied, entry)),
        Err(ApplyFault::NotEnabled) => Ok(false),
        Err(ApplyFault::NoMemory) => Err(NoMemory),
    }
}

/// Whether this is the reply of the entry, and the generation.
fn is_answer(applied: &Applied, entry: &Entry) -> bool
    ensures { IsTrue result ↔ (applied.now ≡ record { reply = entry.now.reply; published = entry.now.published }) }
{
    is_same_reply(&applied.reply, &entry.reply) && applied.published == entry.published
}
