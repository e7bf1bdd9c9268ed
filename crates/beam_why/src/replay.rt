// The journal made again on a server, and what an entry should have answered.
ghost use Rattle.std.specs.Prelude.{All, IfOk};
ghost use Rattle.server_core.specs.CommandTable.{AreTexts, IsOfText};
ghost use Rattle.machine_core.specs.LaterStates.{HasAreas};

use crate::expected::Expected;
use crate::finding::Finding;
use crate::inquiry::Inquiry;
use crate::shown::say_answer;
use legality::Place;
use mod_core::ModuleList;
use run_log::{Entry, EntryList, RunLog, Who};
use script_core::Script;
use server_core::{ApplyFault, Cmd, Server};
use std::alloc::Global;
use term_core::NoMemory;

/// A server that makes the commands of a journal, one after the other.
#[derive(Drop)]
pub struct Replay {
    pub server: Server,
    /// How many entries were made.
    made: usize,
}

impl Replay {
    /// A server that has made nothing yet.
    pub fn new(alloc: Global) -> Result<Replay, NoMemory> {
        let server = Server::new(alloc)?;
        Ok(Replay { server, made: 0 })
    }

    /// Begins anew, with a server that has made nothing yet.
    pub fn restart(&mut self, alloc: Global) -> Result<(), NoMemory> {
        self.server = Server::new(alloc)?;
        self.made = 0;
        Ok(())
    }

    /// Makes the next entry, if there is one. Where its command can not be made there, the server stays.
    pub fn step(&mut self, journal: &EntryList, texts: &ModuleList) -> Result<(), NoMemory>
        requires texts { AreTexts texts.now }
        requires put { All (λ e. IsOfText e.cmd) journal.now }
        ensures { IfOk result (λ _. HasAreas self.old.server self.new.server) }
    {
        let Some(entry) = journal.get(self.made) else {
            return Ok(());
        };
        self.made = self.made.saturating_add(1);
        make(&mut self.server, &entry.cmd, texts)
    }

    /// Makes the entries before a place, from the first on.
    pub fn make_before(
        &mut self,
        alloc: Global,
        place: usize,
        journal: &EntryList,
        texts: &ModuleList,
    ) -> Result<(), NoMemory>
        requires texts { AreTexts texts.now }
        requires put { All (λ e. IsOfText e.cmd) journal.now }
    {
        self.restart(alloc)?;
        for _ in 0..place {
            self.step(journal, texts)?;
        }
        Ok(())
    }

    /// Makes more entries until this generation is published.
    pub fn make_generation(
        &mut self,
        generation: u64,
        journal: &EntryList,
        texts: &ModuleList,
    ) -> Result<(), NoMemory>
        requires texts { AreTexts texts.now }
        requires put { All (λ e. IsOfText e.cmd) journal.now }
        ensures { IfOk result (λ _. HasAreas self.old.server self.new.server) }
    {
        for _ in 0..journal.len() {
            if self.server.generation() >= generation {
                return Ok(());
            }
            self.step(journal, texts)?;
        }
        Ok(())
    }
}

/// Makes a command, where it can be made.
fn make(server: &mut Server, cmd: &Cmd, texts: &ModuleList) -> Result<(), NoMemory>
    requires texts { AreTexts texts.now }
    requires put { IsOfText cmd.now }
    ensures { IfOk result (λ _. HasAreas server.old server.new) }
{
    // A server is sound, which is known once it is read.
    let _generation = server.generation();
    match server.apply(cmd, texts) {
        Ok(_answer) => Ok(()),
        Err(ApplyFault::NotEnabled) => Ok(()),
        Err(ApplyFault::NoMemory) => Err(NoMemory),
    }
}

/// What was expected in the place of an entry that does not follow.
pub fn expected_entry(
    alloc: Global,
    script: &Script,
    log: &RunLog,
    place: usize,
    inquiry: &mut Inquiry,
) -> Result<Finding, NoMemory>
    requires texts { AreTexts script.now.modules }
    requires put { All (λ e. IsOfText e.cmd) log.now.journal }
{
    match log.journal.get(place) {
        Some(entry) => say_entry(alloc, script, log, place, entry, inquiry)?,
        None => inquiry.expected.say(b"another entry")?,
    }
    Ok(Finding::new(Place::Entry(place)))
}

/// Says what was expected in the place of this entry.
fn say_entry(
    alloc: Global,
    script: &Script,
    log: &RunLog,
    place: usize,
    entry: &Entry,
    inquiry: &mut Inquiry,
) -> Result<(), NoMemory>
    requires texts { AreTexts script.now.modules }
    requires put { All (λ e. IsOfText e.cmd) log.now.journal }
    requires said { IsOfText entry.now.cmd }
{
    if let Some(words) = misplaced_words(entry) {
        return inquiry.expected.say(words);
    }
    if say_answer_at(alloc, script, log, place, &entry.cmd, inquiry)? {
        return Ok(());
    }
    inquiry.expected.say(impossible_words(&entry.cmd))
}

/// Says what a command answers in the place of an entry, if it can be made there. Answers whether it can.
pub fn say_answer_at(
    alloc: Global,
    script: &Script,
    log: &RunLog,
    place: usize,
    cmd: &Cmd,
    inquiry: &mut Inquiry,
) -> Result<bool, NoMemory>
    requires texts { AreTexts script.now.modules }
    requires put { All (λ e. IsOfText e.cmd) log.now.journal }
    requires said { IsOfText cmd.now }
{
    let replay = &mut inquiry.replay;
    replay.make_before(alloc, place, &log.journal, &script.modules)?;
    match replay.server.apply(cmd, &script.modules) {
        Ok(answer) => {
            say_answer(alloc, &script.names, answer, &mut inquiry.expected)?;
            Ok(true)
        }
        Err(ApplyFault::NotEnabled) => Ok(false),
        Err(ApplyFault::NoMemory) => Err(NoMemory),
    }
}

/// Who should have made an entry, where it is not he who did.
fn misplaced_words(entry: &Entry) -> Option<&'static [u8]> {
    match (entry.who, &entry.cmd) {
        (Who::Loader(_), Cmd::Release(_)) => Some(
            b"the runtime, `rt`, as the one who makes a release".as_slice(),
        ),
        (Who::Runtime, Cmd::Release(_)) | (Who::Loader(_), _) => None,
        (Who::Runtime, _) => Some(
            b"a loader, as `L0`: the runtime makes releases alone".as_slice(),
        ),
    }
}

/// What was expected where a command has no answer at all.
fn impossible_words(cmd: &Cmd) -> &'static [u8] {
    match cmd {
        Cmd::Release(_) => b"no release: no area with this serial waits to be released".as_slice(),
        Cmd::SoftPurge { .. } => {
            b"no process that lingers: the module has no old code, or another purge is under way".as_slice()
        }
        Cmd::Doom(_) => {
            b"no doom: the module has no old code, or another purge is under way".as_slice()
        }
        Cmd::Purge { .. } => {
            b"a doom of the module before its purge, and no kill where it has no old code".as_slice()
        }
        _ => b"another entry: a purge is under way".as_slice(),
    }
}

/// What was expected behind the last entry, where an area waits to be released.
pub fn expected_release(
    alloc: Global,
    script: &Script,
    log: &RunLog,
    inquiry: &mut Inquiry,
) -> Result<Finding, NoMemory>
    requires texts { AreTexts script.now.modules }
    requires put { All (λ e. IsOfText e.cmd) log.now.journal }
{
    let replay = &mut inquiry.replay;
    replay.make_before(alloc, log.journal.len(), &log.journal, &script.modules)?;
    say_release(replay.server.oldest_retired(), &mut inquiry.expected)?;
    Ok(Finding::new(Place::End))
}

/// Says that the areas that wait were to be released, as the oldest of them.
fn say_release(oldest: Option<u64>, expected: &mut Expected) -> Result<(), NoMemory> {
    expected.say(b"a release of each area that was retired")?;
    match oldest {
        Some(serial) => {
            expected.say_number(b", as `entry rt release ", serial)?;
            expected.say(b" = ok -`")
        }
        None => Ok(()),
    }
}
