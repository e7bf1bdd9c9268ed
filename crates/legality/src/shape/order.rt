ghost use Rattle.std.specs.Prelude.{◌≡◌, ◌∷◌, [], ◌+◌, ◌^◌, ◌<◌, ◌≤◌, ◌↔◌, ℕ, List, length, slice_get, IsTrue, OnSome};
ghost use Rattle.std.specs.Option.{option_copied};
ghost use Rattle.script_core.specs.Sound.{IsScript};
ghost use Rattle.run_log.specs.declared.logs.Entry.{Entry};
ghost use Rattle.run_log.specs.declared.logs.Who.TheVariants.{Loader};
ghost use Rattle.run_log.specs.Legal.{commands_in, commands_of};
ghost use Rattle.legality.specs.Places.{AreLeft, loader_place};
ghost use Rattle.script_core.specs.Processes.{commands_at};

use crate::shape::commands::{ends_one, is_end_of};
use run_log::{Entry, RunLog, Who};
use script_core::{LoaderList, MOST_LOADERS, Script, ScriptCmd};

// The first of a loader's commands that no entry has ended.
fn next_command<'a>(
    loaders: &'a LoaderList,
    loader: usize,
    places: &[usize],
) -> Option<&'a ScriptCmd>
    requires { length loaders.now ≤ length places.now }
    ensures value { option_copied result ≡ slice_get (commands_at loaders.now loader) (loader_place places.now loader) }
    ensures there { OnSome result (loader < length places.now) }
    ensures room { OnSome result (loader_place places.now loader + 1 < 2 ^ 64) }
{
    let commands = loaders.get(loader)?.as_slice();
    commands.get(places[loader])
}

// Takes the command that an entry of a loader ends, if it is the next one. Else the answer is no.
fn take_of_loader(loaders: &LoaderList, loader: usize, entry: &Entry, places: &mut [usize]) -> bool
    requires by { entry.now.who ≡ Loader loader }
    requires places { length loaders.now ≤ length places.old }
    ensures { (journal : List Entry) → AreLeft loaders.now places.old (entry.now ∷ journal) ↔ IsTrue result × AreLeft loaders.now places.new journal }
{
    if !ends_one(&entry.cmd) {
        return true;
    }
    let Some(command) = next_command(loaders, loader, places) else {
        return false;
    };
    if !is_end_of(&entry.cmd, command) {
        return false;
    }
    places[loader] += 1;
    true
}

// Takes the command that an entry ends, if it ends one and that is the next one of its loader.
fn take_command(loaders: &LoaderList, entry: &Entry, places: &mut [usize]) -> bool
    requires { length loaders.now ≤ length places.old }
    ensures { (journal : List Entry) → AreLeft loaders.now places.old (entry.now ∷ journal) ↔ IsTrue result × AreLeft loaders.now places.new journal }
{
    match entry.who {
        Who::Loader(loader) => take_of_loader(loaders, loader as usize, entry, places),
        Who::Runtime => true,
    }
}

// Whether no command is left.
fn are_all_taken(loaders: &LoaderList, places: &[usize]) -> bool
    requires { length loaders.now ≤ length places.now }
    ensures { IsTrue result ↔ AreLeft loaders.now places.now [] }
{
    for (loader, commands) in loaders.as_slice().iter().enumerate() {
        if places[loader] < commands.len() {
            return false;
        }
    }
    true
}

/// Whether the entries of each loader end its commands, in order, each once and all of them.
///
/// It goes over the journal once.
pub fn has_commands_in_order(script: &Script, log: &RunLog) -> bool
    requires { IsScript script.now }
    ensures { IsTrue result ↔ ((loader : ℕ) → commands_in loader log.now.journal ≡ commands_of script.now loader) }
{
    let mut places = [0; MOST_LOADERS];
    for entry in log.journal.as_slice() {
        if !take_command(&script.loaders, entry, &mut places) {
            return false;
        }
    }
    are_all_taken(&script.loaders, &places)
}
