//! The commands of a made script's loaders.

ghost use Rattle.std.specs.Prelude.{◌≡◌, IfOk};
ghost use Rattle.script_core.specs.declared.script.ScriptCmd.TheVariants.{Trace};
ghost use Rattle.script_maker.specs.MadeScript.{made_command, command_of_kind, made_load, made_commands, put_by_maker, spawns_at, version_of};

use crate::generator::{first_number, next_number, picked};
use crate::subject::Subject;
use script_core::{CommandList, ScriptCmd};
use server_core::{ModRef, RefList};
use std::alloc::Global;
use term_core::{NoMemory, Term, TermList};

/// Only the first so many commands of a loader spawn processes.
pub const SPAWNING: u32 = 256;

/// After so many commands the versions begin anew; the last of so many spawns a process.
pub const PERIOD: u32 = 8;

fn load(alloc: Global, about: Subject, version: u32) -> Result<ScriptCmd, NoMemory>
    ensures { IfOk result (λ command. command ≡ made_load about version) }
{
    let mut refs = RefList::new(alloc);
    refs.push(ModRef {
        name: about.module,
        version,
    })?;
    Ok(ScriptCmd::Load(refs))
}

fn put(alloc: Global, about: Subject, place: u32, version: u32) -> Result<ScriptCmd, NoMemory>
    ensures { IfOk result (λ command. command ≡ put_by_maker about place version) }
{
    let mut parts = TermList::new(alloc);
    parts.push(Term::Int(i64::from(place)))?;
    parts.push(Term::Int(i64::from(version)))?;
    Ok(ScriptCmd::Put {
        key: about.key,
        term: Term::Tuple(parts),
    })
}

/// The command of a kind.
fn command_of_kind(
    alloc: Global,
    about: Subject,
    place: u32,
    kind: u32,
) -> Result<ScriptCmd, NoMemory>
    ensures { IfOk result (λ command. command ≡ command_of_kind about place kind) }
{
    let version = 1 + place % PERIOD;
    match kind {
        0 => load(alloc, about, version),
        1 => Ok(ScriptCmd::SoftPurge(about.module)),
        2 => Ok(ScriptCmd::CheckOld(about.module)),
        3 => put(alloc, about, place, version),
        4 => Ok(ScriptCmd::Erase(about.key)),
        5 => Ok(trace(about, true)),
        _ => Ok(trace(about, false)),
    }
}

fn trace(about: Subject, on: bool) -> ScriptCmd
    ensures { result ≡ Trace (version_of about) on }
{
    ScriptCmd::Trace {
        target: about.version(),
        on,
    }
}

/// Whether the command at a place spawns a process.
fn spawns_at(place: u32) -> bool
    ensures { result ≡ spawns_at place }
{
    place < SPAWNING && place % PERIOD == 7
}

/// The command at a place, where the generator has this number.
fn command_of(alloc: Global, about: Subject, place: u32, number: u32) -> Result<ScriptCmd, NoMemory>
    ensures { IfOk result (λ command. command ≡ made_command about place number) }
{
    if place == 0 {
        return load(alloc, about, 1);
    }
    if spawns_at(place) {
        return Ok(ScriptCmd::Spawn {
            target: about.main(),
            args: TermList::new(alloc),
        });
    }
    command_of_kind(alloc, about, place, picked(number))
}

/// So many commands of the loader with this number.
pub(crate) fn made_commands(
    alloc: Global,
    seed: u32,
    loader: u32,
    count: u32,
) -> Result<CommandList, NoMemory>
    ensures { IfOk result (λ commands. commands ≡ made_commands seed loader count) }
{
    let about = Subject::of_loader(loader);
    let mut commands = CommandList::new(alloc);
    let mut number = first_number(seed, loader);
    for place in 0..count {
        number = next_number(number);
        commands.push(command_of(alloc, about, place, number)?)?;
    }
    Ok(commands)
}
