//! Copying a script.

ghost use Rattle.std.specs.Prelude.{◌≡◌, IfOk};

use crate::script::{CommandList, LoaderList, Script, ScriptCmd};
use mod_core::{Module, ModuleList};
use server_core::RefList;
use std::alloc::Global;
use term_core::{AtomId, CountList, Names, NoMemory};

/// How many names each table begins with.
const GIVEN_NAMES: u32 = 3;

/// An equal table: the names behind the given ones are added in order.
fn copy_names(alloc: Global, names: &Names) -> Result<Names, NoMemory>
    ensures { IfOk result (λ copy. copy ≡ names.now) }
{
    let mut copies = Names::new(alloc)?;
    let mut number = GIVEN_NAMES;
    'names: while let Some(text) = names.text(AtomId(number)) {
        if copies.add(text).is_err() {
            return Err(NoMemory);
        }
        number += 1;
    }
    Ok(copies)
}

fn copy_modules(alloc: Global, modules: &[Module]) -> Result<ModuleList, NoMemory>
    ensures { IfOk result (λ copy. copy ≡ modules.now) }
{
    let mut copies = ModuleList::new(alloc);
    for module in modules {
        copies.push(module.copy(alloc)?)?;
    }
    Ok(copies)
}

fn copy_command(alloc: Global, command: &ScriptCmd) -> Result<ScriptCmd, NoMemory>
    ensures { IfOk result (λ copy. copy ≡ command.now) }
{
    match command {
        ScriptCmd::Load(refs) => Ok(ScriptCmd::Load(RefList::from_slice(alloc, refs.as_slice())?)),
        ScriptCmd::Delete(module) => Ok(ScriptCmd::Delete(*module)),
        ScriptCmd::SoftPurge(module) => Ok(ScriptCmd::SoftPurge(*module)),
        ScriptCmd::Purge(module) => Ok(ScriptCmd::Purge(*module)),
        ScriptCmd::CheckOld(module) => Ok(ScriptCmd::CheckOld(*module)),
        ScriptCmd::Put { key, term } => Ok(ScriptCmd::Put {
            key: *key,
            term: term.copy(alloc)?,
        }),
        ScriptCmd::Erase(key) => Ok(ScriptCmd::Erase(*key)),
        ScriptCmd::Trace { target, on } => Ok(ScriptCmd::Trace {
            target: *target,
            on: *on,
        }),
        ScriptCmd::Spawn { target, args } => Ok(ScriptCmd::Spawn {
            target: *target,
            args: args.copy(alloc)?,
        }),
    }
}

fn copy_commands(alloc: Global, commands: &[ScriptCmd]) -> Result<CommandList, NoMemory>
    ensures { IfOk result (λ copy. copy ≡ commands.now) }
{
    let mut copies = CommandList::new(alloc);
    for command in commands {
        copies.push(copy_command(alloc, command)?)?;
    }
    Ok(copies)
}

fn copy_loaders(alloc: Global, loaders: &[CommandList]) -> Result<LoaderList, NoMemory>
    ensures { IfOk result (λ copy. copy ≡ loaders.now) }
{
    let mut copies = LoaderList::new(alloc);
    for commands in loaders {
        copies.push(copy_commands(alloc, commands.as_slice())?)?;
    }
    Ok(copies)
}

impl Script {
    /// An equal script in memory of its own.
    pub fn copy(&self, alloc: Global) -> Result<Script, NoMemory>
        ensures { IfOk result (λ copy. copy ≡ self.now) }
    {
        Ok(Script {
            names: copy_names(alloc, &self.names)?,
            modules: copy_modules(alloc, self.modules.as_slice())?,
            observers: CountList::from_slice(alloc, self.observers.as_slice())?,
            loaders: copy_loaders(alloc, self.loaders.as_slice())?,
        })
    }
}
