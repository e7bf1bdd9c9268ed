ghost use Rattle.std.specs.Prelude.{◌≡◌, ◌∷◌, [], ◌↔◌, IsTrue};
ghost use Rattle.script_core.specs.declared.script.ScriptCmd.TheVariants as script;
ghost use Rattle.run_log.specs.Journal.{ends_one};
ghost use Rattle.run_log.specs.Legal.{ended_by};

use crate::shape::same::{are_same_references, are_same_terms, is_same_function, is_same_term};
use script_core::ScriptCmd;
use server_core::{Cmd, RefList};
use term_core::{AtomId, Mfa, Term, TermList};

fn is_load(command: &ScriptCmd, refs: &RefList) -> bool
    ensures { IsTrue result ↔ (command.now ≡ script.Load refs.now) }
{
    match command {
        ScriptCmd::Load(wanted) => are_same_references(wanted, refs),
        _ => false,
    }
}

fn is_delete(command: &ScriptCmd, module: AtomId) -> bool
    ensures { IsTrue result ↔ (command.now ≡ script.Delete «module») }
{
    match command {
        ScriptCmd::Delete(wanted) => *wanted == module,
        _ => false,
    }
}

fn is_soft_purge(command: &ScriptCmd, module: AtomId) -> bool
    ensures { IsTrue result ↔ (command.now ≡ script.SoftPurge «module») }
{
    match command {
        ScriptCmd::SoftPurge(wanted) => *wanted == module,
        _ => false,
    }
}

fn is_purge(command: &ScriptCmd, module: AtomId) -> bool
    ensures { IsTrue result ↔ (command.now ≡ script.Purge «module») }
{
    match command {
        ScriptCmd::Purge(wanted) => *wanted == module,
        _ => false,
    }
}

fn is_check_old(command: &ScriptCmd, module: AtomId) -> bool
    ensures { IsTrue result ↔ (command.now ≡ script.CheckOld «module») }
{
    match command {
        ScriptCmd::CheckOld(wanted) => *wanted == module,
        _ => false,
    }
}

fn is_put(command: &ScriptCmd, to: AtomId, value: &Term) -> bool
    ensures { IsTrue result ↔ (command.now ≡ script.Put to value.now) }
{
    match command {
        ScriptCmd::Put { key, term } => *key == to && is_same_term(term, value),
        _ => false,
    }
}

fn is_erase(command: &ScriptCmd, key: AtomId) -> bool
    ensures { IsTrue result ↔ (command.now ≡ script.Erase key) }
{
    match command {
        ScriptCmd::Erase(wanted) => *wanted == key,
        _ => false,
    }
}

fn is_trace(command: &ScriptCmd, function: &Mfa, set: bool) -> bool
    ensures { IsTrue result ↔ (command.now ≡ script.Trace function.now set) }
{
    match command {
        ScriptCmd::Trace { target, on } => is_same_function(target, function) && *on == set,
        _ => false,
    }
}

fn is_spawn(command: &ScriptCmd, function: &Mfa, values: &TermList) -> bool
    ensures { IsTrue result ↔ (command.now ≡ script.Spawn function.now values.now) }
{
    match command {
        ScriptCmd::Spawn { target, args } => is_same_function(target, function)
            && are_same_terms(args, values),
        _ => false,
    }
}

/// Whether a command of the server ends this command of a script.
pub fn is_end_of(cmd: &Cmd, command: &ScriptCmd) -> bool
    ensures { IsTrue result ↔ (ended_by cmd.now ≡ command.now ∷ []) }
{
    match cmd {
        Cmd::Load(refs) => is_load(command, refs),
        Cmd::Delete(module) => is_delete(command, *module),
        Cmd::SoftPurge { module, .. } => is_soft_purge(command, *module),
        Cmd::Purge { module, .. } => is_purge(command, *module),
        Cmd::CheckOld(module) => is_check_old(command, *module),
        Cmd::Put { key, term } => is_put(command, *key, term),
        Cmd::Erase(key) => is_erase(command, *key),
        Cmd::Trace { target, on } => is_trace(command, target, *on),
        Cmd::Spawn { target, args } => is_spawn(command, target, args),
        Cmd::Doom(_) | Cmd::Release(_) => false,
    }
}

/// Whether a command of the server ends a command of a script at all.
pub fn ends_one(cmd: &Cmd) -> bool
    ensures { result ≡ ends_one cmd.now }
{
    !matches!(cmd, Cmd::Doom(_) | Cmd::Release(_))
}
