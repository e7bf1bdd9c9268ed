ghost use Rattle.std.specs.Prelude.{◌≡◌, ◌∷◌, ◌++◌, ◌↔◌, ℕ, List, IsTrue, IsSomeAnd};
ghost use Rattle.script_core.specs.declared.script.ScriptCmd.{ScriptCmd};
ghost use Rattle.script_core.specs.Processes.{SpawnLine, spawns_from, spawns_of};
ghost use Rattle.run_log.specs.Legal.{LogsMatch};

use crate::shape::same::{are_same_terms, is_same_function};
use run_log::{ProcessLog, RunLog};
use script_core::{CommandList, Script, ScriptCmd};
use term_core::{Mfa, TermList};

// Whether a process log is of a call.
fn is_log_of(process: &ProcessLog, target: &Mfa, args: &TermList) -> bool
    ensures { IsTrue result ↔ (process.now.target ≡ target.now) × (process.now.args ≡ args.now) }
{
    is_same_function(&process.target, target) && are_same_terms(&process.args, args)
}

// What is left of the process logs behind that of a command, if it is a spawn and its log comes first.
fn after_log_of<'a>(command: &ScriptCmd, processes: &'a [ProcessLog]) -> Option<&'a [ProcessLog]>
    ensures { (commands : List ScriptCmd) (more : List SpawnLine) → LogsMatch (spawns_from 0 0 (command.now ∷ commands) ++ more) processes.now ↔ IsSomeAnd result (λ rest. LogsMatch (spawns_from 0 0 commands ++ more) rest.now) }
{
    let ScriptCmd::Spawn { target, args } = command else {
        return Some(processes);
    };
    let Some((first, others)) = processes.split_first() else {
        return None;
    };
    if is_log_of(first, target, args) {
        Some(others)
    } else {
        None
    }
}

// What is left of the process logs behind those of a loader's spawns, if these come first.
fn after_logs<'a>(commands: &CommandList, processes: &'a [ProcessLog]) -> Option<&'a [ProcessLog]>
    ensures { (loader : ℕ) (more : List SpawnLine) → LogsMatch (spawns_from loader 0 commands.now ++ more) processes.now ↔ IsSomeAnd result (λ rest. LogsMatch more rest.now) }
{
    let mut rest = processes;
    for command in commands.as_slice() {
        let Some(others) = after_log_of(command, rest) else {
            return None;
        };
        rest = others;
    }
    Some(rest)
}

/// Whether there is a log for each spawn line of the script, in order, and no other.
pub fn has_process_logs(script: &Script, log: &RunLog) -> bool
    ensures { IsTrue result ↔ LogsMatch (spawns_of 0 script.now.loaders) log.now.processes }
{
    let mut rest = log.processes.as_slice();
    for commands in script.loaders.as_slice() {
        let Some(others) = after_logs(commands, rest) else {
            return false;
        };
        rest = others;
    }
    rest.is_empty()
}
