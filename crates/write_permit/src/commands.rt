ghost use Rattle.std.specs.Prelude.{◌≡◌, [], IfOk};
ghost use Rattle.server_core.specs.ServerState.{ServerState};
ghost use Rattle.script_core.specs.declared.script.ScriptCmd.TheVariants.{Purge};
ghost use Rattle.write_permit.specs.Permit.{is_spawn, command_opening, purged_code};

use script_core::ScriptCmd;
use server_core::{Cmd, RefList, Server};
use std::alloc::Global;
use term_core::{AtomId, NoMemory};

/// Old code of a module.
#[derive(Clone, Copy, Debug, PartialEq, Eq)]
pub struct OldCode {
    pub module: AtomId,
    /// Its serial.
    pub serial: u64,
}

/// The old code of a module, as a purge of it meets it.
pub fn old_code(module: AtomId, server: &Server) -> Option<OldCode>
    ensures { result ≡ purged_code server.now (Purge «module») }
{
    let serial = server.old(module)?;
    Some(OldCode { module, serial })
}

/// Whether the command makes a process.
pub fn is_spawn(command: &ScriptCmd) -> bool
    ensures { result ≡ is_spawn command.now }
{
    matches!(command, ScriptCmd::Spawn { .. })
}

/// The command of the server with which a command of the script is made, unless it is a purge of old code. A soft purge is made as no process lingers.
pub fn opening(alloc: Global, command: &ScriptCmd) -> Result<Cmd, NoMemory>
    ensures { IfOk result (λ cmd. (s : ServerState) → cmd ≡ command_opening s [] command.now) }
{
    Ok(match command {
        ScriptCmd::Load(refs) => Cmd::Load(RefList::from_slice(alloc, refs.as_slice())?),
        ScriptCmd::Delete(module) => Cmd::Delete(*module),
        ScriptCmd::SoftPurge(module) => Cmd::SoftPurge {
            module: *module,
            lingers: None,
        },
        ScriptCmd::Purge(module) => Cmd::Purge {
            module: *module,
            killed: false,
        },
        ScriptCmd::CheckOld(module) => Cmd::CheckOld(*module),
        ScriptCmd::Put { key, term } => Cmd::Put {
            key: *key,
            term: term.copy(alloc)?,
        },
        ScriptCmd::Erase(key) => Cmd::Erase(*key),
        ScriptCmd::Trace { target, on } => Cmd::Trace {
            target: *target,
            on: *on,
        },
        ScriptCmd::Spawn { target, args } => Cmd::Spawn {
            target: *target,
            args: args.copy(alloc)?,
        },
    })
}
