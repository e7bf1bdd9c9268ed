ghost use Rattle.std.specs.Prelude.{◌≡◌, ℕ, List, IfOk};
ghost use Rattle.mod_core.specs.declared.code.Module.{Module};
ghost use Rattle.run_log.specs.Snapshots.{AreExports};
ghost use Rattle.run_log.specs.ExportedFunctions.{AreExportedFunctions};
ghost use Rattle.run_log.specs.SeenExports.{IsSnapshotOfState, exports_among};
ghost use Rattle.run_log.specs.InstanceTexts.{AreOfTexts};

use crate::exports::functions::MfaList;
use crate::logs::{ExportList, Snapshot};
use server_core::Server;
use std::alloc::Global;
use term_core::NoMemory;

/// What an observer sees of the server's newest generation, where these are the exported functions of all module texts. It
/// takes memory.
pub fn snapshot_of(
    alloc: Global,
    server: &Server,
    functions: &MfaList,
) -> Result<Snapshot, NoMemory>
    ensures { IfOk result (λ shot. IsSnapshotOfState server.now functions.now shot) }
{
    let generation = server.generation();
    let exports = exports_among(alloc, server, functions)?;
    Ok(Snapshot {
        generation,
        exports,
    })
}

/// The exports of the server's newest state, each with the serial of its instance, where these are the exported functions
/// of all module texts. It takes memory.
pub fn exports_of(
    alloc: Global,
    server: &Server,
    functions: &MfaList,
) -> Result<ExportList, NoMemory>
    ensures { IfOk result (λ exports. (names : List (List ℕ)) (texts : List Module) → AreExportedFunctions names texts functions.now → AreOfTexts texts server.now → AreExports names server.now exports) }
{
    let Snapshot { exports, .. } = snapshot_of(alloc, server, functions)?;
    Ok(exports)
}

/// Those of the functions that the server exports, each with the serial of its instance.
fn exports_among(
    alloc: Global,
    server: &Server,
    functions: &MfaList,
) -> Result<ExportList, NoMemory>
    ensures { IfOk result (λ exports. exports ≡ exports_among server.now functions.now) }
{
    let mut exports = ExportList::new(alloc);
    for to in functions.as_slice() {
        if let Some(at) = server.dispatch(*to) {
            exports.push((*to, at.area.serial))?;
        }
    }
    Ok(exports)
}
