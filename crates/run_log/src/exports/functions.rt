ghost use Rattle.std.specs.Prelude.{◌≡◌, ◌++◌, IfOk, OnOk};
ghost use Rattle.script_core.specs.Sound.{IsScript};
ghost use Rattle.run_log.specs.ExportedFunctions.{AreExportedFunctions, exports_in};

use crate::exports::order::compare;
use mod_core::Module;
use script_core::Script;
use std::alloc::Global;
use term_core::{Items, Mfa, NoMemory};

/// Names of functions in a row.
pub type MfaList = Items<Mfa>;

/// The functions that some module text of the script exports, each once, in order of the names of their modules, then of
/// their own names, then of their arities; names are compared by their bytes. It takes memory for each export of each text.
pub fn exported_functions(alloc: Global, script: &Script) -> Result<MfaList, NoMemory>
    requires { IsScript script.now }
    ensures { IfOk result (λ functions. AreExportedFunctions script.now.names script.now.modules functions) }
{
    let names = &script.names;
    let mut functions = Vec::new(alloc);
    for module in script.modules.as_slice() {
        add_exports(module, &mut functions)?;
    }
    functions.sort_unstable_by(|f, g| compare(names, f, g));
    functions.dedup_by(|f, g| compare(names, f, g).is_eq());
    Ok(MfaList::from_vec(functions))
}

/// Appends the functions that a module exports, in the order of its text.
fn add_exports(module: &Module, functions: &mut Vec<Mfa>) -> Result<(), NoMemory>
    ensures { OnOk result (functions.new.items ≡ functions.old.items ++ exports_in «module».now) }
{
    for function in module.functions.as_slice() {
        if function.exported {
            functions.push(Mfa {
                module: module.name,
                name: function.name,
                arity: function.arity,
            })?;
        }
    }
    Ok(())
}
