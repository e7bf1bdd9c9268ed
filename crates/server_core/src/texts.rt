ghost use Rattle.std.specs.Prelude.{◌≡◌, [], IfOk, IsSome, Some, All, is_some};
ghost use Rattle.mod_core.specs.Module.{IsModule};
ghost use Rattle.server_core.specs.CommandTable.{names_of, repeated_after, texts_of};

use crate::command::ModRef;
use crate::instance::LoadedModule;
use indexmap::IndexSet;
use mod_core::ModuleList;
use std::alloc::Global;
use term_core::{AtomId, NoMemory};

/// Whether each text of the list is given. It takes no memory.
pub fn are_given(texts: &ModuleList, refs: &[ModRef]) -> bool
    ensures { result ≡ is_some (texts_of texts.now refs.now) }
{
    for to in refs {
        if texts.find(to.name, to.version).is_none() {
            return false;
        }
    }
    true
}

/// The first name of the list that stands in it before.
pub fn repeated(alloc: Global, refs: &[ModRef]) -> Result<Option<AtomId>, NoMemory>
    ensures { IfOk result (λ name. name ≡ repeated_after [] (names_of refs.now)) }
{
    let mut before = IndexSet::new(alloc);
    for to in refs {
        if !before.insert(to.name.0)? {
            return Ok(Some(to.name));
        }
    }
    Ok(None)
}

/// The modules of the list, each with its image.
pub fn stage(
    alloc: Global,
    texts: &ModuleList,
    refs: &[ModRef],
) -> Result<Vec<LoadedModule>, NoMemory>
    requires sound { All IsModule texts.now }
    requires given { IsSome (texts_of texts.now refs.now) }
    ensures { IfOk result (λ staged. texts_of texts.now refs.now ≡ Some staged.items) }
{
    let mut staged = Vec::new(alloc);
    for to in refs {
        let text = texts.find(to.name, to.version).unwrap();
        staged.push(LoadedModule::new(alloc, text)?)?;
    }
    Ok(staged)
}
