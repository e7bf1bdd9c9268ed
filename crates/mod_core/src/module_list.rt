ghost use Rattle.std.specs.Prelude.{◌≡◌, ◌==◌, ◌&&◌, [], ◌∷◌, ◌++◌, find, OnOk, OnErr};
ghost use Rattle.std.specs.Option.{option_copied};

use crate::code::Module;
use indexmap::IndexMap;
use std::alloc::Global;
use std::marker::Model;
use term_core::{AtomId, NoMemory};

/// The number of a module's name, and its version.
#[derive(Clone, Copy, Debug, PartialEq, Eq, Hash)]
pub struct ModuleKey {
    name: u32,
    version: u32,
}

/// Modules in a row, as the texts of a script, with an index by name and version.
#[derive(Debug, Drop)]
pub struct ModuleList {
    modules: Vec<Module>,
    /// The place of the first module with this name and version.
    places: IndexMap<ModuleKey, usize>,
}

impl Model for ModuleList {
    ghost use Rattle.std.specs.Prelude.{List};
    ghost use Rattle.std.specs.Coded.{coded_list};
    ghost use Rattle.mod_core.specs.declared.code.Module.{Module};
    ghost use Rattle.mod_core.specs.contracts.code.Module as module_contracts;

    ghost Value = { List Module };

    ghost coded = { coded_list module_contracts.the_row.coded };

    ghost use Rattle.mod_core.specs.ModulePlaces.{TellsPlaces};

    ghost view = { λ it. it.modules.items };

    ghost invariant = { λ it. TellsPlaces it.places.entries it.modules.items };
}

impl ModuleList {
    /// No modules. It takes no memory.
    pub fn new(alloc: Global) -> ModuleList
        ensures { result ≡ [] }
    {
        ModuleList {
            modules: Vec::new(alloc),
            places: IndexMap::new(alloc),
        }
    }

    /// The modules, in the order in which they came.
    pub fn as_slice(&self) -> &[Module]
        ensures { result.now ≡ self.now }
    {
        self.modules.as_slice()
    }

    /// The first module with this name and version. It takes no memory, and looks at no other module.
    pub fn find(&self, name: AtomId, version: u32) -> Option<&Module>
        ensures { option_copied result ≡ find (λ m. m.name.0 == name.0 && m.version == version) self.now }
    {
        let key = ModuleKey {
            name: name.0,
            version,
        };
        let place = self.places.get(&key)?;
        self.modules.get(*place)
    }

    /// Appends one module. Where memory is refused, nothing is appended.
    pub fn push(&mut self, module: Module) -> Result<(), NoMemory>
        ensures ok { OnOk result (self.new ≡ self.old ++ «module» ∷ []) }
        ensures err { OnErr result (self.new ≡ self.old) }
    {
        self.modules.reserve(1)?;
        let key = ModuleKey {
            name: module.name.0,
            version: module.version,
        };
        if !self.places.contains_key(&key) {
            self.places.insert(key, self.modules.len())?;
        }
        self.modules.push_reserved(module);
        Ok(())
    }
}
