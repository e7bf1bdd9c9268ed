ghost use Rattle.std.specs.Prelude.{◌≡◌, IfOk, slice_get};
ghost use Rattle.mod_core.specs.Module.{IsModule};
ghost use Rattle.server_core.specs.ServerState.{instance_image};

use mod_core::{Module, encode};
use std::alloc::Global;
use std::marker::Model;
use term_core::{NoMemory, WordList};

/// A loaded module: contracts see the module alone. Beside it stand the words of its image, with serial 0.
#[derive(Drop)]
pub struct LoadedModule {
    code: Module,
    words: WordList,
}

impl Model for LoadedModule {
    ghost use Rattle.std.specs.Prelude.{◌≡◌};
    ghost use Rattle.mod_core.specs.declared.code.Module.{Module};
    ghost use Rattle.mod_core.specs.ModuleImage.{module_image};
    ghost use Rattle.mod_core.specs.contracts.code.Module as module_contracts;

    ghost Value = { Module };

    ghost coded = { module_contracts.the_row.coded };

    ghost view = { λ it. it.code };

    ghost invariant = { λ it. it.words ≡ module_image it.code };
}

impl LoadedModule {
    /// A copy of the module, with its image.
    pub fn new(alloc: Global, code: &Module) -> Result<LoadedModule, NoMemory>
        requires { IsModule code.now }
        ensures { IfOk result (λ it. it ≡ code.now) }
    {
        let words = encode(alloc, code)?;
        let code = code.copy(alloc)?;
        Ok(LoadedModule { code, words })
    }

    pub fn code(&self) -> &Module
        ensures { result.now ≡ self.now }
    {
        &self.code
    }

    /// A word of the instance that has this serial; places count words from 0.
    pub fn word(&self, serial: u64, at: u32) -> Option<u64>
        ensures { result ≡ slice_get (instance_image serial self.now) at }
    {
        if at == 0 {
            return Some(serial);
        }
        self.words.get(at as usize).copied()
    }

    /// The words of the instance that has this serial.
    pub fn words(&self, alloc: Global, serial: u64) -> Result<WordList, NoMemory>
        ensures { IfOk result (λ words. words ≡ instance_image serial self.now) }
    {
        let mut words = WordList::new(alloc);
        words.push(serial)?;
        if let Some((_, rest)) = self.words.as_slice().split_first() {
            words.extend_from_slice(rest)?;
        }
        Ok(words)
    }
}
