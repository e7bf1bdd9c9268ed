ghost use Rattle.std.specs.Prelude.{◌≡◌, ◌≢◌, ◌↔◌, ◌+◌, ◌<◌, ◌≤◌, ℕ, [], IfOk, IsErrOf, IsOk, IsSome, IsTrue, None, OnErr, OnOk, Some};
ghost use Rattle.module_table.specs.Modules.{current_in, drop_answer, has_instance, old_in, without_current, with_instances, with_promoted, without_old};

use crate::fault::{DropAnswer, PromoteFault};
use indexmap::IndexMap;
use std::alloc::Global;
use std::marker::Model;
use term_core::{AtomId, NoMemory};

/// The serials of a module's current and old instance.
#[derive(Clone, Copy)]
pub struct Serials {
    current: Option<u64>,
    old: Option<u64>,
}

/// The current and the old instance of each module, in the order in which the modules came in.
///
/// Rule: Erlang/OTP erts internal documentation, CodeLoading: a module has at most one old instance.
#[derive(Drop)]
pub struct ModuleTable {
    serials: IndexMap<u32, Serials>,
}

impl Model for ModuleTable {
    ghost use Rattle.module_table.specs.Modules.{Modules};

    ghost Value = { Modules };

    ghost use Rattle.module_table.specs.ModuleTable.{modules_of};

    ghost view = { modules_of };
}

impl ModuleTable {
    /// No modules.
    pub fn new(alloc: Global) -> Result<ModuleTable, NoMemory>
        ensures { IfOk result (λ table. table.instances ≡ []) }
    {
        Ok(ModuleTable {
            serials: IndexMap::new(alloc),
        })
    }

    /// The serial of a module's current instance.
    pub fn current(&self, module: AtomId) -> Option<u64>
        ensures { result ≡ current_in self.now.instances «module».0 }
    {
        self.serials.get(&module.0)?.current
    }

    /// The serial of a module's old instance.
    pub fn old(&self, module: AtomId) -> Option<u64>
        ensures { result ≡ old_in self.now.instances «module».0 }
    {
        self.serials.get(&module.0)?.old
    }

    /// Takes the room for so many modules more.
    pub fn reserve(&mut self, more: usize) -> Result<(), NoMemory>
        ensures ok { OnOk result (more ≤ self.new.room) }
        ensures same { self.new.instances ≡ self.old.instances }
    {
        self.serials.reserve(more)?;
        Ok(())
    }

    /// The instance with this serial becomes the current one of the module, and what was current becomes old.
    ///
    /// After a fault the table is as before.
    pub fn promote(&mut self, module: AtomId, serial: u64) -> Result<(), PromoteFault>
        ensures ok { OnOk result (self.new.instances ≡ with_promoted self.old.instances «module».0 serial) }
        ensures not_purged { (old : ℕ) → IsErrOf result (PromoteFault.NotPurged old) ↔ (old_in self.old.instances «module».0 ≡ Some old) }
        ensures err { OnErr result (self.new.instances ≡ self.old.instances) }
        ensures succeeds { old_in self.old.instances «module».0 ≡ None → 0 < self.old.room → IsOk result }
        ensures room { self.old.room ≤ self.new.room + 1 }
    {
        if let Some(old) = self.old(module) {
            return Err(PromoteFault::NotPurged { old });
        }
        let serials = Serials {
            current: Some(serial),
            old: self.current(module),
        };
        self.serials.insert(module.0, serials)?;
        Ok(())
    }

    /// What is current becomes old, and none is current. Where it is not dropped, the table is as before.
    pub fn drop_current(&mut self, module: AtomId) -> DropAnswer
        ensures answer { result ≡ drop_answer (current_in self.old.instances «module».0) (old_in self.old.instances «module».0) }
        ensures dropped { result ≡ DropAnswer.Dropped → self.new.instances ≡ without_current self.old.instances «module».0 }
        ensures kept { result ≢ DropAnswer.Dropped → self.new.instances ≡ self.old.instances }
    {
        if let Some(old) = self.old(module) {
            return DropAnswer::NotPurged { old };
        }
        let Some(current) = self.current(module) else {
            return DropAnswer::NotLoaded;
        };
        self.put(module, None, Some(current));
        DropAnswer::Dropped
    }

    /// The old instance goes. None where there is none.
    pub fn take_old(&mut self, module: AtomId) -> Option<u64>
        ensures answer { result ≡ old_in self.old.instances «module».0 }
        ensures taken { IsSome result → self.new.instances ≡ without_old self.old.instances «module».0 }
        ensures none { result ≡ None → self.new.instances ≡ self.old.instances }
    {
        let old = self.old(module)?;
        self.put(module, self.current(module), None);
        Some(old)
    }

    /// Writes the instances of a module that the table has. It takes no memory.
    fn put(&mut self, module: AtomId, current: Option<u64>, old: Option<u64>)
        requires { IsTrue (has_instance self.old.instances «module».0) }
        ensures { self.new.instances ≡ with_instances self.old.instances (record { name = «module».0; current = current; old = old }) }
    {
        self.serials
            .insert(module.0, Serials { current, old })
            .unwrap();
    }
}
