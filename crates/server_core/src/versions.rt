ghost use Rattle.std.specs.Prelude.{◌≡◌, ◌+◌, ◌<◌, ◌≤◌, [], IfOk, None, IsSome, is_some, length, option_and_then};
ghost use Rattle.server_core.specs.Rooms.{HasPlaces, with_current, with_made_old, without_old};
ghost use Rattle.server_core.specs.ServerState.{current_among, live_count, old_among};

use crate::command::MOST_INSTANCES;
use indexmap::IndexMap;
use std::alloc::Global;
use std::marker::Model;
use term_core::{AtomId, NoMemory};

/// The serials of a module's current and old code.
#[derive(Clone, Copy)]
pub struct Serials {
    current: Option<u64>,
    old: Option<u64>,
}

/// The current and old code of each module, in the order of the first loads.
#[derive(Drop)]
pub struct VersionTable {
    serials: IndexMap<u32, Serials>,
    /// How many instances are live: current or old.
    live: usize,
}

impl Model for VersionTable {
    ghost use Rattle.server_core.specs.Rooms.{Rooms};

    ghost Value = { Rooms };

    ghost use Rattle.server_core.specs.VersionTable.{IsCounted, rooms_of};

    ghost view = { rooms_of };

    ghost invariant = { IsCounted };
}

impl VersionTable {
    /// No modules. It takes no memory.
    pub fn new(alloc: Global) -> VersionTable
        ensures { result.versions ≡ [] }
    {
        VersionTable {
            serials: IndexMap::new(alloc),
            live: 0,
        }
    }

    /// The serial of a module's current code.
    pub fn current(&self, module: AtomId) -> Option<u64>
        ensures { result ≡ current_among self.now.versions «module».0 }
    {
        self.serials.get(&module.0)?.current
    }

    /// The serial of a module's old code.
    pub fn old(&self, module: AtomId) -> Option<u64>
        ensures { result ≡ old_among self.now.versions «module».0 }
    {
        self.serials.get(&module.0)?.old
    }

    /// How many instances are live: current or old.
    pub fn live(&self) -> usize
        ensures { result ≡ live_count self.now.versions }
    {
        self.live
    }

    /// A map for these modules and so many more.
    pub fn room(&self, alloc: Global, more: usize) -> Result<IndexMap<u32, Serials>, NoMemory>
        ensures { IfOk result (λ map. HasPlaces (length self.now.versions + more) map) }
    {
        let wanted = self.serials.len().checked_add(more).ok_or(NoMemory)?;
        Ok(IndexMap::with_capacity(alloc, wanted)?)
    }

    /// Moves the versions into the map.
    pub fn make_room(&mut self, more: usize, mut map: IndexMap<u32, Serials>)
        requires { HasPlaces (length self.old.versions + more) map }
        ensures same { self.new.versions ≡ self.old.versions }
        ensures room { more ≤ self.new.room }
    {
        let _ = self.serials.len();
        map.append(&mut self.serials).unwrap();
        self.serials = map;
    }

    /// The instance with this serial is the current code of the module, and what was current is old.
    pub fn make_current(&mut self, module: AtomId, serial: u64)
        requires room { 0 < self.old.room }
        requires place { live_count self.old.versions < MOST_INSTANCES }
        ensures versions { self.new.versions ≡ with_current self.old.versions «module».0 serial }
        ensures room { self.old.room ≤ self.new.room + 1 }
    {
        let serials = Serials {
            current: Some(serial),
            old: self.current(module),
        };
        let previous = self.serials.insert(module.0, serials).unwrap();
        if !has_old(previous) {
            self.live += 1;
        }
    }

    /// What is current is old, and there is no current code.
    pub fn make_old(&mut self, module: AtomId)
        requires current { IsSome (current_among self.old.versions «module».0) }
        requires old { old_among self.old.versions «module».0 ≡ None }
        ensures { self.new.versions ≡ with_made_old self.old.versions «module».0 }
    {
        let was_current = self.current(module);
        let serials = Serials {
            current: None,
            old: was_current,
        };
        self.serials.insert(module.0, serials).unwrap();
    }

    /// The old code is gone.
    pub fn drop_old(&mut self, module: AtomId)
        requires { IsSome (old_among self.old.versions «module».0) }
        ensures { self.new.versions ≡ without_old self.old.versions «module».0 }
    {
        let serials = Serials {
            current: self.current(module),
            old: None,
        };
        self.serials.insert(module.0, serials).unwrap();
        self.live -= 1;
    }
}

/// Whether there was old code.
fn has_old(serials: Option<Serials>) -> bool
    ensures { result ≡ is_some (option_and_then (λ s. s.old) serials) }
{
    match serials {
        Some(serials) => serials.old.is_some(),
        None => false,
    }
}
